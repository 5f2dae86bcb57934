//! What no clause says: that the calls find memory, in which order groups come, and that a million calls go well.

ghost use Rattle.std.specs.Prelude.{◌<◌};

use crate::{Item, NoMemory, Slots};
use std::alloc::{AllocError, Global};
use std::test::*;

// How many slots the random steps change.
const SLOTS: usize = 64;
// The number that their values are below.
const VALUES: usize = 20;

// Slots, the even ones for even values, with room for values below `values`.
fn slots_with(alloc: Global, count: usize, values: usize) -> Result<Slots, NoMemory> {
    let mut slots = Slots::new(alloc);
    for number in 0..count {
        slots.add(number % 2)?;
    }
    slots.reserve(values)?;
    Ok(slots)
}

// Gives a slot a value that it can have, and tells whether it can.
fn show(slots: &mut Slots, slot: usize, value: usize) -> bool {
    if slot < slots.len() && value < slots.room() && value % 2 == slots.now(slot) % 2 {
        slots.show(slot, value);
        true
    } else {
        false
    }
}

// Passes the front of the open batch, or opens one where none is open.
fn send(slots: &mut Slots) -> Option<Item> {
    let front = slots.front();
    if front.is_none() {
        slots.freeze();
    } else {
        slots.pass();
    }
    front
}

// Passes the whole open batch, and tells whether it was of these items.
fn sends(slots: &mut Slots, items: &[(usize, usize)]) -> bool {
    let mut same = true;
    for (slot, value) in items {
        let item = Item {
            slot: *slot,
            value: *value,
        };
        same = slots.front() == Some(item) && same;
        slots.pass();
    }
    same && slots.front().is_none()
}

#[test]
fn a_later_value_waits_for_the_next_batch(rt: HostRuntime) -> Result<(), Fail> {
    let mut slots = slots_with(rt.alloc(), 4, VALUES)?;
    assert!(rt; show(&mut slots, 0, 4));
    assert!(rt; show(&mut slots, 2, 4));
    assert_eq!(rt; send(&mut slots), None, "a batch is opened");
    assert!(rt; show(&mut slots, 0, 6));
    assert!(rt; show(&mut slots, 2, 0));
    assert!(rt; sends(&mut slots, &[(0, 4), (2, 4)]));
    assert_eq!(rt; send(&mut slots), None, "the next one is opened");
    assert!(rt; sends(&mut slots, &[(2, 0), (0, 6)]));
    Ok(())
}

#[test]
fn slots_without_a_value_come_first_and_even_ones_before_odd_ones(
    rt: HostRuntime,
) -> Result<(), Fail> {
    let mut slots = slots_with(rt.alloc(), 6, VALUES)?;
    for slot in 0..4 {
        assert!(rt; show(&mut slots, slot, 2 + slot % 2));
    }
    send(&mut slots);
    assert!(rt; sends(&mut slots, &[(0, 2), (2, 2), (1, 3), (3, 3)]));
    for (slot, value) in [(5, 7), (4, 2), (1, 1), (0, 0), (3, 1), (2, 8)] {
        assert!(rt; show(&mut slots, slot, value));
    }
    send(&mut slots);
    let items = [(0, 0), (1, 1), (3, 1), (5, 7), (4, 2), (2, 8)];
    assert!(rt; sends(&mut slots, &items));
    Ok(())
}

#[test]
fn a_refresh_in_an_open_batch_concerns_the_next_one(rt: HostRuntime) -> Result<(), Fail> {
    let mut slots = slots_with(rt.alloc(), 4, VALUES)?;
    assert!(rt; show(&mut slots, 0, 4));
    assert!(rt; show(&mut slots, 1, 5));
    send(&mut slots);
    slots.refresh(0);
    assert!(rt; sends(&mut slots, &[(0, 4), (1, 5)]));
    send(&mut slots);
    assert!(rt; sends(&mut slots, &[(0, 4)]), "slot 2 has no value");
    send(&mut slots);
    assert_eq!(rt; slots.front(), None, "it was sent again once");
    Ok(())
}

#[test]
fn a_slot_is_used_anew_once_its_withdrawal_was_sent(rt: HostRuntime) -> Result<(), Fail> {
    let mut slots = slots_with(rt.alloc(), 1, VALUES)?;
    assert!(rt; show(&mut slots, 0, 4));
    send(&mut slots);
    assert!(rt; sends(&mut slots, &[(0, 4)]));
    assert!(rt; show(&mut slots, 0, 0));
    send(&mut slots);
    assert!(rt;
        0 < slots.len() && !slots.is_idle(0),
        "it is still to be withdrawn"
    );
    assert!(rt; sends(&mut slots, &[(0, 0)]));
    assert!(rt; 0 < slots.len() && slots.is_idle(0));
    if 0 < slots.len() && slots.is_idle(0) {
        slots.claim(0, 1);
    }
    assert!(rt; show(&mut slots, 0, 5));
    send(&mut slots);
    assert!(rt; sends(&mut slots, &[(0, 5)]));
    Ok(())
}

#[test]
fn a_reset_forgets_what_was_sent_and_what_is_left(rt: HostRuntime) -> Result<(), Fail> {
    let mut slots = slots_with(rt.alloc(), 2, VALUES)?;
    assert!(rt; show(&mut slots, 0, 4));
    assert!(rt; show(&mut slots, 1, 5));
    send(&mut slots);
    slots.pass();
    slots.reset();
    assert_eq!(rt; slots.front(), None, "no batch is open");
    assert!(rt; show(&mut slots, 0, 4));
    send(&mut slots);
    assert!(rt; sends(&mut slots, &[(0, 4)]), "it is sent anew");
    assert!(rt; 0 < slots.len() && slots.sent(0) == 4);
    Ok(())
}

#[test]
fn room_is_found_for_a_hundred_thousand_slots(rt: HostRuntime) -> Result<(), Fail> {
    let slots = slots_with(rt.alloc(), 100_000, 300_000)?;
    assert_eq!(rt; (slots.len(), slots.room()), (100_000, 300_000));
    Ok(())
}

// The same slots as plain lists, and a generator of random numbers that always gives the same ones.
#[derive(Drop)]
struct Plain {
    nows: Vec<usize>,
    sents: Vec<usize>,
    left: Vec<Option<usize>>,
    again: [bool; 2],
    seed: u64,
}

impl Plain {
    fn new(alloc: Global) -> Result<Self, AllocError> {
        let mut plain = Plain {
            nows: Vec::new(alloc),
            sents: Vec::new(alloc),
            left: Vec::new(alloc),
            again: [false, false],
            seed: 1,
        };
        for slot in 0..SLOTS {
            plain.nows.push(slot % 2)?;
            plain.sents.push(slot % 2)?;
            plain.left.push(None)?;
        }
        Ok(plain)
    }

    // A number below the bound.
    fn below(&mut self, bound: usize) -> usize
        requires { 0 < bound }
        ensures { result < bound }
    {
        self.seed = self
            .seed
            .wrapping_mul(6364136223846793005)
            .wrapping_add(1442695040888963407);
        (self.seed >> 33) as usize % bound
    }

    // What a batch owes of a slot that begins now.
    fn owed(&self, slot: usize) -> Option<usize> {
        let now = *self.nows.get(slot)?;
        let again = *self.again.get(now % 2)?;
        let differs = self.sents.get(slot) != Some(&now);
        if differs || (now > 1 && again) {
            Some(now)
        } else {
            None
        }
    }

    fn show(&mut self, slot: usize, value: usize) {
        if let Some(now) = self.nows.get_mut(slot) {
            *now = value;
        }
    }

    fn freeze(&mut self) {
        for slot in 0..self.left.len() {
            let owed = self.owed(slot);
            if let Some(left) = self.left.get_mut(slot) {
                *left = owed;
            }
        }
        self.again = [false, false];
    }

    // Passes an item, and tells whether it was left.
    fn pass(&mut self, item: Item) -> bool {
        let was = self.left.get(item.slot) == Some(&Some(item.value));
        if let Some(left) = self.left.get_mut(item.slot) {
            *left = None;
        }
        if let Some(sent) = self.sents.get_mut(item.slot) {
            *sent = item.value;
        }
        was
    }

    fn is_through(&self) -> bool {
        self.left.iter().all(|left| left.is_none())
    }
}

// Takes a random step with both, and tells whether they agree.
fn step(slots: &mut Slots, plain: &mut Plain) -> bool {
    let slot = plain.below(SLOTS);
    let value = 2 * plain.below(VALUES / 2) + slot % 2;
    match plain.below(64) {
        0 => {
            let parity = slot % 2;
            slots.refresh(parity);
            if let Some(again) = plain.again.get_mut(parity) {
                *again = true;
            }
            true
        }
        1..=31 => {
            plain.show(slot, value);
            show(slots, slot, value)
        }
        _ => match send(slots) {
            Some(item) => plain.pass(item),
            None => {
                let through = plain.is_through();
                plain.freeze();
                through
            }
        },
    }
}

#[test]
fn a_million_random_calls_are_answered_as_plain_lists_do(rt: HostRuntime) -> Result<(), Fail> {
    let mut slots = slots_with(rt.alloc(), SLOTS, VALUES)?;
    let mut plain = Plain::new(rt.alloc())?;
    let mut agree = true;
    for _ in 0..1_000_000 {
        agree = step(&mut slots, &mut plain) && agree;
    }
    assert!(rt; agree);
    Ok(())
}
