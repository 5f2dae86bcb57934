//! Slots with their values, and the batch that is open.

ghost use Rattle.std.specs.Prelude.{◌≡◌, ◌<◌, ◌≤◌, ◌%◌, ◌+◌, ◌*◌, ◌++◌, ◌∷◌, ◌||◌, ◌==◌, [], false};
ghost use Rattle.std.specs.Prelude.{length};
ghost use Rattle.std.specs.Prelude.{slice_get, slice_set, drop};
ghost use Rattle.std.specs.Prelude.{max, OnOk, OnErr, IfOk, IsNone, IsTrue, MatchOption, ◌↔◌, ℕ};
ghost use Rattle.std.specs.Option.{option_map};
ghost use Rattle.linked_pending.specs.Links.{link};
ghost use Rattle.slot_batches.specs.Left.{value_left};
ghost use Rattle.slot_batches.specs.Slots.{Opens, flag_of, is_idle};

use crate::queues::{empty, flag_of, mark, renew, settle, unmark};
use answers::NoMemory;
use linked_pending::Pending;
use std::alloc::Global;
use std::marker::Model;

/// A slot, and the value that a batch sends of it.
#[derive(Clone, Copy, Debug, PartialEq, Eq)]
pub struct Item {
    /// The slot's number.
    pub slot: usize,
    /// The value, or 0 or 1 where the slot is to have none.
    pub value: usize,
}

/// Slots, numbered from 0, each with the value that it is to have and the one that was sent of it. The numbers from 2
/// on are values. A slot is even or odd for good: its values are, and 0 or 1 stands for none.
///
/// # Order
///
/// A batch has its slots in groups of one value. Slots without a value come first, even ones before odd ones. Then the
/// groups stand in the order in which they began to wait, and the slots of a group in the order in which they did.
#[derive(Drop)]
pub struct Slots {
    nows: Vec<usize>,
    sents: Vec<usize>,
    pending: Pending,
    side: usize,
    even_again: bool,
    odd_again: bool,
}

impl Model for Slots {
    ghost use Rattle.slot_batches.specs.Left.{items_of};
    ghost use Rattle.slot_batches.specs.Owing.{IsKept, AllWait};
    ghost use Rattle.slot_batches.specs.Slots.{Slots as Seen};

    ghost Value = { Seen };

    ghost view = { λ s. record {
      room = s.pending.room;
      nows = s.nows.items;
      sents = s.sents.items;
      left = items_of s.pending.frozen;
      even_again = s.even_again;
      odd_again = s.odd_again;
    } };

    ghost invariant = { λ s. IsKept s.nows.items s.sents.items s.pending s.side
        × AllWait s.nows.items s.sents.items s.pending s.side s.even_again s.odd_again };
}

impl Slots {
    /// No slots, and no room. They take their memory from `alloc`, in `reserve` and `add` alone.
    pub fn new(alloc: Global) -> Self
        ensures { result ≡ record {
          room = 0;
          nows = [];
          sents = [];
          left = [];
          even_again = false;
          odd_again = false;
        } }
    {
        Slots {
            nows: Vec::new(alloc),
            sents: Vec::new(alloc),
            pending: Pending::new(alloc),
            side: 0,
            even_again: false,
            odd_again: false,
        }
    }

    /// Adds a slot without a value, and answers its number. There is then room for the values of so many slots. Where
    /// it fails the slots are as before.
    pub fn add(&mut self, parity: usize) -> Result<usize, NoMemory>
        requires { parity ≤ 1 }
        ensures number { IfOk result (λ slot. slot ≡ length self.old.nows) }
        ensures added { OnOk result (self.new ≡ record self.old {
          room = max self.old.room (2 * length self.old.nows + 4);
          nows = self.old.nows ++ parity ∷ [];
          sents = self.old.sents ++ parity ∷ [];
        }) }
        ensures err { OnErr result (self.new ≡ self.old) }
    {
        let slot = self.nows.len();
        let nodes = 2 * slot + 4;
        self.nows.reserve(1)?;
        self.sents.reserve(1)?;
        self.pending.reserve(nodes, nodes)?;
        self.nows.push_reserved(parity);
        self.sents.push_reserved(parity);
        if slot == 0 {
            mark(&mut self.pending);
        }
        Ok(slot)
    }

    /// Uses a slot anew of which nothing is kept, for values of this parity.
    pub fn claim(&mut self, slot: usize, parity: usize)
        requires slot { slot < length self.old.nows }
        requires parity { parity ≤ 1 }
        requires idle { IsTrue (is_idle self.old slot) }
        ensures { self.new ≡ record self.old {
          nows = slice_set self.old.nows slot parity;
          sents = slice_set self.old.sents slot parity;
        } }
    {
        self.nows[slot] = parity;
        self.sents[slot] = parity;
    }

    /// Gives a slot a value, or none. The open batch stays as it is.
    pub fn show(&mut self, slot: usize, value: usize)
        requires slot { slot < length self.old.nows }
        requires value { value < self.old.room }
        requires parity { value % 2 ≡ link self.old.nows slot % 2 }
        ensures { self.new ≡ record self.old { nows = slice_set self.old.nows slot value } }
    {
        let again = flag_of(self.even_again, self.odd_again, value);
        self.nows[slot] = value;
        settle(
            &self.nows,
            &self.sents,
            &mut self.pending,
            self.side,
            slot,
            again,
        );
    }

    /// The first item of the open batch, or None where none is open.
    pub fn front(&self) -> Option<Item>
        ensures first { result ≡ slice_get self.now.left 0 }
        ensures none { IsNone result ↔ (self.now.left ≡ []) }
    {
        match self.pending.front() {
            Some(place) => Some(Item {
                slot: place.node / 2 - 1,
                value: place.group,
            }),
            None => None,
        }
    }

    /// Moves past the first item of the open batch: its value was sent.
    pub fn pass(&mut self)
        ensures { MatchOption (slice_get self.old.left 0) (self.new ≡ self.old) (λ item.
            self.new ≡ record self.old {
              sents = slice_set self.old.sents item.slot item.value;
              left = drop 1 self.old.left;
            }) }
    {
        let Some(place) = self.pending.front() else {
            return;
        };
        self.sents[place.node / 2 - 1] = place.group;
        self.pending.leave(place.node);
    }

    /// Opens a batch with all that is owed, where none is open. Nothing is then to be sent again.
    pub fn freeze(&mut self)
        requires { self.old.left ≡ [] }
        ensures left { Opens self.old self.new.left }
        ensures rest { self.new ≡ record self.old {
          left = self.new.left;
          even_again = false;
          odd_again = false;
        } }
    {
        unmark(&mut self.pending);
        self.pending.freeze();
        mark(&mut self.pending);
        self.side = 1 - self.side;
        self.even_again = false;
        self.odd_again = false;
    }

    /// Every slot of a parity that has a value is to be sent again, by the next batch.
    pub fn refresh(&mut self, parity: usize)
        requires { parity ≤ 1 }
        ensures { self.new ≡ record self.old {
          even_again = parity == 0 || self.old.even_again;
          odd_again = parity == 1 || self.old.odd_again;
        } }
    {
        renew(
            &self.nows,
            &self.sents,
            &mut self.pending,
            self.side,
            parity,
        );
        if parity == 0 {
            self.even_again = true;
        } else {
            self.odd_again = true;
        }
    }

    /// The value that the open batch will send of a slot, or None where nothing is left of it.
    pub fn left(&self, slot: usize) -> Option<usize>
        requires { slot < length self.now.nows }
        ensures { result ≡ value_left self.now.left slot }
    {
        self.pending.frozen_group(2 * slot + 2 + (1 - self.side))
    }

    /// Whether nothing is kept of a slot.
    pub fn is_idle(&self, slot: usize) -> bool
        requires { slot < length self.now.nows }
        ensures { result ≡ is_idle self.now slot }
    {
        self.nows[slot] <= 1 && self.sents[slot] <= 1 && self.left(slot).is_none()
    }

    /// Whether slots of a parity that have a value are to be sent again by the next batch.
    pub fn is_again(&self, parity: usize) -> bool
        ensures { result ≡ flag_of self.now.even_again self.now.odd_again parity }
    {
        flag_of(self.even_again, self.odd_again, parity)
    }

    /// How many slots there are.
    pub fn len(&self) -> usize
        ensures { result ≡ length self.now.nows }
    {
        self.nows.len()
    }

    /// The number that all values are below.
    pub fn room(&self) -> usize
        ensures { result ≡ self.now.room }
    {
        self.pending.room()
    }

    /// The value that a slot is to have.
    pub fn now(&self, slot: usize) -> usize
        requires { slot < length self.now.nows }
        ensures { result ≡ link self.now.nows slot }
    {
        self.nows[slot]
    }

    /// The value that was sent of a slot.
    pub fn sent(&self, slot: usize) -> usize
        requires { slot < length self.now.nows }
        ensures value { result ≡ link self.now.sents slot }
        ensures same_length { length self.now.sents ≡ length self.now.nows }
    {
        self.sents[slot]
    }

    /// Makes room for the values below `values`. Where it fails the slots are as before.
    pub fn reserve(&mut self, values: usize) -> Result<(), NoMemory>
        ensures ok { OnOk result (self.new ≡ record self.old { room = max self.old.room values }) }
        ensures err { OnErr result (self.new ≡ self.old) }
    {
        self.pending.reserve(values, values)
    }

    /// Takes the values of all slots from them, and what was sent, and what is left of the open batch.
    pub fn reset(&mut self)
        ensures same_length { length self.new.nows ≡ length self.old.nows }
        ensures sent_length { length self.new.sents ≡ length self.old.nows }
        ensures nows { (slot : ℕ) → slot < length self.old.nows
            → link self.new.nows slot ≡ link self.old.nows slot % 2 }
        ensures sents { (slot : ℕ) → slot < length self.old.nows
            → link self.new.sents slot ≡ link self.old.nows slot % 2 }
        ensures left { self.new.left ≡ [] }
        ensures even { self.new.even_again ≡ false }
        ensures odd { self.new.odd_again ≡ false }
        ensures room { self.new.room ≡ self.old.room }
    {
        empty(&mut self.nows, &mut self.sents, &mut self.pending);
        self.even_again = false;
        self.odd_again = false;
    }
}
