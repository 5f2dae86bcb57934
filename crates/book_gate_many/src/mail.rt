//! Glimpses handed from thread to thread.
ghost use Rattle.std.specs.Prelude.{◌≡◌, ◌<◌, true};
ghost use Rattle.book_gate_many.specs.Adding.{Adds, has_made};

use crate::tally::Tally;
use book_gate::{Gate, GateName, Glimpse, Pass};
use std::marker::PhantomData;
use std::sync::{Condvar, Mutex, Wait};
use std::thread;
use std::thread::Threads;

/// A glimpse of the gate that the name names, which shows an entry of the pass that it names.
#[derive(Drop)]
pub struct Letter<N: GateName> {
    glimpse: Glimpse<Tally>,
    name: PhantomData<N>,
    ghost of: { glimpse.gate ≡ N.gate },
    ghost tells: { has_made N.writer glimpse.seen ≡ true },
}

/// A box for one letter.
#[derive(Drop)]
pub struct MailBox<N: GateName> {
    slot: Mutex<Option<Letter<N>>>,
    changed: Condvar,
}

// What a pass has seen, as a letter. The pass stays as it is.
fn write<N: GateName>(gate: &Gate<Tally>, pass: &mut Pass<Tally>) -> Letter<N>
    requires gate { gate.now ≡ N.gate }
    requires pass { pass.old.gate ≡ N.gate }
    requires made { has_made N.writer pass.old.seen ≡ true }
    ensures { pass.new ≡ pass.old }
{
    let glimpse = gate.glimpse(pass);
    Letter {
        glimpse,
        name: PhantomData,
    }
}

// Learns what a letter tells.
fn read<N: GateName>(gate: &Gate<Tally>, pass: &mut Pass<Tally>, letter: Letter<N>)
    requires gate { gate.now ≡ N.gate }
    requires pass { pass.old.gate ≡ N.gate }
    ensures goes_on { Adds 0 pass.old pass.new }
    ensures told { has_made N.writer pass.new.seen ≡ true }
{
    let Letter { glimpse, name: _ } = letter;
    gate.learn(pass, glimpse);
}

impl<N: GateName> MailBox<N> {
    pub fn new() -> MailBox<N> {
        MailBox {
            slot: Mutex::new(None),
            changed: Condvar::new(),
        }
    }

    // Waits until the box is empty.
    fn put(&self, rt: &impl Wait, letter: Letter<N>) {
        let mut slot = self
            .changed
            .wait_while(rt, self.slot.lock(rt), |slot| slot.is_some());
        *slot = Some(letter);
        self.changed.notify_one();
    }

    // Waits until there is a letter.
    fn take(&self, rt: &impl Wait) -> Letter<N> {
        let mut slot = self.slot.lock(rt);
        for _ in rt.forever() {
            if let Some(letter) = slot.take() {
                self.changed.notify_one();
                return letter;
            }
            slot = self.changed.wait(rt, slot);
        }
        unreachable!()
    }
}

// Hands a glimpse to the other thread and learns from one of its, this many times. The pass makes no call.
fn correspond<N: GateName, M: GateName>(
    rt: &impl Wait,
    gate: &Gate<Tally>,
    mut pass: Pass<Tally>,
    to: &MailBox<N>,
    from: &MailBox<M>,
    times: u32,
) -> Pass<Tally>
    requires gate { gate.now ≡ N.gate }
    requires same { M.gate ≡ N.gate }
    requires pass { pass.gate ≡ N.gate }
    requires made { has_made N.writer pass.seen ≡ true }
    ensures goes_on { Adds 0 pass result }
    ensures told { 0 < times → has_made M.writer result.seen ≡ true }
{
    // `i` is for the invariant, which tells a first letter from none.
    for i in 0..times {
        to.put(rt, write(gate, &mut pass));
        read(gate, &mut pass, from.take(rt));
    }
    pass
}

/// Two passes, each of which has made a call, hand each other this many glimpses, each in a thread of its own. After
/// one or more, each has seen an entry of the other.
pub fn correspond_beside<N: GateName + Send, M: GateName + Send, R: Threads + Wait + Sync>(
    rt: &R,
    gate: &Gate<Tally>,
    one: Pass<Tally>,
    two: Pass<Tally>,
    times: u32,
) -> (Pass<Tally>, Pass<Tally>)
    requires gate { gate.now ≡ N.gate }
    requires same { M.gate ≡ N.gate }
    requires one { (one.gate ≡ N.gate) × (has_made N.writer one.seen ≡ true) }
    requires two { (two.gate ≡ N.gate) × (has_made M.writer two.seen ≡ true) }
    ensures one { (Adds 0 one result.0) × (0 < times → has_made M.writer result.0.seen ≡ true) }
    ensures two { (Adds 0 two result.1) × (0 < times → has_made N.writer result.1.seen ≡ true) }
{
    let left: MailBox<M> = MailBox::new();
    let right: MailBox<N> = MailBox::new();
    let to_left = &left;
    let to_right = &right;
    thread::join(
        rt,
        move || -> Pass<Tally>
            requires { (gate.now ≡ N.gate) × (M.gate ≡ N.gate) × (one.gate ≡ N.gate)
                × (has_made N.writer one.seen ≡ true) }
            ensures { (Adds 0 one result) × (0 < times → has_made M.writer result.seen ≡ true) }
        { correspond::<N, M>(rt, gate, one, to_right, to_left, times) },
        move || -> Pass<Tally>
            requires { (gate.now ≡ N.gate) × (M.gate ≡ N.gate) × (two.gate ≡ N.gate)
                × (has_made M.writer two.seen ≡ true) }
            ensures { (Adds 0 two result) × (0 < times → has_made N.writer result.seen ≡ true) }
        { correspond::<M, N>(rt, gate, two, to_left, to_right, times) },
    )
}
