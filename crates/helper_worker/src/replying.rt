//! Helper after helper of a replier.
ghost use Rattle.std.specs.Prelude.{◌≡◌, ◌<◌, [], ◌∷◌};
ghost use Rattle.config_model.specs.Limits.{max_helpers};
ghost use Rattle.book_history.specs.Entries.Entry.{Stopped};
ghost use Rattle.pass_entries.specs.Making.{Makes, own};
ghost use Rattle.helper_worker.specs.Handing.{HasStop, writer_of};
ghost use Rattle.helper_worker.specs.Serving.{CallsOff, IsFreshBehind, Refuses, Serves};

use crate::errand::{Errand, Off};
use crate::handover::{Fetched, Handover};
use crate::ringing::ring_all;
use crate::serving::{deafen, serve};
use book_core::{Book, StopCall};
use book_gate::{Gate, GateName, Pass};
use outside::{Leash, Pause, Seat, Sink};
use std::marker::PhantomData;
use std::sync::Wait;

// How long a replier waits for a new helper where nobody rings, in milliseconds.
const IDLE: u64 = 500;

/// Answers each helper that is handed over, until the reader has ended.
pub fn reply<R: Wait, P: Pause, K: Sink + Drop, L: Leash + Drop, N: GateName>(
    rt: &R,
    gate: &Gate<Book>,
    pass: &mut Pass<Book>,
    pause: P,
    h: usize,
    handover: &Handover<K, L, N>,
    last: &mut u64,
)
    requires named { gate.now ≡ N.gate }
    requires gate { pass.old.gate ≡ gate.now }
    requires name { pass.old.name ≡ writer_of h }
    requires slot { h < max_helpers }
    requires fresh { IsFreshBehind last.old (own pass.old) }
    ensures serves { Serves h last.old last.new pass.old pass.new }
    ensures fresh { IsFreshBehind last.new (own pass.new) }
{
    for _ in rt.forever() {
        match handover.fetch(rt) {
            Fetched::Errand(errand) => reply_to(rt, gate, pass, pause, h, handover, last, errand),
            Fetched::Nothing => pause.wait(IDLE),
            Fetched::Ended => return,
        }
    }
    unreachable!()
}

// Answers one helper. One of another slot or of an incarnation that was there before, which no reader hands over, isn't
// answered.
fn reply_to<R: Wait, P: Pause, K: Sink + Drop, L: Leash + Drop, N: GateName>(
    rt: &R,
    gate: &Gate<Book>,
    pass: &mut Pass<Book>,
    pause: P,
    h: usize,
    handover: &Handover<K, L, N>,
    last: &mut u64,
    errand: Errand<K, L, N>,
)
    requires named { gate.now ≡ N.gate }
    requires gate { pass.old.gate ≡ gate.now }
    requires name { pass.old.name ≡ writer_of h }
    requires slot { h < max_helpers }
    requires fresh { IsFreshBehind last.old (own pass.old) }
    ensures serves { Serves h last.old last.new pass.old pass.new }
    ensures fresh { IsFreshBehind last.new (own pass.new) }
{
    if errand.h != h {
        return;
    }
    if errand.inc <= *last {
        return;
    }
    *last = errand.inc;
    let done = serve(rt, gate, pass, pause, h, errand);
    handover.put_back(rt, done);
    pause.at(Seat::Reader(h)).ring();
}

/// Ends the daemon in place of a run. A helper that was handed over before is told deaf and handed back.
pub fn refuse<R: Wait, P: Pause, K: Sink + Drop, L: Leash + Drop, N: GateName>(
    rt: &R,
    gate: &Gate<Book>,
    pass: &mut Pass<Book>,
    pause: P,
    h: usize,
    handover: &Handover<K, L, N>,
    last: &mut u64,
)
    requires named { gate.now ≡ N.gate }
    requires gate { pass.old.gate ≡ gate.now }
    requires name { pass.old.name ≡ writer_of h }
    requires slot { h < max_helpers }
    requires fresh { IsFreshBehind last.old (own pass.old) }
    ensures off { CallsOff h last.old last.new pass.old pass.new }
    ensures fresh { IsFreshBehind last.new (own pass.new) }
{
    let off = stop(rt, gate, pass);
    let found = handover.call_off(rt, off);
    refuse_one(rt, gate, pass, h, handover, last, found);
    pause.at(Seat::Reader(h)).ring();
    ring_all(pause, h);
}

// Ends the daemon.
fn stop<R: Wait, N: GateName>(rt: &R, gate: &Gate<Book>, pass: &mut Pass<Book>) -> Off<N>
    requires named { gate.now ≡ N.gate }
    requires gate { pass.old.gate ≡ gate.now }
    ensures makes { Makes pass.old (Stopped ∷ []) pass.new }
    ensures stops { HasStop pass.new.seen }
{
    gate.enter(rt, pass, StopCall);
    let glimpse = gate.glimpse(pass);
    Off {
        glimpse,
        name: PhantomData,
    }
}

// Hands a helper back that isn't answered, if there is one.
fn refuse_one<R: Wait, K: Sink + Drop, L: Leash + Drop, N: GateName>(
    rt: &R,
    gate: &Gate<Book>,
    pass: &mut Pass<Book>,
    h: usize,
    handover: &Handover<K, L, N>,
    last: &mut u64,
    found: Option<Errand<K, L, N>>,
)
    requires named { gate.now ≡ N.gate }
    requires gate { pass.old.gate ≡ gate.now }
    requires name { pass.old.name ≡ writer_of h }
    requires slot { h < max_helpers }
    requires fresh { IsFreshBehind last.old (own pass.old) }
    requires stops { HasStop pass.old.seen }
    ensures refuses { Refuses h last.old last.new pass.old pass.new }
    ensures fresh { IsFreshBehind last.new (own pass.new) }
{
    let Some(errand) = found else { return };
    if errand.h != h {
        return;
    }
    if errand.inc <= *last {
        return;
    }
    *last = errand.inc;
    let done = deafen(rt, gate, pass, h, errand);
    handover.put_back(rt, done);
}
