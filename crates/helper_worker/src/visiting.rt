//! One helper.
ghost use Rattle.std.specs.Prelude.{◌≡◌, ◌<◌, [], IfSome};
ghost use Rattle.config_model.specs.Limits.{max_helpers};
ghost use Rattle.outside.specs.Told.{GaveNothing};
ghost use Rattle.pass_entries.specs.Making.{Makes};
ghost use Rattle.helper_worker.specs.Handing.{HasGo, HasStop, TookNothing, writer_of};
ghost use Rattle.helper_worker.specs.Rounds.{Attends, HearsOut, IsSinkBack, Visits, ends_of, told};

use crate::errand::{Errand, Off, Return};
use crate::handover::{Handover, Unhanded};
use crate::hearing::hear;
use book_core::{Book, GoneCall};
use book_gate::{Gate, GateName, Pass};
use line_cutter::LineCutter;
use outside::{Leash, Pause, Pipes, Seat, Sink, Source, Spawned, Spawner};
use std::alloc::Global;
use std::marker::PhantomData;
use std::sync::Wait;

// How long a reader waits for a sink to come back where nobody rings, in milliseconds.
const IDLE: u64 = 500;

// A sink and what ends its helper.
#[derive(Drop)]
struct Held<K, L> {
    sink: K,
    leash: L,
}

/// Starts a helper and enters its lines, and that it is gone. Its sink goes to the replier and comes back.
pub fn visit<R: Wait, P: Pause, S: Spawner, N: GateName>(
    rt: &R,
    alloc: Global,
    gate: &Gate<Book>,
    pass: &mut Pass<Book>,
    pause: P,
    h: usize,
    inc: u64,
    run: &[u8],
    cutter: &mut LineCutter,
    handover: &Handover<S::Sink, S::Leash, N>,
    spawner: &mut S,
)
    requires named { gate.now ≡ N.gate }
    requires gate { pass.old.gate ≡ gate.now }
    requires goes { HasGo h inc pass.old.seen }
    requires slot { h < max_helpers }
    ensures { Visits h (writer_of h) inc run.now
        (told (S.children spawner.old) (S.asked spawner.old) (S.failed spawner.old))
        (told (S.children spawner.new) (S.asked spawner.new) (S.failed spawner.new))
        pass.old pass.new }
{
    match spawner.spawn(run) {
        Spawned::Open(pipes) => {
            let pipes = attend(
                rt, alloc, gate, pass, pause, h, inc, cutter, handover, pipes,
            );
            spawner.give_back(pipes);
        }
        Spawned::Failed => gate.enter(rt, pass, GoneCall { h, inc }),
    }
}

// Hands the sink of a new helper over, enters its lines, and that it is gone, and takes the sink back.
fn attend<R: Wait, P: Pause, S: Source + Drop, K: Sink + Drop, L: Leash + Drop, N: GateName>(
    rt: &R,
    alloc: Global,
    gate: &Gate<Book>,
    pass: &mut Pass<Book>,
    pause: P,
    h: usize,
    inc: u64,
    cutter: &mut LineCutter,
    handover: &Handover<K, L, N>,
    pipes: Pipes<S, K, L>,
) -> Pipes<S, K, L>
    requires named { gate.now ≡ N.gate }
    requires gate { pass.old.gate ≡ gate.now }
    requires goes { HasGo h inc pass.old.seen }
    requires slot { h < max_helpers }
    requires source { GaveNothing (S.given pipes.source) }
    requires sink { GaveNothing (K.taken pipes.sink) }
    ensures { Attends h (writer_of h) inc
        (ends_of (S.given result.source) (S.ended result.source) (S.faults result.source)
        (K.taken result.sink) (K.faults result.sink)) pass.old pass.new }
{
    let Pipes {
        mut source,
        sink,
        leash,
    } = pipes;
    let held = Held { sink, leash };
    let kept = hand_over(rt, gate, pass, pause, h, inc, handover, held);
    hear_out(rt, alloc, gate, pass, pause, h, inc, cutter, &mut source);
    let Held { sink, leash } = take_back(rt, gate, pass, pause, h, inc, handover, kept);
    Pipes {
        source,
        sink,
        leash,
    }
}

// Enters the lines of a new helper, and that it is gone.
fn hear_out<R: Wait, P: Pause, S: Source>(
    rt: &R,
    alloc: Global,
    gate: &Gate<Book>,
    pass: &mut Pass<Book>,
    pause: P,
    h: usize,
    inc: u64,
    cutter: &mut LineCutter,
    source: &mut S,
)
    requires gate { pass.old.gate ≡ gate.now }
    requires slot { h < max_helpers }
    requires source { GaveNothing (S.given source.old) }
    ensures { HearsOut h inc (S.given source.new) (S.ended source.new) (S.faults source.new)
        pass.old pass.new }
{
    hear(rt, alloc, gate, pass, pause, h, inc, cutter, source);
    gate.enter(rt, pass, GoneCall { h, inc });
    pause.at(Seat::Replier(h)).ring();
}

// Hands a sink to the replier. Where that was called off the helper is ended, and the sink stays.
fn hand_over<R: Wait, P: Pause, K: Sink + Drop, L: Leash + Drop, N: GateName>(
    rt: &R,
    gate: &Gate<Book>,
    pass: &mut Pass<Book>,
    pause: P,
    h: usize,
    inc: u64,
    handover: &Handover<K, L, N>,
    held: Held<K, L>,
) -> Option<Held<K, L>>
    requires named { gate.now ≡ N.gate }
    requires gate { pass.old.gate ≡ gate.now }
    requires goes { HasGo h inc pass.old.seen }
    requires sink { GaveNothing (K.taken held.sink) }
    ensures makes { Makes pass.old [] pass.new }
    ensures kept { IfSome result (λ held. TookNothing (K.taken held.sink) × HasStop pass.new.seen) }
{
    let Held { sink, leash } = held;
    let glimpse = gate.glimpse(pass);
    let errand = Errand {
        sink,
        leash,
        h,
        inc,
        glimpse,
        name: PhantomData,
    };
    let unhanded = handover.hand(rt, errand);
    pause.at(Seat::Replier(h)).ring();
    let Some(unhanded) = unhanded else {
        return None;
    };
    Some(keep(gate, pass, unhanded))
}

// Ends a helper whose sink wasn't handed over.
fn keep<K: Sink + Drop, L: Leash + Drop, N: GateName>(
    gate: &Gate<Book>,
    pass: &mut Pass<Book>,
    unhanded: Unhanded<K, L, N>,
) -> Held<K, L>
    requires named { gate.now ≡ N.gate }
    requires gate { pass.old.gate ≡ gate.now }
    ensures makes { Makes pass.old [] pass.new }
    ensures sink { TookNothing (K.taken result.sink) }
    ensures stops { HasStop pass.new.seen }
{
    let Unhanded { errand, off } = unhanded;
    let Errand {
        sink,
        mut leash,
        h: _,
        inc: _,
        glimpse: _,
        name: _,
    } = errand;
    let Off { glimpse, name: _ } = off;
    gate.learn(pass, glimpse);
    leash.kill();
    Held { sink, leash }
}

// The sink of a helper, unless it was kept, once it comes back from the replier.
fn take_back<R: Wait, P: Pause, K: Sink + Drop, L: Leash + Drop, N: GateName>(
    rt: &R,
    gate: &Gate<Book>,
    pass: &mut Pass<Book>,
    pause: P,
    h: usize,
    inc: u64,
    handover: &Handover<K, L, N>,
    kept: Option<Held<K, L>>,
) -> Held<K, L>
    requires named { gate.now ≡ N.gate }
    requires gate { pass.old.gate ≡ gate.now }
    requires kept { IfSome kept (λ held. TookNothing (K.taken held.sink) × HasStop pass.old.seen) }
    ensures makes { Makes pass.old [] pass.new }
    ensures back { IsSinkBack (writer_of h) h inc (K.taken result.sink) (K.faults result.sink)
        pass.new.seen }
{
    if let Some(held) = kept {
        return held;
    }
    for _ in rt.forever() {
        let Some(done) = handover.take_back(rt) else {
            pause.wait(IDLE);
            continue;
        };
        if done.h == h {
            if done.inc == inc {
                return learn_back(gate, pass, done);
            }
        }
    }
    unreachable!()
}

// The sink that the replier has handed back.
fn learn_back<K: Sink + Drop, L: Leash + Drop, N: GateName>(
    gate: &Gate<Book>,
    pass: &mut Pass<Book>,
    done: Return<K, L, N>,
) -> Held<K, L>
    requires named { gate.now ≡ N.gate }
    requires gate { pass.old.gate ≡ gate.now }
    ensures makes { Makes pass.old [] pass.new }
    ensures back { IsSinkBack (writer_of done.h) done.h done.inc (K.taken result.sink)
        (K.faults result.sink) pass.new.seen }
{
    let Return {
        sink,
        leash,
        h: _,
        inc: _,
        glimpse,
        name: _,
    } = done;
    gate.learn(pass, glimpse);
    Held { sink, leash }
}
