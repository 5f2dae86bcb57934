//! The turns of a session: what is to be sent, a look at the link, the timers.
ghost use Rattle.std.specs.Prelude.{◌≡◌, ◌<◌, [], length};
ghost use Rattle.config_model.specs.Limits.{max_peers};
ghost use Rattle.peer_worker.specs.Goings.{Fits, Goes, IsPlace, idle};
ghost use Rattle.peer_worker.specs.Places.{start};
ghost use Rattle.peer_worker.specs.Desks.{Desked};
ghost use Rattle.peer_worker.specs.Hearing.{IsWithin};
ghost use Rattle.peer_worker.specs.Wires.{Gathered, wire};

use crate::desk::Desk;
use crate::hearing::{hear, is_idle};
use crate::session::{cut_if_up, handle};
use crate::speaking::flush;
use crate::timers::{Due, Timers};
use crate::voice::Voice;
use book_core::Book;
use book_gate::{Gate, Pass};
use frame_cutter::FrameCutter;
use outside::{Clock, Ear, Link, Pause, Recv};
use route_values::Settings;
use session_machine::{Event, Machine, State};
use std::sync::Wait;

// How many bytes are received at once.
const BUFFER: usize = 4_096;

// Tells the session what came, and the timers whether there was a whole message.
fn take_in<R: Wait, L: Link, E: Ear, C: Clock>(
    rt: &R,
    gate: &Gate<Book>,
    pass: &mut Pass<Book>,
    n: usize,
    desk: &mut Desk,
    voice: &mut Voice<L>,
    ear: &mut E,
    machine: &mut Machine,
    own: Settings,
    cutter: &mut FrameCutter,
    piece: &[u8],
    clock: C,
    timers: &mut Timers,
)
    requires gate { pass.old.gate ≡ gate.now }
    requires slot { n < max_peers }
    ensures { Goes n own pass.old (wire L.Link voice.old desk.old) (Fits machine.old.state)
        (Fits machine.new.state) pass.new (wire L.Link voice.new desk.new) }
{
    if hear(
        rt, gate, pass, n, desk, voice, ear, machine, own, cutter, piece,
    ) {
        timers.hear(clock.now());
    }
}

// Looks at the link once, unless a send on it failed.
fn look<L: Link>(voice: &mut Voice<L>, into: &mut [u8]) -> Recv
    requires { 0 < length into.old }
    ensures still { (desk : Desked) → Gathered (wire L.Link voice.old desk) []
        (wire L.Link voice.new desk) }
    ensures within { IsWithin result (length into.new) }
{
    if voice.broken {
        return Recv::Failed;
    }
    voice.link.recv(into)
}

// Looks at the link once, and tells the session what came.
fn listen<R: Wait, L: Link, E: Ear, C: Clock>(
    rt: &R,
    gate: &Gate<Book>,
    pass: &mut Pass<Book>,
    n: usize,
    desk: &mut Desk,
    voice: &mut Voice<L>,
    ear: &mut E,
    machine: &mut Machine,
    own: Settings,
    cutter: &mut FrameCutter,
    clock: C,
    timers: &mut Timers,
)
    requires gate { pass.old.gate ≡ gate.now }
    requires slot { n < max_peers }
    ensures { Goes n own pass.old (wire L.Link voice.old desk.old) (Fits machine.old.state)
        (Fits machine.new.state) pass.new (wire L.Link voice.new desk.new) }
{
    let mut buffer = [0; BUFFER];
    match look(voice, &mut buffer) {
        Recv::Got(count) => take_in(
            rt,
            gate,
            pass,
            n,
            desk,
            voice,
            ear,
            machine,
            own,
            cutter,
            &buffer[..count],
            clock,
            timers,
        ),
        Recv::Quiet => timers.rest(),
        Recv::End => {
            let lost = Event::Lost;
            handle(rt, gate, pass, n, desk, voice, ear, machine, own, lost);
        }
        Recv::Failed => {
            let lost = Event::Lost;
            handle(rt, gate, pass, n, desk, voice, ear, machine, own, lost);
        }
    }
}

// Looks at the timers.
fn tick<R: Wait, L: Link, E: Ear>(
    rt: &R,
    gate: &Gate<Book>,
    pass: &mut Pass<Book>,
    n: usize,
    desk: &mut Desk,
    voice: &mut Voice<L>,
    ear: &mut E,
    machine: &mut Machine,
    own: Settings,
    now: u64,
    timers: &mut Timers,
)
    requires gate { pass.old.gate ≡ gate.now }
    requires slot { n < max_peers }
    ensures { Goes n own pass.old (wire L.Link voice.old desk.old) (Fits machine.old.state)
        (Fits machine.new.state) pass.new (wire L.Link voice.new desk.new) }
{
    match timers.due(machine.hold(), now) {
        Due::Nothing => {}
        Due::Keepalive => {
            timers.keep(now);
            let due = Event::KeepaliveDue;
            handle(rt, gate, pass, n, desk, voice, ear, machine, own, due);
        }
        Due::Over => {
            let over = Event::HoldExpired;
            handle(rt, gate, pass, n, desk, voice, ear, machine, own, over);
        }
    }
}

// Whether an OPEN was taken between two states, which is answered by a KEEPALIVE.
fn is_taken(was: State, now: State) -> bool {
    match was {
        State::OpenSent => match now {
            State::Idle | State::OpenSent => false,
            State::OpenConfirm(_) | State::Established(_) => true,
        },
        State::Idle | State::OpenConfirm(_) | State::Established(_) => false,
    }
}

// Looks at the link and at the timers once.
fn turn<R: Wait, L: Link, E: Ear, C: Clock>(
    rt: &R,
    gate: &Gate<Book>,
    pass: &mut Pass<Book>,
    n: usize,
    desk: &mut Desk,
    voice: &mut Voice<L>,
    ear: &mut E,
    machine: &mut Machine,
    own: Settings,
    cutter: &mut FrameCutter,
    clock: C,
    timers: &mut Timers,
)
    requires gate { pass.old.gate ≡ gate.now }
    requires slot { n < max_peers }
    ensures { Goes n own pass.old (wire L.Link voice.old desk.old) (Fits machine.old.state)
        (Fits machine.new.state) pass.new (wire L.Link voice.new desk.new) }
{
    let was = machine.state();
    listen(
        rt, gate, pass, n, desk, voice, ear, machine, own, cutter, clock, timers,
    );
    let now = clock.now();
    timers.keep_if(is_taken(was, machine.state()), now);
    tick(
        rt, gate, pass, n, desk, voice, ear, machine, own, now, timers,
    );
}

// Lets the next look at the link wait for nothing, where there is more to do.
fn ring_if<P: Pause>(pause: P, more: bool) {
    if more {
        pause.ring();
    }
}

/// Talks on a new link until no session stands and none begins. Nothing that was said is left to be sent then.
pub fn converse<R: Wait, L: Link, E: Ear, C: Clock, P: Pause>(
    rt: &R,
    gate: &Gate<Book>,
    pass: &mut Pass<Book>,
    n: usize,
    desk: &mut Desk,
    voice: &mut Voice<L>,
    ear: &mut E,
    own: Settings,
    cutter: &mut FrameCutter,
    clock: C,
    pause: P,
)
    requires gate { pass.old.gate ≡ gate.now }
    requires slot { n < max_peers }
    ensures goes { Goes n own pass.old (wire L.Link voice.old desk.old) (IsPlace start)
        (Fits idle) pass.new (wire L.Link voice.new desk.new) }
    ensures out { desk.new.out ≡ [] }
{
    cutter.reset();
    let mut machine = Machine::new(own);
    let mut timers = Timers::new(clock.now());
    let connected = Event::Connected;
    handle(
        rt,
        gate,
        pass,
        n,
        desk,
        voice,
        ear,
        &mut machine,
        own,
        connected,
    );
    for _ in rt.forever() {
        let more = cut_if_up(rt, gate, pass, n, desk, voice, ear, &mut machine, own);
        flush(voice, desk);
        if is_idle(machine.state()) {
            return;
        }
        ring_if(pause, more);
        turn(
            rt,
            gate,
            pass,
            n,
            desk,
            voice,
            ear,
            &mut machine,
            own,
            cutter,
            clock,
            &mut timers,
        );
    }
    unreachable!()
}
