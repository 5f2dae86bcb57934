//! What is heard on a link.
ghost use Rattle.std.specs.Prelude.{◌≡◌, ◌<◌, ◌≤◌, length};
ghost use Rattle.frame_cutter.specs.Cutting.{front_of};
ghost use Rattle.frame_cutter.specs.Front.{IsWhole};
ghost use Rattle.config_model.specs.Limits.{max_peers};
ghost use Rattle.peer_worker.specs.Goings.{Fits, Goes, is_idle};
ghost use Rattle.peer_worker.specs.Hearing.{IsMessage, IsOther};
ghost use Rattle.peer_worker.specs.Wires.{wire};

use crate::desk::Desk;
use crate::session::handle;
use crate::voice::Voice;
use book_core::Book;
use book_gate::{Gate, Pass};
use frame_cutter::kinds::{KEEPALIVE, NOTIFICATION, OPEN, ROUTE_REFRESH, UPDATE};
use frame_cutter::{FrameCutter, Next};
use outside::{Ear, Link};
use route_values::Settings;
use session_codec::{read_open, read_refresh};
use session_machine::{Event, Machine, State};
use std::sync::Wait;

// What a whole message says.
fn event_of<'a>(kind: u8, body: &'a [u8], own: &Settings) -> Event<'a>
    requires { IsMessage kind body.now }
    ensures { IsOther result }
{
    match kind {
        OPEN => Event::Open(read_open(body, own)),
        UPDATE => Event::Update(body),
        NOTIFICATION => Event::Notified,
        KEEPALIVE => Event::Keepalive,
        ROUTE_REFRESH => Event::Refresh(read_refresh(body)),
        _ => unreachable!(),
    }
}

// Tells the session of a whole message, and the ear of the body of an UPDATE.
fn hear_message<R: Wait, L: Link, E: Ear>(
    rt: &R,
    gate: &Gate<Book>,
    pass: &mut Pass<Book>,
    n: usize,
    desk: &mut Desk,
    voice: &mut Voice<L>,
    ear: &mut E,
    machine: &mut Machine,
    own: Settings,
    kind: u8,
    body: &[u8],
)
    requires gate { pass.old.gate ≡ gate.now }
    requires slot { n < max_peers }
    requires message { IsMessage kind body.now }
    ensures { Goes n own pass.old (wire L.Link voice.old desk.old) (Fits machine.old.state)
        (Fits machine.new.state) pass.new (wire L.Link voice.new desk.new) }
{
    let event = event_of(kind, body, &own);
    handle(rt, gate, pass, n, desk, voice, ear, machine, own, event);
    tell_ear(rt, n, ear, machine.state(), kind, body);
}

// Tells the ear of the body of an UPDATE, where the session stands behind it.
fn tell_ear<R: Wait, E: Ear>(rt: &R, n: usize, ear: &mut E, state: State, kind: u8, body: &[u8])
    requires { length body.now ≤ 65516 }
{
    if kind != UPDATE {
        return;
    }
    match state {
        State::Idle | State::OpenSent | State::OpenConfirm(_) => {}
        State::Established(_) => ear.heard(rt, n, body),
    }
}

// Tells the session what stands in front of what came. False where no whole message stands there.
fn hear_front<R: Wait, L: Link, E: Ear>(
    rt: &R,
    gate: &Gate<Book>,
    pass: &mut Pass<Book>,
    n: usize,
    desk: &mut Desk,
    voice: &mut Voice<L>,
    ear: &mut E,
    machine: &mut Machine,
    own: Settings,
    cutter: &mut FrameCutter,
) -> bool
    requires gate { pass.old.gate ≡ gate.now }
    requires slot { n < max_peers }
    ensures { Goes n own pass.old (wire L.Link voice.old desk.old) (Fits machine.old.state)
        (Fits machine.new.state) pass.new (wire L.Link voice.new desk.new) }
{
    let was = machine.state();
    match cutter.peek() {
        Next::NotYet => false,
        Next::Fault(refusal) => {
            let event = Event::Bad(refusal);
            handle(rt, gate, pass, n, desk, voice, ear, machine, own, event);
            true
        }
        Next::Frame { kind, body } => {
            hear_message(
                rt, gate, pass, n, desk, voice, ear, machine, own, kind, body,
            );
            pass_message(cutter, widens(was, machine.state()));
            true
        }
    }
}

// Passes the message in front, behind which messages may be long from now on.
fn pass_message(cutter: &mut FrameCutter, wide: bool)
    requires { IsWhole (front_of cutter.old) }
{
    if wide {
        cutter.widen();
    }
    cutter.advance();
}

// Whether both sides agreed on long messages between two states.
fn widens(was: State, now: State) -> bool {
    match was {
        State::OpenSent => match now {
            State::OpenConfirm(agreed) => agreed.from_peer.extended(),
            State::Idle | State::OpenSent | State::Established(_) => false,
        },
        State::Idle | State::OpenConfirm(_) | State::Established(_) => false,
    }
}

/// Whether no session stands and none begins.
pub fn is_idle(state: State) -> bool
    ensures { result ≡ is_idle state }
{
    match state {
        State::Idle => true,
        State::OpenSent | State::OpenConfirm(_) | State::Established(_) => false,
    }
}

// Tells the session all whole messages that came. Whether there was one.
fn hear_all<R: Wait, L: Link, E: Ear>(
    rt: &R,
    gate: &Gate<Book>,
    pass: &mut Pass<Book>,
    n: usize,
    desk: &mut Desk,
    voice: &mut Voice<L>,
    ear: &mut E,
    machine: &mut Machine,
    own: Settings,
    cutter: &mut FrameCutter,
) -> bool
    requires gate { pass.old.gate ≡ gate.now }
    requires slot { n < max_peers }
    ensures { Goes n own pass.old (wire L.Link voice.old desk.old) (Fits machine.old.state)
        (Fits machine.new.state) pass.new (wire L.Link voice.new desk.new) }
{
    let mut some = false;
    for _ in rt.forever() {
        if is_idle(machine.state()) {
            return some;
        }
        if !hear_front(rt, gate, pass, n, desk, voice, ear, machine, own, cutter) {
            return some;
        }
        some = true;
    }
    unreachable!()
}

/// Tells the session all whole messages that end in a piece of what came. Whether there was one.
pub fn hear<R: Wait, L: Link, E: Ear>(
    rt: &R,
    gate: &Gate<Book>,
    pass: &mut Pass<Book>,
    n: usize,
    desk: &mut Desk,
    voice: &mut Voice<L>,
    ear: &mut E,
    machine: &mut Machine,
    own: Settings,
    cutter: &mut FrameCutter,
    piece: &[u8],
) -> bool
    requires gate { pass.old.gate ≡ gate.now }
    requires slot { n < max_peers }
    ensures { Goes n own pass.old (wire L.Link voice.old desk.old) (Fits machine.old.state)
        (Fits machine.new.state) pass.new (wire L.Link voice.new desk.new) }
{
    let mut some = false;
    let mut taken = 0;
    for _ in rt.forever() {
        let count = cutter.feed(&piece[taken..]);
        let heard = hear_all(rt, gate, pass, n, desk, voice, ear, machine, own, cutter);
        some = either(some, heard);
        taken += count;
        if is_done(count, piece.len() - taken) {
            return some;
        }
    }
    unreachable!()
}

// Whether one of the two holds.
fn either(one: bool, other: bool) -> bool {
    one || other
}

// Whether no more of a piece is taken, of which so many bytes were taken last and so many are left.
fn is_done(count: usize, left: usize) -> bool {
    count == 0 || left == 0
}
