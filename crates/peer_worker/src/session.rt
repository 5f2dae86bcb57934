//! A session: its events, and the messages that are cut for it.
ghost use Rattle.std.specs.Prelude.{◌≡◌, ◌<◌};
ghost use Rattle.config_model.specs.Limits.{max_peers};
ghost use Rattle.peer_worker.specs.Goings.{CanCut, CutsOnce, Fine, Fits, Goes, IsEstablished};
ghost use Rattle.peer_worker.specs.Goings.{IsPlace, comes_up, idle};
ghost use Rattle.peer_worker.specs.Places.{after_cause, after_cut, confirmed, faulted, over};
ghost use Rattle.peer_worker.specs.Wires.{wire};

use crate::acting::act_all;
use crate::cause::{Cause, cause_of, is_message};
use crate::desk::Desk;
use crate::speaking::gather;
use crate::voice::Voice;
use book_core::{Book, UpCall};
use book_gate::{Gate, Pass};
use book_history::{Cut, Up};
use outside::{Ear, Link};
use route_values::{Caps, Family, Settings};
use session_codec::Agreed;
use session_codec::codes::{ADMINISTRATIVE_SHUTDOWN, CEASE, OTHER_CONFIGURATION_CHANGE};
use session_machine::{Event, Machine, State};
use std::sync::Wait;

// How many messages are cut at most before they are sent and the link is looked at.
const MOST: usize = 1_024;

// Where less room than this is left, what is gathered is sent first: the most that a message of a session has without
// extended messages (RFC 4271, section 4.1).
const LEAST_ROOM: usize = 4_096;

// Has one message cut, and gathers it.
fn cut_once<R: Wait, L: Link>(
    rt: &R,
    gate: &Gate<Book>,
    pass: &mut Pass<Book>,
    n: usize,
    desk: &mut Desk,
    voice: &mut Voice<L>,
    own: Settings,
) -> Cut
    requires gate { pass.old.gate ≡ gate.now }
    requires slot { n < max_peers }
    ensures { CutsOnce n own pass.old (wire L.Link voice.old desk.old) result
        pass.new (wire L.Link voice.new desk.new) }
{
    let given = desk.cut(rt, gate, pass, n);
    if let Cut::Message { .. } = given {
        gather(voice, desk);
    }
    given
}

// Has messages cut while there are some, until about as much is gathered as is sent at once.
fn cut_some<R: Wait, L: Link>(
    rt: &R,
    gate: &Gate<Book>,
    pass: &mut Pass<Book>,
    n: usize,
    desk: &mut Desk,
    voice: &mut Voice<L>,
    own: Settings,
) -> Cut
    requires gate { pass.old.gate ≡ gate.now }
    requires slot { n < max_peers }
    ensures { Goes n own pass.old (wire L.Link voice.old desk.old) CanCut
        (IsPlace (after_cut result)) pass.new (wire L.Link voice.new desk.new) }
{
    let mut given = cut_once(rt, gate, pass, n, desk, voice, own);
    for _ in 1..MOST {
        if desk.spare() < LEAST_ROOM {
            return given;
        }
        match given {
            Cut::Message { .. } => given = cut_once(rt, gate, pass, n, desk, voice, own),
            Cut::Down | Cut::Nothing | Cut::Reset { .. } => return given,
        }
    }
    given
}

// Enters that the session is up, and cuts at once. What the session is to be ended with, if it is.
fn raise<R: Wait, L: Link, E: Ear>(
    rt: &R,
    gate: &Gate<Book>,
    pass: &mut Pass<Book>,
    n: usize,
    desk: &mut Desk,
    voice: &mut Voice<L>,
    ear: &mut E,
    own: Settings,
    agreed: &Agreed,
) -> Option<Cause>
    requires gate { pass.old.gate ≡ gate.now }
    requires slot { n < max_peers }
    ensures { Goes n own pass.old (wire L.Link voice.old desk.old) (IsPlace confirmed)
        (IsPlace (after_cause result)) pass.new (wire L.Link voice.new desk.new) }
{
    let call = UpCall {
        n,
        settings: own,
        caps: agreed.to_peer,
    };
    match gate.enter(rt, pass, call) {
        Up::Ok => {
            voice.up = true;
            ear.began(rt, n, bits_of(&agreed.from_peer));
            cause_of(cut_some(rt, gate, pass, n, desk, voice, own))
        }
        Up::Stale => Some(Cause {
            code: CEASE,
            sub: OTHER_CONFIGURATION_CHANGE,
        }),
        Up::Stopping => Some(Cause {
            code: CEASE,
            sub: ADMINISTRATIVE_SHUTDOWN,
        }),
    }
}

// What an ear is told of capabilities: 1 for IPv4 routes, 2 for IPv6 routes, 4 and 8 for those with path identifiers,
// 16 for extended messages.
fn bits_of(caps: &Caps) -> u8 {
    let mut bits = 0;
    if caps.has(Family::Ipv4) {
        bits |= 1;
    }
    if caps.has(Family::Ipv6) {
        bits |= 2;
    }
    if caps.path(Family::Ipv4) {
        bits |= 4;
    }
    if caps.path(Family::Ipv6) {
        bits |= 8;
    }
    if caps.extended() {
        bits |= 16;
    }
    bits
}

// Ends a session that is up.
fn finish<R: Wait, L: Link, E: Ear>(
    rt: &R,
    gate: &Gate<Book>,
    pass: &mut Pass<Book>,
    n: usize,
    desk: &mut Desk,
    voice: &mut Voice<L>,
    ear: &mut E,
    machine: &mut Machine,
    own: Settings,
    cause: Cause,
)
    requires gate { pass.old.gate ≡ gate.now }
    requires slot { n < max_peers }
    requires up { IsEstablished machine.old.state }
    ensures goes { Goes n own pass.old (wire L.Link voice.old desk.old) (IsPlace (faulted cause))
        (IsPlace over) pass.new (wire L.Link voice.new desk.new) }
    ensures state { machine.new.state ≡ idle }
{
    voice.stopped = cause.code == CEASE && cause.sub == ADMINISTRATIVE_SHUTDOWN;
    let todo = machine.step(Event::Stop(cause.code, cause.sub));
    act_all(rt, gate, pass, n, desk, voice, ear, own, todo.as_slice());
}

// What both sides agreed on, where a session comes up between two states.
fn come_up(was: State, now: State) -> Option<Agreed>
    ensures { result ≡ comes_up was now }
{
    match was {
        State::OpenConfirm(_) => match now {
            State::Established(agreed) => Some(agreed),
            State::Idle | State::OpenSent | State::OpenConfirm(_) => None,
        },
        State::Idle | State::OpenSent | State::Established(_) => None,
    }
}

// Does what is to be done once the session came up.
fn begin<R: Wait, L: Link, E: Ear>(
    rt: &R,
    gate: &Gate<Book>,
    pass: &mut Pass<Book>,
    n: usize,
    desk: &mut Desk,
    voice: &mut Voice<L>,
    ear: &mut E,
    machine: &mut Machine,
    own: Settings,
    agreed: &Agreed,
)
    requires gate { pass.old.gate ≡ gate.now }
    requires slot { n < max_peers }
    requires up { IsEstablished machine.old.state }
    ensures { Goes n own pass.old (wire L.Link voice.old desk.old) (IsPlace confirmed)
        (Fits machine.new.state) pass.new (wire L.Link voice.new desk.new) }
{
    match raise(rt, gate, pass, n, desk, voice, ear, own, agreed) {
        Some(cause) => finish(rt, gate, pass, n, desk, voice, ear, machine, own, cause),
        None => {}
    }
}

/// Tells the session of an event, and does what its table asks for.
pub fn handle<R: Wait, L: Link, E: Ear>(
    rt: &R,
    gate: &Gate<Book>,
    pass: &mut Pass<Book>,
    n: usize,
    desk: &mut Desk,
    voice: &mut Voice<L>,
    ear: &mut E,
    machine: &mut Machine,
    own: Settings,
    event: Event<'_>,
)
    requires gate { pass.old.gate ≡ gate.now }
    requires slot { n < max_peers }
    ensures { Goes n own pass.old (wire L.Link voice.old desk.old)
        (Fine machine.old.own machine.old.state event.entry) (Fits machine.new.state)
        pass.new (wire L.Link voice.new desk.new) }
{
    let was = machine.state();
    let todo = machine.step(event);
    act_all(rt, gate, pass, n, desk, voice, ear, own, todo.as_slice());
    match come_up(was, machine.state()) {
        Some(agreed) => begin(rt, gate, pass, n, desk, voice, ear, machine, own, &agreed),
        None => {}
    }
}

// Has messages cut for a session that is up, and ends it where the book says so. Whether more are to be cut.
fn cut_now<R: Wait, L: Link, E: Ear>(
    rt: &R,
    gate: &Gate<Book>,
    pass: &mut Pass<Book>,
    n: usize,
    desk: &mut Desk,
    voice: &mut Voice<L>,
    ear: &mut E,
    machine: &mut Machine,
    own: Settings,
) -> bool
    requires gate { pass.old.gate ≡ gate.now }
    requires slot { n < max_peers }
    requires up { IsEstablished machine.old.state }
    ensures { Goes n own pass.old (wire L.Link voice.old desk.old) CanCut (Fits machine.new.state)
        pass.new (wire L.Link voice.new desk.new) }
{
    let given = cut_some(rt, gate, pass, n, desk, voice, own);
    match cause_of(given) {
        Some(cause) => {
            finish(rt, gate, pass, n, desk, voice, ear, machine, own, cause);
            false
        }
        None => is_message(given),
    }
}

/// Has messages cut where a session is up, and ends it where the book says so. Whether more are to be cut.
pub fn cut_if_up<R: Wait, L: Link, E: Ear>(
    rt: &R,
    gate: &Gate<Book>,
    pass: &mut Pass<Book>,
    n: usize,
    desk: &mut Desk,
    voice: &mut Voice<L>,
    ear: &mut E,
    machine: &mut Machine,
    own: Settings,
) -> bool
    requires gate { pass.old.gate ≡ gate.now }
    requires slot { n < max_peers }
    ensures { Goes n own pass.old (wire L.Link voice.old desk.old) (Fits machine.old.state)
        (Fits machine.new.state) pass.new (wire L.Link voice.new desk.new) }
{
    match machine.state() {
        State::Idle => false,
        State::OpenSent => false,
        State::OpenConfirm(_) => false,
        State::Established(_) => cut_now(rt, gate, pass, n, desk, voice, ear, machine, own),
    }
}
