//! What no clause says: what a talker says to neighbours that answer, and that it ends with the daemon.
ghost use Rattle.std.specs.Prelude.{◌≡◌, IfOk};

use crate::desk::Desk;
use crate::rounds::visit;
use crate::timers::Timers;
use crate::{Talker, TalkerParts};
use attr_codec::Message;
use book_core::{Book, ControlCall, PeerCall, StopCall};
use book_gate::{Gate, Opened, Pass};
use book_history::{Control, Peer};
use config_files::read_config_at;
use config_model::Slots;
use frame_cutter::{FrameCutter, Next};
use outside::{HeldFile, MemoryDialer, MemoryFiles, MemoryPause, NoEar, ReadyLink, StillClock};
use route_values::{Family, Settings};
use session_codec::{put_keepalive, put_open, put_refresh};
use std::alloc::Global;
use std::hash::RandomState;
use std::snapshot::Snapshot;
use std::sync::Wait;
use std::test::Fail;

const SLOTS: Slots = Slots {
    helpers: 1,
    peers: 1,
};

const ONE: &str = "one.conf";

const HELD: [HeldFile<'static>; 1] = [HeldFile {
    path: ONE,
    content: b"neighbor 192.0.2.2 { local-address 192.0.2.9; local-as 65001; peer-as 65002; \
        static { route 10.0.0.0/24 next-hop 192.0.2.9; } }",
}];

// A gate round the book of a configuration with one neighbour.
fn opened(rt: &HostRuntime) -> Result<Opened<Book>, Fail>
    ensures { IfOk result (λ opened. opened.pass.gate ≡ opened.gate) }
{
    let mut files = MemoryFiles::new(&HELD, &[], &[]);
    let Ok(config) = read_config_at(rt.alloc(), &mut files, ONE, SLOTS) else {
        return Err("no configuration".into());
    };
    let start = Snapshot::of(&config);
    let book = Book::open(rt.alloc(), config, RandomState::new(rt)?)?;
    match Gate::open(rt.alloc(), book, start) {
        Ok(opened) => Ok(opened),
        Err(_) => Err("no gate".into()),
    }
}

// The settings of the neighbour in the first slot.
fn own_settings<R: Wait>(rt: &R, gate: &Gate<Book>, pass: &mut Pass<Book>) -> Result<Settings, Fail>
    requires { pass.old.gate ≡ gate.now }
    ensures { pass.new.gate ≡ gate.now }
{
    match gate.enter(rt, pass, PeerCall { n: 0 }) {
        Peer::Is(own) => Ok(own),
        Peer::Absent | Peer::Stopping => Err("no neighbour".into()),
    }
}

// What a neighbour says, a letter a message: an OPEN, a KEEPALIVE, and a ROUTE-REFRESH for IPv4.
fn said_by(alloc: Global, own: &Settings, letters: &str) -> Result<Vec<u8>, Fail> {
    let theirs = Settings {
        local_as: own.peer_as,
        peer_as: own.local_as,
        router_id: 7,
        ..*own
    };
    let mut said = Vec::new(alloc);
    for letter in letters.bytes() {
        let mut message = Message::new(alloc, 4_096)?;
        match letter {
            b'o' => put_open(&mut message, &theirs),
            b'k' => put_keepalive(&mut message),
            _ => put_refresh(&mut message, Family::Ipv4),
        }
        said.extend_from_slice(message.bytes())?;
    }
    Ok(said)
}

// The types of messages, a digit each.
fn types_of(alloc: Global, bytes: &[u8]) -> Result<String, Fail> {
    let mut cutter = FrameCutter::new(alloc)?;
    cutter.feed(bytes);
    let mut types = String::new(alloc);
    for _ in 0..32 {
        match cutter.peek() {
            Next::Frame { kind, body: _ } => types.push(digit_of(kind))?,
            Next::NotYet | Next::Fault(_) => return Ok(types),
        }
        cutter.advance();
    }
    Ok(types)
}

// The digit of a type.
fn digit_of(kind: u8) -> char {
    match kind {
        1 => '1',
        2 => '2',
        3 => '3',
        4 => '4',
        5 => '5',
        _ => '?',
    }
}

// A dialer with one link, on which this comes and which then ends.
fn dialer_of<'a>(alloc: Global, said: &'a [u8]) -> Result<MemoryDialer<'a>, Fail> {
    let mut ready = Vec::new(alloc);
    ready.push(ReadyLink::new(alloc, said, 4_096, 64)?)?;
    Ok(MemoryDialer::new(alloc, ready, 4, &[])?)
}

// The types of what a dialer's first link took.
fn taken_types(alloc: Global, dialer: &MemoryDialer<'_>) -> Result<String, Fail> {
    let Some(links) = dialer.ended() else {
        return Err("no list of links".into());
    };
    let Some(link) = links.first() else {
        return Err("no link".into());
    };
    let Some(bytes) = link.bytes() else {
        return Err("no bytes".into());
    };
    types_of(alloc, bytes)
}

// The types of what a talker says to a neighbour that says this and leaves.
fn answers_to<R: Wait>(
    rt: &R,
    alloc: Global,
    gate: &Gate<Book>,
    pass: &mut Pass<Book>,
    letters: &str,
) -> Result<String, Fail>
    requires { pass.old.gate ≡ gate.now }
{
    let own = own_settings(rt, gate, pass)?;
    let said = said_by(alloc, &own, letters)?;
    let mut dialer = dialer_of(alloc, &said)?;
    talk_once(rt, alloc, gate, pass, &mut dialer, own)?;
    taken_types(alloc, &dialer)
}

// Connects once, and talks. Whether the session was ended because the daemon ends.
fn talk_once<R: Wait>(
    rt: &R,
    alloc: Global,
    gate: &Gate<Book>,
    pass: &mut Pass<Book>,
    dialer: &mut MemoryDialer<'_>,
    own: Settings,
) -> Result<bool, Fail>
    requires { pass.old.gate ≡ gate.now }
{
    let mut desk = Desk::new(alloc)?;
    let mut cutter = FrameCutter::new(alloc)?;
    let mut ear = NoEar;
    let pause = MemoryPause::new(&[]);
    let clock = StillClock;
    Ok(visit(
        rt,
        gate,
        pass,
        0,
        &mut desk,
        &mut cutter,
        dialer,
        &mut ear,
        clock,
        pause,
        own,
    ))
}

// What a neighbour says, and what it is answered: OPEN 1, UPDATE 2, NOTIFICATION 3, KEEPALIVE 4.
const TALKS: [(&str, &str, &str); 6] = [
    ("", "1", "a neighbour that says nothing is sent an OPEN"),
    ("o", "14", "an OPEN is answered by a KEEPALIVE"),
    (
        "ok",
        "14222",
        "a session is sent the routes and the end of them",
    ),
    (
        "okr",
        "142222",
        "a family that is asked for again is sent again",
    ),
    ("k", "13", "a KEEPALIVE before the OPEN is refused"),
    ("oko", "142223", "a second OPEN ends the session"),
];

#[test]
fn a_neighbour_is_sent_what_it_is_to_be_sent(rt: HostRuntime) -> Result<(), Fail> {
    for (letters, wanted, why) in TALKS {
        let Opened { gate, mut pass } = opened(&rt)?;
        let said = answers_to(&rt, rt.alloc(), &gate, &mut pass, letters)?;
        assert_eq!(rt; said.as_str(), wanted, "{why}");
    }
    Ok(())
}

#[test]
fn a_session_that_comes_up_as_the_daemon_ends_is_ended(rt: HostRuntime) -> Result<(), Fail> {
    let Opened { gate, mut pass } = opened(&rt)?;
    let own = own_settings(&rt, &gate, &mut pass)?;
    gate.enter(&rt, &mut pass, StopCall);
    let said = said_by(rt.alloc(), &own, "ok")?;
    let mut dialer = dialer_of(rt.alloc(), &said)?;
    let stopped = talk_once(&rt, rt.alloc(), &gate, &mut pass, &mut dialer, own)?;
    assert!(rt; stopped);
    let types = taken_types(rt.alloc(), &dialer)?;
    assert_eq!(rt; types.as_str(), "143");
    Ok(())
}

#[test]
fn a_talker_ends_with_the_daemon(rt: HostRuntime) -> Result<(), Fail> {
    let Opened { gate, mut pass } = opened(&rt)?;
    gate.enter(&rt, &mut pass, StopCall);
    let dialer = dialer_of(rt.alloc(), b"")?;
    let pause = MemoryPause::new(&[]);
    let Ok(mut talker) = Talker::new(rt.alloc(), &gate, 0, dialer, NoEar, StillClock, pause, pass)
    else {
        return Err("no memory".into());
    };
    talker.run(&rt);
    let TalkerParts {
        dialer,
        ear: _,
        pass: _,
    } = talker.apart();
    assert_eq!(rt; dialer.failed(), Some(0));
    Ok(())
}

#[test]
fn a_talker_that_is_called_off_ends_the_daemon(rt: HostRuntime) -> Result<(), Fail> {
    let Opened { gate, pass } = opened(&rt)?;
    let dialer = dialer_of(rt.alloc(), b"")?;
    let pause = MemoryPause::new(&[]);
    let Ok(mut talker) = Talker::new(rt.alloc(), &gate, 0, dialer, NoEar, StillClock, pause, pass)
    else {
        return Err("no memory".into());
    };
    talker.call_off(&rt);
    let TalkerParts {
        dialer: _,
        ear: _,
        mut pass,
    } = talker.apart();
    let told = gate.enter(&rt, &mut pass, ControlCall);
    assert!(rt; matches!(told, Control::Stop));
    Ok(())
}

#[test]
fn a_session_is_over_where_its_link_was_quiet_for_long(rt: HostRuntime) -> Result<(), Fail> {
    let mut timers = Timers::new(1_000);
    timers.rest();
    timers.rest();
    assert!(rt; !timers.is_over(3, 9_000));
    timers.rest();
    assert!(rt; timers.is_over(3, 4_000));
    assert!(rt; !timers.is_over(3, 3_999));
    assert!(rt; !timers.is_over(0, 9_000));
    timers.hear(4_000);
    assert!(rt; !timers.is_over(3, 9_000));
    assert!(rt; timers.is_due(3, 2_000));
    assert!(rt; !timers.is_due(3, 1_999));
    timers.keep(2_000);
    assert!(rt; !timers.is_due(3, 2_999));
    Ok(())
}
