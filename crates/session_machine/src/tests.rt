//! Sessions, from the bytes that come to those that are sent.
mod messages;

use crate::{Action, Actions, Event, Machine, State};
use answers::NoMemory;
use attr_codec::Message;
use frame_cutter::kinds::{KEEPALIVE, NOTIFICATION, OPEN, ROUTE_REFRESH, UPDATE};
use frame_cutter::{FrameCutter, Next};
use messages::{OWN_OPEN, PEERS_OPEN, SHUTDOWN, TRANSIT, WHOLE_KEEPALIVE};
use route_values::{Caps, Family};
use session_codec::codes::{ADMINISTRATIVE_SHUTDOWN, CEASE};
use session_codec::{Agreed, put_keepalive, put_notification, put_open, read_open, read_refresh};
use std::alloc::Global;
use std::test::Fail;

// What the front of a stream tells the machine, if it tells anything yet.
fn event_in(cutter: &FrameCutter) -> Option<Event<'_>> {
    match cutter.peek() {
        Next::NotYet => None,
        Next::Fault(refusal) => Some(Event::Bad(refusal)),
        Next::Frame { kind: OPEN, body } => Some(Event::Open(read_open(body, &TRANSIT))),
        Next::Frame { kind: UPDATE, body } => Some(Event::Update(body)),
        Next::Frame {
            kind: NOTIFICATION,
            ..
        } => Some(Event::Notified),
        Next::Frame {
            kind: KEEPALIVE,
            ..
        } => Some(Event::Keepalive),
        Next::Frame {
            kind: ROUTE_REFRESH,
            body,
        } => Some(Event::Refresh(read_refresh(body))),
        Next::Frame { .. } => None,
    }
}

// The message that the first action sends, if it sends one.
fn sent_by(alloc: Global, actions: &Actions) -> Result<Message, NoMemory> {
    let mut out = Message::new(alloc, 4096)?;
    match actions.first() {
        Some(Action::SendOpen) => put_open(&mut out, &TRANSIT),
        Some(Action::SendKeepalive) => put_keepalive(&mut out),
        Some(Action::Notify(refusal)) => put_notification(&mut out, refusal),
        _ => (),
    }
    Ok(out)
}

#[test]
fn a_session_stands_from_a_keepalive_to_a_shutdown(rt: HostRuntime) -> Result<(), Fail> {
    let mut cutter = FrameCutter::new(rt.alloc())?;
    let mut machine = Machine::new(TRANSIT);
    let mut actions = machine.step(Event::Connected);
    assert_eq!(rt; machine.hold(), 240);
    for (sent, input) in [(OWN_OPEN, PEERS_OPEN), (WHOLE_KEEPALIVE, WHOLE_KEEPALIVE)] {
        assert_eq!(rt; sent_by(rt.alloc(), &actions)?.bytes(), sent);
        cutter.feed(input);
        let Some(event) = event_in(&cutter) else {
            return Err("no message".into());
        };
        actions = machine.step(event);
        cutter.advance();
    }
    let agreed = Agreed {
        to_peer: Caps::none().with(Family::Ipv4, false),
        from_peer: Caps::none().with(Family::Ipv4, false),
        hold: 90,
        refresh: true,
    };
    assert!(rt; actions[..] == [Action::Up(agreed)]);
    assert!(rt; machine.state() == State::Established(agreed));
    assert_eq!(rt; machine.hold(), 90);
    let actions = machine.step(Event::Refresh(Some(Family::Ipv4)));
    assert!(rt; actions[..] == [Action::Refresh(Family::Ipv4)]);
    assert!(rt; machine.step(Event::Refresh(Some(Family::Ipv6))).is_empty());
    assert!(rt; machine.step(Event::Update(&[0; 4]))[..] == [Action::Heard]);
    let actions = machine.step(Event::Stop(CEASE, ADMINISTRATIVE_SHUTDOWN));
    assert_eq!(rt; sent_by(rt.alloc(), &actions)?.bytes(), SHUTDOWN);
    assert!(rt; actions[1..] == [Action::Down, Action::Close]);
    Ok(())
}
