//! Routes as they are sent: which messages are cut, and in which order.
use super::events::At::First;
use super::events::Carried::{Both, Ipv4, Ipv4Path, Ipv6};
use super::events::Event::{Cut, Down, Line, Peer, Refresh, Spawn, Take, Up};
use super::events::{START, Step};
use super::files::{ONE, UNHEARD};
use super::stage::play;
use route_values::Family;
use std::test::Fail;

// The line of a route, the message that announces it, and the one that ends IPv4 (RFC 4724, section 2).
const ROUTE: &str = "announce route 10.0.0.0/24 next-hop 192.0.2.1";

const MORE: &str = "more 002F 02 0000 0014 40010100 40020602010000FDE9 400304C0000201 180A0000";

const END: &str = "last 0017 02 0000 0000";

const WITHDRAWN: [Step; 10] = [
    (Line(1, ROUTE), "done"),
    (Cut(First), MORE),
    (Cut(First), END),
    (Cut(First), "nothing"),
    (Line(1, "withdraw route 10.0.0.0/24"), "done"),
    (Cut(First), "last 001B 02 0004 180A0000 0000"),
    (Cut(First), "nothing"),
    (Take(1), "reply done reply done"),
    (Take(1), "nothing"),
    (Take(2), "ended"),
];

#[test]
fn a_route_is_sent_and_then_withdrawn(rt: HostRuntime) -> Result<(), Fail> {
    play(&rt, ONE, &[&START, &WITHDRAWN])
}

const OF_IPV6: [Step; 8] = [
    (Spawn(0), "go 1"),
    (Peer(First), "peer"),
    (Up(First, Ipv6), "up"),
    (
        Line(1, "announce route 2001:db8::/32 next-hop 2001:db8::1"),
        "done",
    ),
    (
        Cut(First),
        "more 0041 02 0000 002A 40010100 40020602010000FDE9 800E1A 0002 01 10 \
         20010DB8000000000000000000000001 00 20 20010DB8",
    ),
    (Cut(First), "last 001D 02 0000 0006 800F03000201"),
    (Line(1, "withdraw route 2001:db8::/32"), "done"),
    (
        Cut(First),
        "last 0022 02 0000 000B 800F08 0002 01 20 20010DB8",
    ),
];

#[test]
fn ipv6_goes_in_attributes_of_its_own(rt: HostRuntime) -> Result<(), Fail> {
    play(&rt, ONE, &[&OF_IPV6])
}

// A route with a path identifier.
const WITH_PATH: Step = (
    Line(
        1,
        "announce route 10.0.0.0/24 next-hop 192.0.2.1 path-information 7",
    ),
    "done",
);

const WITHHELD: [Step; 3] = [WITH_PATH, (Cut(First), END), (Cut(First), "nothing")];

const WITH_IDENTIFIERS: [Step; 7] = [
    (Spawn(0), "go 1"),
    (Peer(First), "peer"),
    (Up(First, Ipv4Path), "up"),
    WITH_PATH,
    (
        Cut(First),
        "more 0033 02 0000 0014 40010100 40020602010000FDE9 400304C0000201 00000007 180A0000",
    ),
    (Cut(First), END),
    (Cut(First), "nothing"),
];

#[test]
fn a_path_identifier_is_sent_by_add_path_alone(rt: HostRuntime) -> Result<(), Fail> {
    play(&rt, ONE, &[&START, &WITHHELD])?;
    play(&rt, ONE, &[&WITH_IDENTIFIERS])
}

const STRANGER: [Step; 2] = [
    (
        Line(
            1,
            "neighbor 203.0.113.9 announce route 10.0.0.0/24 next-hop 192.0.2.1",
        ),
        "error no-match",
    ),
    (Take(1), "reply error"),
];

const ANY: [Step; 2] = [(Line(1, ROUTE), "error no-match"), (Take(1), "reply error")];

#[test]
fn a_line_for_no_neighbour_is_refused(rt: HostRuntime) -> Result<(), Fail> {
    play(&rt, ONE, &[&START, &STRANGER])?;
    play(&rt, UNHEARD, &[&START, &ANY])
}

// Two routes whose attributes differ, and their messages.
const FIRST: &str = "announce route 10.0.0.0/24 next-hop 192.0.2.1 med 1";

const SECOND: &str = "announce route 10.0.1.0/24 next-hop 192.0.2.1 med 2";

const MORE_FIRST: &str = "more 0036 02 0000 001B 40010100 40020602010000FDE9 400304C0000201 \
     80040400000001 180A0000";

const MORE_SECOND: &str = "more 0036 02 0000 001B 40010100 40020602010000FDE9 400304C0000201 \
     80040400000002 180A0001";

const LAST_SECOND: &str = "last 0036 02 0000 001B 40010100 40020602010000FDE9 400304C0000201 \
     80040400000002 180A0001";

// A batch of both is begun.
const BEGUN: [Step; 3] = [
    (Line(1, FIRST), "done"),
    (Line(1, SECOND), "done"),
    (Cut(First), MORE_FIRST),
];

const CHANGED: [Step; 5] = [
    (
        Line(1, "announce route 10.0.1.0/24 next-hop 192.0.2.1 med 3"),
        "done",
    ),
    (Cut(First), MORE_SECOND),
    (Cut(First), END),
    (
        Cut(First),
        "last 0036 02 0000 001B 40010100 40020602010000FDE9 400304C0000201 \
         80040400000003 180A0001",
    ),
    (Cut(First), "nothing"),
];

const AGAIN: [Step; 5] = [
    (Line(1, "withdraw route 10.0.1.0/24"), "done"),
    (Line(1, SECOND), "done"),
    (Cut(First), MORE_SECOND),
    (Cut(First), END),
    (Cut(First), "nothing"),
];

const GONE: [Step; 6] = [
    (Line(1, "withdraw route 10.0.1.0/24"), "done"),
    (Cut(First), MORE_SECOND),
    (Cut(First), END),
    (Cut(First), "last 001B 02 0004 180A0001 0000"),
    (Cut(First), "nothing"),
    (Cut(First), "nothing"),
];

const REFRESHED: [Step; 6] = [
    (Refresh(First, Family::Ipv4), "ok"),
    (Cut(First), MORE_SECOND),
    (Cut(First), END),
    (Cut(First), MORE_FIRST),
    (Cut(First), LAST_SECOND),
    (Cut(First), "nothing"),
];

#[test]
fn what_comes_in_an_open_batch_goes_into_the_next(rt: HostRuntime) -> Result<(), Fail> {
    play(&rt, ONE, &[&START, &BEGUN, &CHANGED])?;
    play(&rt, ONE, &[&START, &BEGUN, &AGAIN])?;
    play(&rt, ONE, &[&START, &BEGUN, &GONE])?;
    play(&rt, ONE, &[&START, &BEGUN, &REFRESHED])
}

// A session of both families is lost in its first batch, and one of IPv4 comes up.
const LOST: [Step; 14] = [
    (Spawn(0), "go 1"),
    (Peer(First), "peer"),
    (Up(First, Both), "up"),
    (Line(1, FIRST), "done"),
    (Line(1, SECOND), "done"),
    (
        Line(1, "announce route 2001:db8::/32 next-hop 2001:db8::1"),
        "done",
    ),
    (Cut(First), MORE_FIRST),
    (Down(First), "ok"),
    (Peer(First), "peer"),
    (Up(First, Ipv4), "up"),
    (Cut(First), MORE_FIRST),
    (Cut(First), MORE_SECOND),
    (Cut(First), END),
    (Cut(First), "nothing"),
];

#[test]
fn a_session_begins_with_all_that_it_carries(rt: HostRuntime) -> Result<(), Fail> {
    play(&rt, ONE, &[&LOST])
}

// The route as the only message of its batch.
const LAST: &str = "last 002F 02 0000 0014 40010100 40020602010000FDE9 400304C0000201 180A0000";

const ASKED_FOR: [Step; 12] = [
    (Line(1, ROUTE), "done"),
    (Cut(First), MORE),
    (Cut(First), END),
    (Cut(First), "nothing"),
    (Refresh(First, Family::Ipv4), "ok"),
    (Cut(First), LAST),
    (Cut(First), "nothing"),
    (Line(1, "flush adj-rib out"), "done"),
    (Cut(First), LAST),
    (Cut(First), "nothing"),
    (Refresh(First, Family::Ipv6), "ok"),
    (Cut(First), "nothing"),
];

#[test]
fn a_refresh_and_a_flush_send_routes_again(rt: HostRuntime) -> Result<(), Fail> {
    play(&rt, ONE, &[&START, &ASKED_FOR])
}
