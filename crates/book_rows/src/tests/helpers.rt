//! Helpers: how they are started, and what they are told.
use super::events::At::First;
use super::events::Event::{Block, Count, Cut, Deaf, Gone, Line, Lines, Spawn, Take};
use super::events::{START, Step};
use super::files::{ONCE, ONE};
use super::stage::play;
use std::test::Fail;

const ROUTE: &str = "announce route 10.0.0.0/24 next-hop 192.0.2.1";

const FULL: [Step; 4] = [
    (Lines(1_024, "# x"), "done"),
    (Line(1, "# x"), "busy"),
    (Count(1), "64 done"),
    (Line(1, "# x"), "done"),
];

#[test]
fn no_more_than_1024_replies_wait(rt: HostRuntime) -> Result<(), Fail> {
    play(&rt, ONE, &[&START, &FULL])
}

const STARTED_AGAIN: [Step; 8] = [
    (Line(1, ROUTE), "done"),
    (Gone(1), "ok"),
    (Line(1, ROUTE), "ended"),
    (Spawn(5), "go 2"),
    (Line(2, "# x"), "done"),
    (Take(1), "ended"),
    (
        Cut(First),
        "more 002F 02 0000 0014 40010100 40020602010000FDE9 400304C0000201 180A0000",
    ),
    (Take(2), "reply done"),
];

#[test]
fn a_routes_helper_may_end_and_start_again(rt: HostRuntime) -> Result<(), Fail> {
    play(&rt, ONE, &[&START, &STARTED_AGAIN])
}

// Five starts within four milliseconds.
const FIVE: [Step; 10] = [
    (Spawn(0), "go 1"),
    (Gone(1), "ok"),
    (Spawn(1), "go 2"),
    (Gone(2), "ok"),
    (Spawn(2), "go 3"),
    (Gone(3), "ok"),
    (Spawn(3), "go 4"),
    (Gone(4), "ok"),
    (Spawn(4), "go 5"),
    (Gone(5), "ok"),
];

const TOO_EARLY: [Step; 2] = [(Spawn(59_999), "give-up"), (Spawn(200_000), "give-up")];

const IN_TIME: [Step; 2] = [(Spawn(60_000), "go 6"), (Spawn(60_000), "running")];

#[test]
fn a_sixth_start_waits_for_a_minute_to_pass(rt: HostRuntime) -> Result<(), Fail> {
    play(&rt, ONE, &[&FIVE, &TOO_EARLY])?;
    play(&rt, ONE, &[&FIVE, &IN_TIME])
}

const STARTED_ONCE: [Step; 4] = [
    (Spawn(0), "go 1"),
    (Gone(1), "ok"),
    (Spawn(100_000), "give-up"),
    (Spawn(200_000), "give-up"),
];

#[test]
fn a_process_without_respawn_is_started_once(rt: HostRuntime) -> Result<(), Fail> {
    play(&rt, ONCE, &[&STARTED_ONCE])
}

const IS_DEAF: [Step; 5] = [
    (Line(1, "# x"), "done"),
    (Deaf(1), "ok"),
    (Take(1), "ended"),
    (Line(1, "# x"), "ended"),
    (Gone(1), "ok"),
];

const IS_GONE: [Step; 4] = [
    (Line(1, "# x"), "done"),
    (Gone(1), "ok"),
    (Take(1), "reply done"),
    (Take(1), "ended"),
];

#[test]
fn replies_stay_for_an_ended_helper_and_not_for_a_deaf_one(rt: HostRuntime) -> Result<(), Fail> {
    play(&rt, ONE, &[&START, &IS_DEAF])?;
    play(&rt, ONE, &[&START, &IS_GONE])
}

const SHOWN: [Step; 3] = [
    (Line(1, ROUTE), "done"),
    (Line(1, "show adj-rib out"), "done"),
    (
        Take(1),
        "reply done \
         reply neighbor 192.0.2.2 route 10.0.0.0/24 next-hop 192.0.2.1 helper \
         reply done",
    ),
];

#[test]
fn a_helper_is_shown_its_neighbours_routes(rt: HostRuntime) -> Result<(), Fail> {
    play(&rt, ONE, &[&START, &SHOWN])
}

const TURNED_OFF: [Step; 7] = [
    (Line(1, "# x"), "done"),
    (Line(1, "disable-ack"), "done"),
    (Line(1, ROUTE), "done"),
    (Line(1, "frob"), "error token 1"),
    (Line(1, "enable-ack"), "done"),
    (Take(1), "reply done reply done reply done"),
    (Take(1), "nothing"),
];

#[test]
fn replies_may_be_turned_off(rt: HostRuntime) -> Result<(), Fail> {
    play(&rt, ONE, &[&START, &TURNED_OFF])
}

// 1,024 routes, of which 256 lie in a prefix.
const MANY: Step = (Block("", 0, 1_024), "done");

const FEW_SHOWN: Step = (Line(1, "show adj-rib out 10.3.0.0/16"), "done");

const TOO_MANY: [Step; 9] = [
    MANY,
    (Line(1, "show adj-rib out"), "error show 1024"),
    FEW_SHOWN,
    (Count(1), "64 replies"),
    (Count(1), "64 replies"),
    (Count(1), "64 replies"),
    (Count(1), "64 replies"),
    (
        Take(1),
        "reply neighbor 192.0.2.2 route 10.3.254.0/24 next-hop 192.0.2.1 helper \
         reply neighbor 192.0.2.2 route 10.3.255.0/24 next-hop 192.0.2.1 helper \
         reply done",
    ),
    (Take(1), "nothing"),
];

const NO_ROOM: [Step; 5] = [
    (Lines(800, "# x"), "done"),
    MANY,
    (Line(1, "show adj-rib out 10.3.0.0/16"), "busy"),
    (Count(1), "64 done"),
    FEW_SHOWN,
];

#[test]
fn routes_are_shown_where_there_is_room_for_all(rt: HostRuntime) -> Result<(), Fail> {
    play(&rt, ONE, &[&START, &TOO_MANY])?;
    play(&rt, ONE, &[&START, &NO_ROOM])
}
