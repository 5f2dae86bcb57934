//! Reloads of the configuration.
use super::events::At::{First, Second};
use super::events::Carried::{Ipv4, Ipv4Path};
use super::events::Event::{Control, Cut, Line, Peer, Reload, Spawn, Up};
use super::events::{START, Step};
use super::files::{HOLD, ONE, STATIC, TWO, UNFINISHED};
use super::stage::play;
use std::test::Fail;

// Two sessions; the first neighbour has a static route and one of a helper, with the same prefix.
const BEGUN: [Step; 13] = [
    (Spawn(0), "go 1"),
    (Peer(First), "peer"),
    (Up(First, Ipv4Path), "up"),
    (Peer(Second), "peer"),
    (Up(Second, Ipv4), "up"),
    (
        Line(
            1,
            "neighbor 192.0.2.2 announce route 10.0.1.0/24 next-hop 192.0.2.1 path-information 5",
        ),
        "done",
    ),
    (
        Cut(First),
        "more 0033 02 0000 0014 40010100 40020602010000FDE9 400304C0000209 00000000 180A0001",
    ),
    (
        Cut(First),
        "more 0033 02 0000 0014 40010100 40020602010000FDE9 400304C0000201 00000005 180A0001",
    ),
    (Cut(First), "last 0017 02 0000 0000"),
    (Cut(First), "nothing"),
    (Cut(Second), "last 0017 02 0000 0000"),
    (Cut(Second), "nothing"),
    (Control, "nothing"),
];

// The static route goes, and so does the second neighbour.
const LESS: [Step; 5] = [
    (Reload(ONE), "reloaded"),
    (Cut(First), "last 001F 02 0008 00000000 180A0001 0000"),
    (Cut(First), "nothing"),
    (Cut(Second), "reset 6 3"),
    (Peer(Second), "absent"),
];

// Nothing changes by a file that is refused, but that no reload is due.
const REFUSED: [Step; 5] = [
    (Line(1, "reload"), "done"),
    (Control, "reload-due"),
    (Reload(UNFINISHED), "refused 1:21 token"),
    (Control, "nothing"),
    (Cut(First), "nothing"),
];

#[test]
fn a_reload_takes_away_what_the_file_lacks(rt: HostRuntime) -> Result<(), Fail> {
    play(&rt, TWO, &[&BEGUN, &LESS, &REFUSED])
}

const OTHER_SETTINGS: [Step; 6] = [
    (Spawn(0), "go 1"),
    (Peer(First), "peer"),
    (Reload(HOLD), "reloaded"),
    (Up(First, Ipv4), "stale"),
    (Peer(First), "peer"),
    (Up(First, Ipv4), "up"),
];

const ENDED: [Step; 2] = [(Reload(HOLD), "reloaded"), (Cut(First), "reset 6 6")];

#[test]
fn a_session_of_other_settings_is_stale_or_ends(rt: HostRuntime) -> Result<(), Fail> {
    play(&rt, ONE, &[&OTHER_SETTINGS])?;
    play(&rt, ONE, &[&START, &ENDED])
}

// The helper's route stays where the file has a static one with its key, until the helper withdraws it.
const OWNED: [Step; 10] = [
    (
        Line(1, "announce route 10.0.0.0/24 next-hop 192.0.2.1"),
        "done",
    ),
    (
        Cut(First),
        "more 002F 02 0000 0014 40010100 40020602010000FDE9 400304C0000201 180A0000",
    ),
    (Cut(First), "last 0017 02 0000 0000"),
    (Cut(First), "nothing"),
    (Reload(STATIC), "reloaded"),
    (Cut(First), "nothing"),
    (Line(1, "withdraw route 10.0.0.0/24"), "done"),
    (Reload(STATIC), "reloaded"),
    (
        Cut(First),
        "last 002F 02 0000 0014 40010100 40020602010000FDE9 400304C0000207 180A0000",
    ),
    (Cut(First), "nothing"),
];

#[test]
fn a_static_route_stands_where_no_helper_has_its_key(rt: HostRuntime) -> Result<(), Fail> {
    play(&rt, ONE, &[&START, &OWNED])
}
