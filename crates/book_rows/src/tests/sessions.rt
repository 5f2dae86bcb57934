//! Large messages, lost sessions, and how sessions end.
use super::events::At::{First, Second};
use super::events::Carried::{Both, Ipv4, Ipv4Extended};
use super::events::Event::{
    Block, Control, Cut, Down, Drain, Line, Measure, Peer, Spawn, Take, Up,
};
use super::events::{START, Step};
use super::files::{ONE, USER};
use super::stage::{Stage, play};
use std::test::Fail;

// A session with messages of up to 65,535 bytes (RFC 8654).
const EXTENDED: [Step; 3] = [
    (Spawn(0), "go 1"),
    (Peer(First), "peer"),
    (Up(First, Ipv4Extended), "up"),
];

// 1,014 prefixes, of which 1,013 fill a message of 4,096 bytes.
const FEW: Step = (Block("", 0, 1_014), "done");

const END: Step = (Cut(First), "last 0017 02 0000 0000");

const SHORT: [Step; 4] = [
    FEW,
    (Measure(First), "more 4095 bytes, 1013 prefixes"),
    (
        Cut(First),
        "more 002F 02 0000 0014 40010100 40020602010000FDE9 400304C0000201 180A03F5",
    ),
    END,
];

const LONG: [Step; 3] = [FEW, (Measure(First), "more 4099 bytes, 1014 prefixes"), END];

// 16,384 prefixes, in 16 lines.
const MANY: [Step; 16] = [
    (Block("", 0, 1_024), "done"),
    (Block("", 1_024, 1_024), "done"),
    (Block("", 2_048, 1_024), "done"),
    (Block("", 3_072, 1_024), "done"),
    (Block("", 4_096, 1_024), "done"),
    (Block("", 5_120, 1_024), "done"),
    (Block("", 6_144, 1_024), "done"),
    (Block("", 7_168, 1_024), "done"),
    (Block("", 8_192, 1_024), "done"),
    (Block("", 9_216, 1_024), "done"),
    (Block("", 10_240, 1_024), "done"),
    (Block("", 11_264, 1_024), "done"),
    (Block("", 12_288, 1_024), "done"),
    (Block("", 13_312, 1_024), "done"),
    (Block("", 14_336, 1_024), "done"),
    (Block("", 15_360, 1_024), "done"),
];

const LONGEST: [Step; 3] = [
    (Measure(First), "more 65535 bytes, 16373 prefixes"),
    (Measure(First), "more 87 bytes, 11 prefixes"),
    END,
];

#[test]
fn a_message_holds_all_of_the_next_keys_that_fit(rt: HostRuntime) -> Result<(), Fail> {
    play(&rt, ONE, &[&START, &SHORT])?;
    play(&rt, ONE, &[&EXTENDED, &LONG])?;
    play(&rt, ONE, &[&EXTENDED, &MANY, &LONGEST])
}

// Two sessions come up, and a helper announces and withdraws.
const BEGUN: [Step; 11] = [
    (Spawn(0), "go 1"),
    (Peer(First), "peer"),
    (Up(First, Both), "up"),
    (Peer(Second), "peer"),
    (Up(Second, Ipv4), "up"),
    (
        Line(
            1,
            "announce route 203.0.113.0/24 next-hop self med 50 community [ 65001:1 65001:2 ]",
        ),
        "done",
    ),
    (
        Line(1, "announce route 2001:db8:1::/48 next-hop 2001:db8::9"),
        "done",
    ),
    (
        Line(
            1,
            "neighbor 192.0.2.3 announce route 203.0.113.128/25 next-hop 192.0.2.9 \
             local-preference 200",
        ),
        "done",
    ),
    (Line(1, "withdraw route 203.0.113.64/26"), "done"),
    (
        Line(
            1,
            "announce attributes next-hop 192.0.2.1 as-path [ 65001 64999 ] nlri \
             10.1.0.0/16 10.2.0.0/16",
        ),
        "done",
    ),
    (
        Line(1, "neighbor 192.0.2.2 withdraw route 198.51.100.0/24"),
        "done",
    ),
];

// The first batch of each.
const OF_FIRST: [Step; 6] = [
    (
        Cut(First),
        "more 0041 02 0000 0026 40010100 40020602010000FDE9 400304C0000209 80040400000032 \
         C00808FDE90001FDE90002 18CB0071",
    ),
    (
        Cut(First),
        "more 0043 02 0000 002C 40010100 40020602010000FDE9 \
         800E1C 0002 01 10 20010DB8000000000000000000000009 00 30 20010DB80001",
    ),
    (
        Cut(First),
        "more 0035 02 0000 0018 40010100 40020A02020000FDE90000FDE7 400304C0000201 100A01 100A02",
    ),
    (Cut(First), "more 0017 02 0000 0000"),
    (Cut(First), "last 001D 02 0000 0006 800F03000201"),
    (Cut(First), "nothing"),
];

const OF_SECOND: [Step; 5] = [
    (
        Cut(Second),
        "more 0042 02 0000 0027 40010100 400200 400304C0000209 80040400000032 40050400000064 \
         C00808FDE90001FDE90002 18CB0071",
    ),
    (
        Cut(Second),
        "more 0031 02 0000 0015 40010100 400200 400304C0000209 400504000000C8 19CB007180",
    ),
    (
        Cut(Second),
        "more 003C 02 0000 001F 40010100 40020A02020000FDE90000FDE7 400304C0000201 \
         40050400000064 100A01 100A02",
    ),
    (Cut(Second), "last 0017 02 0000 0000"),
    (Cut(Second), "nothing"),
];

const REPLIES: [Step; 1] = [(
    Take(1),
    "reply done reply done reply done reply done reply done reply done",
)];

#[test]
fn each_neighbour_is_sent_its_own_routes(rt: HostRuntime) -> Result<(), Fail> {
    play(&rt, USER, &[&BEGUN, &OF_FIRST, &OF_SECOND, &REPLIES])
}

// The first neighbour's session is lost, and the next one comes up.
const LOST: [Step; 3] = [
    (Down(First), "ok"),
    (Peer(First), "peer"),
    (Up(First, Both), "up"),
];

#[test]
fn a_batch_is_cut_whole_wherever_the_last_session_was_lost(rt: HostRuntime) -> Result<(), Fail> {
    let mut stage = Stage::open(&rt, USER)?;
    stage.play(&BEGUN)?;
    'counts: for count in 0..6 {
        stage.play(&OF_FIRST[..count])?;
        stage.play(&LOST)?;
        stage.play(&OF_FIRST)?;
        stage.play(&LOST)?;
    }
    Ok(())
}

const TORN_DOWN: [Step; 5] = [
    (Line(1, "neighbor 192.0.2.2 teardown 4"), "done"),
    (Cut(First), "reset 6 4"),
    (Cut(First), "reset 6 4"),
    (Down(First), "ok"),
    (Cut(First), "down"),
];

const SHUT_DOWN: [Step; 7] = [
    (Line(1, "shutdown"), "done"),
    (Line(1, "# x"), "ended"),
    (Take(1), "reply done reply done"),
    (Take(1), "ended"),
    (Spawn(9), "stopping"),
    (Control, "stop"),
    (Peer(First), "stopping"),
];

#[test]
fn a_teardown_ends_a_session_and_a_shutdown_the_daemon(rt: HostRuntime) -> Result<(), Fail> {
    play(&rt, ONE, &[&START, &TORN_DOWN, &SHUT_DOWN])
}

const ENDED: [Step; 3] = [
    (Line(1, "shutdown"), "done"),
    (Cut(First), "reset 6 2"),
    (Drain(First), "0 messages, reset 6 2"),
];

#[test]
fn a_shutdown_ends_sessions(rt: HostRuntime) -> Result<(), Fail> {
    play(&rt, ONE, &[&START, &ENDED])
}
