//! The most route nodes: 64 neighbours with 65,536 routes each.
use super::events::At::First;
use super::events::Carried::Ipv4;
use super::events::Event::{Block, Drain, Line, Peer, Spawn, Take, Up};
use super::events::Step;
use super::stage::Stage;
use std::alloc::Global;
use std::test::Fail;

// A file with 64 neighbours, which hear one process.
fn crowd(alloc: Global) -> Result<String, Fail> {
    let mut file = String::from_str(alloc, "process h { run /bin/cat; }\n")?;
    'neighbors: for last in 1..65 {
        let neighbor = format!(in alloc;
            "neighbor 127.0.0.{last} {{ local-address 192.0.2.9; local-as 65001; peer-as 65002; \
             api {{ processes [ h ]; }} }}\n"
        )?;
        file.push_str(neighbor.as_str())?;
    }
    Ok(file)
}

// How many prefixes a line has at most.
const PREFIXES: u32 = 1_024;

const TAKEN: Step = (Take(1), "reply done");

const REFUSED: Step = (Take(1), "reply error");

const BEGUN: [Step; 1] = [(Spawn(0), "go 1")];

const REPLIED: [Step; 1] = [TAKEN];

// A book with 64 neighbours, to which 64 lines announced their prefixes.
fn filled(rt: &HostRuntime) -> Result<Stage, Fail> {
    let file = crowd(rt.alloc())?;
    let mut stage = Stage::open(rt, file.as_str())?;
    stage.play(&BEGUN)?;
    'lines: for number in 0..64 {
        stage.step(&Block("", number * PREFIXES, PREFIXES), "done")?;
        stage.play(&REPLIED)?;
    }
    Ok(stage)
}

// A new route for one neighbour, and for all.
const ONE: &str = "neighbor 127.0.0.1 announce route 172.16.0.0/24 next-hop 192.0.2.1";

const ALL: &str = "announce route 172.16.0.0/24 next-hop 192.0.2.1";

// No node more is taken until one goes. No session stands, so that a withdrawn key is no node.
const OVER: [Step; 8] = [
    (Line(1, ONE), "error full 4194305"),
    REFUSED,
    (Line(1, ALL), "error full 4194368"),
    REFUSED,
    (
        Line(1, "neighbor 127.0.0.1 withdraw route 10.0.0.0/24"),
        "done",
    ),
    TAKEN,
    (Line(1, ONE), "done"),
    TAKEN,
];

// Each neighbour has one route less, and the first one is sent its 65,535 routes, in 65 messages, and the marker.
const SENT: [Step; 5] = [
    (Line(1, "withdraw route 10.255.255.0/24"), "done"),
    TAKEN,
    (Peer(First), "peer"),
    (Up(First, Ipv4), "up"),
    (Drain(First), "66 messages, nothing"),
];

// A key that was sent stays a node until its withdrawal is sent.
const KEPT: [Step; 9] = [
    (
        Line(1, "neighbor 127.0.0.1 withdraw route 10.0.1.0/24"),
        "done",
    ),
    TAKEN,
    (Block("neighbor 127.0.0.1 ", 65_536, 64), "done"),
    TAKEN,
    (
        Line(
            1,
            "neighbor 127.0.0.1 announce route 10.0.1.0/25 next-hop 192.0.2.1",
        ),
        "error full 4194305",
    ),
    REFUSED,
    (Drain(First), "2 messages, nothing"),
    (
        Line(
            1,
            "neighbor 127.0.0.1 announce route 10.0.1.0/25 next-hop 192.0.2.1",
        ),
        "done",
    ),
    TAKEN,
];

#[test]
fn no_more_than_4194304_nodes_are_taken(rt: HostRuntime) -> Result<(), Fail> {
    let mut stage = filled(&rt)?;
    stage.play(&OVER)?;
    stage.play(&SENT)?;
    stage.play(&KEPT)
}
