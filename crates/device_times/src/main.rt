//! Times what the daemon's workers rest on: a ring from one thread to another, a ring that nobody
//! waits for, a line to a child and back, and a moment of the clock.
//!
//! The times go to standard error, and nothing is claimed of them. It uses one loopback connection
//! and the program `cat`, and ends by itself.
#![tactic(auto)]

mod children;
mod moments;
mod rings;

use children::{time_lines, time_replies};
use moments::time_moments;
use outside_std::{Board, ProcessSpawner};
use rings::{Corner, time_lone_rings, time_rings};
use std::net::{SocketAddr, TcpListener, TcpStream};
use std::test::Fail;
use wires::{Bell, dial};

// Pauses in microseconds before each ring: with none both threads are awake, and behind the other
// the waiting thread has slept.
const PAUSES: [u64; 2] = [0, 500];

fn main(rt: HostRuntime) -> Result<(), Fail> {
    let alloc = rt.alloc();
    time_moments(&rt)?;
    let (one, other) = (Bell::new(&rt)?, Bell::new(&rt)?);
    time_lone_rings(&rt, &one)?;
    for pause in PAUSES {
        let (first, second) = (Corner::at(&one), Corner::at(&other));
        time_rings(&rt, alloc, "a ring", pause, &first, &second)?;
        let (near, far) = linked(&rt, &one)?;
        let (first, second) = (Corner::beside(&one, near), Corner::beside(&other, far));
        time_rings(&rt, alloc, "a ring beside a socket", pause, &first, &second)?;
    }
    let board = Board::new(alloc, &rt, 1, 0)?;
    let Some(post) = board.post(0) else {
        return Err(Fail::from("no post"));
    };
    let mut spawner = ProcessSpawner::new(&rt, alloc, post);
    time_lines(&rt, alloc, &mut spawner)?;
    time_replies(&rt, alloc, &board, &mut spawner)?;
    println!(rt; "done")?;
    Ok(())
}

// Two ends of a connection on which nothing comes.
fn linked(rt: &HostRuntime, bell: &Bell) -> Result<(TcpStream, TcpStream), Fail> {
    let listener: TcpListener = TcpListener::bind(rt, "127.0.0.1:0")?;
    let local: SocketAddr = "127.0.0.2:0".parse()?;
    let near = dial(rt, local, listener.local_addr()?, bell, 5_000)?;
    let (far, _) = listener.accept()?;
    Ok((near, far))
}
