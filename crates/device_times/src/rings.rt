//! Two threads that ring for each other in turn.

use crate::moments::{nanos, print_times};
use std::alloc::Global;
use std::net::TcpStream;
use std::sync::atomic::{AtomicU64, Ordering};
use std::test::Fail;
use std::thread;
use std::thread::Threads;
use std::time::{Clock, Duration};
use wires::Bell;

// How many rounds there are where the rings follow each other.
const ROUNDS: u64 = 10_000;

// How many rounds there are where each begins with a pause.
const PAUSED: u64 = 2_000;

// How many rings nobody waits for.
const ALONE: u64 = 10_000_000;

// How many milliseconds a wait lasts at most.
const LIMIT: u32 = 5_000;

/// Where a thread waits.
#[derive(Drop)]
pub struct Corner<'a> {
    bell: &'a Bell,
    beside: Option<TcpStream>,
}

impl<'a> Corner<'a> {
    /// At a bell alone.
    pub fn at(bell: &'a Bell) -> Self {
        Corner { bell, beside: None }
    }

    /// At a bell and at a socket on which nothing comes.
    pub fn beside(bell: &'a Bell, socket: TcpStream) -> Self {
        Corner {
            bell,
            beside: Some(socket),
        }
    }

    fn wait(&self) {
        match &self.beside {
            Some(socket) => {
                self.bell.wait_to_read(socket, LIMIT);
            }
            None => self.bell.wait(LIMIT),
        }
    }
}

// What both threads see: whose turn it is, and when it was handed over.
#[derive(Drop)]
struct Turns {
    turn: AtomicU64,
    handed: AtomicU64,
}

impl Turns {
    fn hand<R: Clock>(&self, rt: &R, turn: u64, to: &Bell) {
        self.handed.store(nanos(rt), Ordering::SeqCst);
        self.turn.store(turn, Ordering::SeqCst);
        to.ring();
    }

    fn await_turn(&self, turn: u64, at: &Corner<'_>) {
        'looks: for _ in 0..u64::MAX {
            if self.turn.load(Ordering::SeqCst) == turn {
                break;
            }
            at.wait();
        }
    }
}

fn lead<R: Clock>(
    rt: &R,
    turns: &Turns,
    rounds: u64,
    pause: u64,
    at: &Corner<'_>,
    to: &Corner<'_>,
) {
    'rounds: for round in 0..rounds {
        if pause > 0 {
            thread::sleep(rt, Duration::from_micros(pause));
        }
        let turn = round.wrapping_mul(2);
        turns.hand(rt, turn.wrapping_add(1), to.bell);
        turns.await_turn(turn.wrapping_add(2), at);
    }
}

fn follow<R: Clock>(
    rt: &R,
    alloc: Global,
    turns: &Turns,
    rounds: u64,
    at: &Corner<'_>,
    to: &Corner<'_>,
) -> Vec<u64> {
    let mut took = Vec::new(alloc);
    'rounds: for round in 0..rounds {
        let turn = round.wrapping_mul(2);
        turns.await_turn(turn.wrapping_add(1), at);
        let handed = turns.handed.load(Ordering::SeqCst);
        let _ = took.push(nanos(rt).saturating_sub(handed));
        turns.hand(rt, turn.wrapping_add(2), to.bell);
    }
    took
}

/// Prints how long a thread takes from another's ring to running. The first thread pauses for so
/// many microseconds before each ring.
pub fn time_rings<R: Threads + Clock + Eprint + Alloc<A = Global> + Sync>(
    rt: &R,
    alloc: Global,
    name: &str,
    pause: u64,
    first: &Corner<'_>,
    second: &Corner<'_>,
) -> Result<(), Fail> {
    let turns = Turns {
        turn: AtomicU64::new(0),
        handed: AtomicU64::new(0),
    };
    let shared = &turns;
    let rounds = if pause > 0 { PAUSED } else { ROUNDS };
    let (_, took) = thread::join(
        rt,
        move || lead(rt, shared, rounds, pause, first, second),
        move || follow(rt, alloc, shared, rounds, second, first),
    );
    let label = format!(in alloc; "{name}, {pause} us after the last")?;
    print_times(rt, label.as_str(), took)
}

/// Prints what a ring costs that no thread waits for.
pub fn time_lone_rings<R: Clock + Eprint>(rt: &R, bell: &Bell) -> Result<(), Fail> {
    let start = nanos(rt);
    for _ in 0..ALONE {
        bell.ring();
    }
    let each = nanos(rt).saturating_sub(start) / (ALONE / 100);
    eprintln!(rt;
        "a ring that nobody waits for: {}.{:02} ns",
        each / 100,
        each % 100
    )?;
    Ok(())
}
