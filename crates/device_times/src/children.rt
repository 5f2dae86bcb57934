//! Lines through a child that gives back what it reads.

use crate::moments::{nanos, print_times};
use outside::{Leash, Pause, Pipes, Read, Seat, Sink, Source, Spawned, Spawner, Write};
use outside_std::{Board, BoardPause};
use std::alloc::Global;
use std::sync::atomic::{AtomicU64, Ordering};
use std::test::Fail;
use std::thread;
use std::thread::Threads;
use std::time::Clock;

const ROUNDS: u64 = 10_000;

const LINE: &[u8] = b"done\n";

fn started<S: Spawner>(spawner: &mut S) -> Result<Pipes<S::Source, S::Sink, S::Leash>, Fail> {
    match spawner.spawn(b"cat") {
        Spawned::Open(pipes) => Ok(pipes),
        Spawned::Failed => Err(Fail::from("no child")),
    }
}

/// Prints how long a line takes to a child and back, where one thread writes and reads.
pub fn time_lines<R: Clock + Eprint, S: Spawner>(
    rt: &R,
    alloc: Global,
    spawner: &mut S,
) -> Result<(), Fail> {
    let mut pipes = started(spawner)?;
    let mut took = Vec::new(alloc);
    let mut buffer = [0; 64];
    'rounds: for _ in 0..ROUNDS {
        let start = nanos(rt);
        pipes.sink.write(LINE);
        pipes.source.read(&mut buffer);
        took.push(nanos(rt).saturating_sub(start))?;
    }
    pipes.leash.kill();
    spawner.give_back(pipes);
    print_times(rt, "a line to a child and back", took)
}

// Reads lines, counts them, and rings the replier after each.
fn count_lines<S: Source, P: Pause>(lines: &AtomicU64, mut source: S, replier: P) -> S {
    let mut buffer = [0; 64];
    'lines: for _ in 0..ROUNDS {
        let Read::Got(_) = source.read(&mut buffer) else {
            break;
        };
        lines.fetch_add(1, Ordering::SeqCst);
        replier.ring();
    }
    source
}

// Writes a line for each that was counted, and says how long each took to come back.
fn reply<R: Clock, K: Sink, P: Pause>(
    rt: &R,
    alloc: Global,
    lines: &AtomicU64,
    mut sink: K,
    pause: P,
) -> (K, Vec<u64>) {
    let mut took = Vec::new(alloc);
    'replies: for round in 0..ROUNDS {
        let start = nanos(rt);
        let Write::Wrote(_) = sink.write(LINE) else {
            break;
        };
        if !comes_within(lines, round, pause) {
            break;
        }
        let _ = took.push(nanos(rt).saturating_sub(start));
    }
    (sink, took)
}

// Whether more than so many lines come to be counted within about ten seconds.
fn comes_within<P: Pause>(lines: &AtomicU64, count: u64, pause: P) -> bool {
    'looks: for _ in 0..1_000 {
        if lines.load(Ordering::SeqCst) > count {
            return true;
        }
        pause.wait(10);
    }
    false
}

/// Prints how long a line takes to a child and back, where a thread reads it and rings another, which
/// writes the next: a helper's whole way, but for the table.
pub fn time_replies<R: Threads + Clock + Eprint + Sync, S: Spawner>(
    rt: &R,
    alloc: Global,
    board: &Board,
    spawner: &mut S,
) -> Result<(), Fail> {
    let Pipes {
        source,
        sink,
        mut leash,
    } = started(spawner)?;
    let counted = AtomicU64::new(0);
    let lines = &counted;
    let pause = BoardPause::new(board, Seat::Replier(0));
    let (source, (sink, took)) = thread::join(
        rt,
        move || count_lines(lines, source, pause),
        move || reply(rt, alloc, lines, sink, pause),
    );
    leash.kill();
    spawner.give_back(Pipes {
        source,
        sink,
        leash,
    });
    print_times(rt, "a line to a child and back through two threads", took)
}
