//! The commands over the devices of the system.
use crate::devices::{board_of, world_of};
use daemon::exabgp_run;
use exa_top::{Status, exabgp_health, exabgp_text};
use outside::Seat;
use outside_std::{Board, BoardPause, MAX_CHECK, ProcessProbe, StdFiles, StdInput, StdOutput};
use std::sync::Wait;
use std::thread::Threads;

/// Runs the command that the words spell, over the devices of the system and the threads that `crew` can start.
pub fn run<R: Threads + Wait + Sync>(rt: &HostRuntime, crew: &R, words: &[String]) -> Status {
    let mut texts = Vec::new(rt.alloc());
    for word in words {
        if texts.push(word.as_str()).is_err() {
            return Status::NoMemory;
        }
    }
    match texts.first() {
        Some(&"run") => run_daemon(rt, crew, &texts),
        Some(&"healthcheck") => run_health(rt, &texts),
        _ => run_text(rt, &texts),
    }
}

// Runs a text command.
fn run_text(rt: &HostRuntime, words: &[&str]) -> Status {
    let mut files = StdFiles::new(rt);
    let mut input = StdInput::new(rt.stdin());
    let mut output = StdOutput::new(rt.stdout());
    exabgp_text(rt.alloc(), words, &mut files, &mut input, &mut output)
}

// Runs a health check, over programs and pauses of the system.
fn run_health(rt: &HostRuntime, words: &[&str]) -> Status {
    let Ok(board) = Board::new(rt.alloc(), rt, 0, 0) else {
        return Status::NoMemory;
    };
    let mut files = StdFiles::new(rt);
    let mut probe = ProcessProbe::new(rt, rt.alloc(), MAX_CHECK);
    let pause = BoardPause::new(&board, Seat::Keeper);
    let mut output = StdOutput::new(rt.stdout());
    exabgp_health(
        rt.alloc(),
        words,
        &mut files,
        &mut probe,
        pause,
        &mut output,
    )
}

// Runs the daemon, over as many slots as a configuration can have.
fn run_daemon<R: Threads + Wait + Sync>(rt: &HostRuntime, crew: &R, words: &[&str]) -> Status {
    let board = match board_of(rt) {
        Ok(board) => board,
        Err(status) => return status,
    };
    match world_of(rt, &board) {
        Ok(world) => exabgp_run(crew, rt.alloc(), words, world).status,
        Err(status) => status,
    }
}
