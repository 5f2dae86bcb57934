//! Programs as checks.
ghost use Rattle.std.specs.Prelude.{None};

use crate::spawner::{command_of, end};
use outside::{Outcome, Probe};
use std::alloc::Global;
use std::process::{Child, ExitStatus, Processes, Stdio, SystemProcess};
use std::time::{Clock, Duration};
use std::{io, thread};

/// How long a check may take, in milliseconds: a minute.
pub const MAX_CHECK: u64 = 60_000;

// After how many milliseconds it is looked again whether a check has ended.
const LOOK: u64 = 10;

/// Checks by starting a program and waiting for its end. It finds `Up` where the status is 0.
///
/// A program that can't be started finds `Down`, and so does one that a signal ends. One that takes
/// longer than the limit is killed, and finds `Down` too; programs that it started in turn aren't
/// killed. A program has nothing on its standard input, what it writes on its standard output is
/// dropped, and its standard error is the own one. It inherits nothing else that is open.
#[derive(Drop)]
pub struct ProcessProbe<'a, R> {
    rt: &'a R,
    alloc: Global,
    limit: u64,
}

impl<'a, R: Processes<Started = SystemProcess> + Clock> ProcessProbe<'a, R> {
    /// A probe whose checks may take so many milliseconds. That is counted in looks, so that a check
    /// is killed a little later on a busy machine.
    pub fn new(rt: &'a R, alloc: Global, limit: u64) -> Self {
        ProcessProbe { rt, alloc, limit }
    }

    // Starts the program.
    fn start(&self, run: &[u8]) -> io::Result<Child> {
        let mut command = command_of(self.alloc, run)?;
        command.stdin(Stdio::null()).stdout(Stdio::null());
        command.spawn(self.rt)
    }

    // The status of a program that ends within the limit.
    fn status_in_time(&self, child: &mut Child) -> Option<ExitStatus> {
        'looks: for _ in 0..self.limit / LOOK {
            if let Some(status) = status_of(child) {
                return Some(status);
            }
            thread::sleep(self.rt, Duration::from_millis(LOOK));
        }
        status_of(child)
    }
}

// The status of a program, where it has ended and the system says so.
fn status_of(child: &mut Child) -> Option<ExitStatus> {
    child.try_wait().unwrap_or(None)
}

// What a program with this status found.
fn outcome_of(status: ExitStatus) -> Outcome {
    if status.success() {
        Outcome::Up
    } else {
        Outcome::Down
    }
}

impl<'a, R: Processes<Started = SystemProcess> + Clock> Probe for ProcessProbe<'a, R> {
    ghost checks = { λ _. None };

    fn check(&mut self, run: &[u8]) -> Outcome {
        let Ok(mut child) = self.start(run) else {
            return Outcome::Down;
        };
        match self.status_in_time(&mut child) {
            Some(status) => outcome_of(status),
            None => {
                end(&mut child);
                Outcome::Down
            }
        }
    }
}
