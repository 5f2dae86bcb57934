//! Checks, and the commands that are written at each change.
ghost use Rattle.std.specs.Prelude.{◌≡◌, [], IsErrOf, OnOk, OnErr};
ghost use Rattle.outside.specs.Told.{CountsOne, Grows};
ghost use Rattle.health_core.specs.Printing.{IsSound};
ghost use Rattle.health_core.specs.Watching.{AllSay, lines_behind, said_behind, said_of};
ghost use Rattle.health_core.specs.Watching.{Watched, WatchedPart, GrowsPart, RoutesFollow, ended};
ghost use Rattle.health_core.specs.Watching.{command_of, first_command, first_text, line_of};
ghost use Rattle.health_core.specs.Watching.{text_of};

use crate::commands::command;
use crate::counter::{Change, Counter};
use crate::health::Health;
use crate::printed::Printed;
use outside::{Pause, Probe, Sink, write_all};
use route_values::NoMemory;
use std::alloc::Global;
use thiserror::Error;

// That no replies are wanted.
const NO_REPLIES: &[u8] = b"disable-ack";

/// Why a watch ended before all its checks were made.
#[derive(Clone, Copy, Debug, PartialEq, Eq, Error)]
pub enum Unwatched {
    /// A write to the output failed. One fault was counted.
    #[error("write fault")]
    Write,
    /// Memory ran out.
    #[error("no memory")]
    Memory,
}

impl From<NoMemory> for Unwatched {
    ghost use Rattle.health_core.specs.declared.watching.Unwatched.TheVariants.{Memory};

    ghost from_gives = { λ memory why. why ≡ Memory };

    fn from(_: NoMemory) -> Unwatched {
        Unwatched::Memory
    }
}

/// Makes the checks of a file, with its pause before each but the first, and writes a command at each change.
///
/// It begins with the line `disable-ack` and, where the prefixes are announced while the service is down, with that
/// command. Each line is handed to the output as one piece, at once. A check or a pause may wait for any time.
///
/// - `done`: each check was made, and all lines were written that belong to their outcomes; each says its command.
/// - `part`: otherwise a front part of the lines that belong to the outcomes so far.
pub fn watch<B: Probe, P: Pause, K: Sink>(
    alloc: Global,
    health: &Health,
    probe: &mut B,
    pause: P,
    output: &mut K,
) -> Result<(), Unwatched>
    ensures done { OnOk result (Watched health.now (B.checks probe.old) (B.checks probe.new)
        (K.taken output.old) (K.taken output.new)) }
    ensures part { OnErr result (WatchedPart health.now (B.checks probe.old) (B.checks probe.new)
        (K.taken output.old) (K.taken output.new)) }

    // A failed write counts one fault, and nothing else does.
    ensures write { IsErrOf result Unwatched.Write
        → CountsOne (K.faults output.old) (K.faults output.new) }
    ensures write_same { ¬ IsErrOf result Unwatched.Write
        → K.faults output.new ≡ K.faults output.old }
{
    begin(alloc, health, output)?;
    let mut counter = Counter::new(health.rise, health.fall);
    'turns: for turn in 0..health.turns {
        if turn > 0 {
            pause.rest(health.every);
        }
        let outcome = probe.check(&health.run);
        let change = counter.step(outcome);
        put_command(alloc, health, command_of(change), output)?;
    }
    Ok(())
}

/// Behind each check the routes that the lines so far leave are just the prefixes, with what is to stand of them. The
/// function does nothing: its contract is the law.
pub fn routes_follow()
    ensures { RoutesFollow }
{}

// Writes what a watch begins with.
fn begin<K: Sink>(alloc: Global, health: &Health, output: &mut K) -> Result<(), Unwatched>
    ensures ok { OnOk result
        (Grows (K.taken output.old) (K.taken output.new) (first_text health.now)) }
    ensures says { OnOk result (IsSound health.now
        → AllSay (lines_behind health.now [] 0) (said_behind health.now [] 0)) }
    ensures part { OnErr result
        (GrowsPart (K.taken output.old) (K.taken output.new) (first_text health.now)) }
    ensures write { IsErrOf result Unwatched.Write
        → CountsOne (K.faults output.old) (K.faults output.new) }
    ensures write_same { ¬ IsErrOf result Unwatched.Write
        → K.faults output.new ≡ K.faults output.old }
{
    let mut line = Printed::new(alloc);
    line.put(NO_REPLIES)?;
    put_line(line, output)?;
    put_command(alloc, health, first_command(health), output)
}

// The command that prefixes begin with: that of a service that is down, where they are announced then.
fn first_command(health: &Health) -> Option<bool>
    ensures { result ≡ first_command health.now }
{
    match health.down {
        Some(_) => Some(false),
        None => None,
    }
}

// The command of a change: whether the service is up now.
fn command_of(change: Option<Change>) -> Option<bool>
    ensures { result ≡ command_of change }
{
    match change {
        Some(Change::Rise) => Some(true),
        Some(Change::Fall) => Some(false),
        None => None,
    }
}

// Writes a command, where there is one.
fn put_command<K: Sink>(
    alloc: Global,
    health: &Health,
    which: Option<bool>,
    output: &mut K,
) -> Result<(), Unwatched>
    ensures ok { OnOk result (Grows (K.taken output.old) (K.taken output.new)
        (text_of (line_of health.now which))) }
    ensures says { OnOk result (IsSound health.now
        → AllSay (line_of health.now which) (said_of health.now which)) }
    ensures part { OnErr result (GrowsPart (K.taken output.old) (K.taken output.new)
        (text_of (line_of health.now which))) }
    ensures write { IsErrOf result Unwatched.Write
        → CountsOne (K.faults output.old) (K.faults output.new) }
    ensures write_same { ¬ IsErrOf result Unwatched.Write
        → K.faults output.new ≡ K.faults output.old }
{
    let Some(up) = which else {
        return Ok(());
    };
    let line = command(alloc, health, up)?;
    put_line(line, output)
}

// Writes a line as one piece.
fn put_line<K: Sink>(mut line: Printed, output: &mut K) -> Result<(), Unwatched>
    ensures ok { OnOk result
        (Grows (K.taken output.old) (K.taken output.new) (ended line)) }
    ensures part { OnErr result
        (GrowsPart (K.taken output.old) (K.taken output.new) (ended line)) }
    ensures write { IsErrOf result Unwatched.Write
        → CountsOne (K.faults output.old) (K.faults output.new) }
    ensures write_same { ¬ IsErrOf result Unwatched.Write
        → K.faults output.new ≡ K.faults output.old }
{
    line.put(b"\n")?;
    match write_all(output, line.as_bytes()) {
        Ok(()) => Ok(()),
        Err(_) => Err(Unwatched::Write),
    }
}
