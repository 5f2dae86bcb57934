//! Programs as children.
ghost use Rattle.std.specs.Prelude.{◌≡◌, ◌+◌, List, ℕ, None, false, IfOk};

use crate::pipes::{PipeSink, PipeSource};
use crate::post::{Post, Tie};
use outside::{Leash, Pipes, Sink, Source, Spawned, Spawner};
use std::alloc::Global;
use std::io::ErrorKind;
use std::process::{Child, Command, Processes, Stdio, SystemProcess};
use std::{io, str};
use wires::{PlainWriter, Watch, unblock};

/// A child that can be killed.
#[derive(Drop)]
pub struct ProcessLeash<'a> {
    child: Child,
    tie: Tie<'a>,
}

impl Leash for ProcessLeash<'_> {
    fn kill(&mut self) {
        let _ = self.child.kill();
        self.tie.hang_up();
    }
}

/// Starts programs with pipes as standard input and output, and with the own standard error. They
/// inherit nothing else that is open.
#[derive(Drop)]
pub struct ProcessSpawner<'a, R> {
    rt: &'a R,
    alloc: Global,
    post: &'a Post,
    faults: u64,
}

impl<'a, R: Processes<Started = SystemProcess>> ProcessSpawner<'a, R> {
    /// The spawner of the helper slot whose workers wait at this post.
    pub fn new(rt: &'a R, alloc: Global, post: &'a Post) -> Self
        ensures { ⟦<Self as Spawner>⟧.faults result ≡ 0 }
    {
        ProcessSpawner {
            rt,
            alloc,
            post,
            faults: 0,
        }
    }

    /// How often it has failed, its pipes included once they were given back. A count of 2^64 - 1
    /// stays there.
    pub fn faults(&self) -> u64
        ensures { result ≡ ⟦<Self as Spawner>⟧.faults self.now }
    {
        self.faults
    }

    // Starts the program.
    fn start(&self, run: &[u8]) -> io::Result<Child> {
        let mut command = command_of(self.alloc, run)?;
        command.stdin(Stdio::piped()).stdout(Stdio::piped());
        command.spawn(self.rt)
    }
}

/// The command of a program, whose words are UTF-8 and stand one behind the other with a zero byte
/// between them.
pub fn command_of(alloc: Global, run: &[u8]) -> io::Result<Command> {
    let Ok(text) = str::from_utf8(run) else {
        return Err(io::Error::from(ErrorKind::InvalidInput));
    };
    let mut words = text.split('\0');
    let mut command = Command::new(alloc, words.next().unwrap_or(""))?;
    for word in words {
        command.arg(word)?;
    }
    Ok(command)
}

// The child's pipes and its leash. It is ended where they can't be had.
fn pipes_of<'a>(
    alloc: Global,
    mut child: Child,
    tie: Tie<'a>,
) -> io::Result<Pipes<PipeSource<'a>, PipeSink<'a>, ProcessLeash<'a>>>
    ensures source { IfOk result (λ p. (p.source.ended ≡ false) × (p.source.faults ≡ 0)) }
    ensures sink { IfOk result (λ p. p.sink.faults ≡ 0) }
{
    match ends_of(alloc, &mut child, tie) {
        Ok((source, sink)) => Ok(Pipes {
            source,
            sink,
            leash: ProcessLeash { child, tie },
        }),
        Err(error) => {
            end(&mut child);
            Err(error)
        }
    }
}

// This program's ends of the child's pipes, whose calls don't wait.
fn ends_of<'a>(
    alloc: Global,
    child: &mut Child,
    tie: Tie<'a>,
) -> io::Result<(PipeSource<'a>, PipeSink<'a>)>
    ensures source { IfOk result (λ p. (p.0.ended ≡ false) × (p.0.faults ≡ 0)) }
    ensures sink { IfOk result (λ p. p.1.faults ≡ 0) }
{
    let watch = Watch::new(alloc, child.id())?;
    let (Some(input), Some(output)) = (child.stdin.take(), child.stdout.take()) else {
        return Err(io::Error::from(ErrorKind::BrokenPipe));
    };
    unblock(&input)?;
    unblock(&output)?;
    let source = PipeSource::new(output, tie, watch);
    let sink = PipeSink::new(PlainWriter::new(input), tie);
    Ok((source, sink))
}

/// Kills a child and waits for its end. One that may not be killed isn't waited for.
pub fn end(child: &mut Child) {
    if child.kill().is_ok() {
        let _ = child.wait();
    } else {
        let _ = child.try_wait();
    }
}

impl<'a, R: Processes<Started = SystemProcess>> Spawner for ProcessSpawner<'a, R> {
    ghost use Rattle.outside.specs.Opening.{CountsSource};

    type Source = PipeSource<'a>;

    type Sink = PipeSink<'a>;

    type Leash = ProcessLeash<'a>;

    ghost children = { λ _. None };

    ghost asked = { λ _. None };

    ghost failed = { λ _. None };

    ghost faults = { λ s. s.faults };

    fn spawn(&mut self, run: &[u8]) -> Spawned<PipeSource<'a>, PipeSink<'a>, ProcessLeash<'a>> {
        if let Ok(child) = self.start(run) {
            if let Ok(pipes) = pipes_of(self.alloc, child, self.post.next_child()) {
                return Spawned::Open(pipes);
            }
        }
        self.faults = self.faults.saturating_add(1);
        Spawned::Failed
    }

    /// As `Spawner::give_back`. The child is killed where it still runs.
    fn give_back(&mut self, pipes: Pipes<PipeSource<'a>, PipeSink<'a>, ProcessLeash<'a>>)
        ensures cause { CountsSource (⟦<Self as Spawner>⟧.faults self.old)
            (⟦<Self as Spawner>⟧.faults self.new)
            (⟦<PipeSource<'a> as Source>⟧.faults pipes.entry.source
            + ⟦<PipeSink<'a> as Sink>⟧.faults pipes.entry.sink) }
    {
        let Pipes {
            source,
            sink,
            mut leash,
        } = pipes;
        if source.faults() > 0 || sink.faults() > 0 {
            self.faults = self.faults.saturating_add(1);
        }
        drop(source);
        drop(sink);
        end(&mut leash.child);
    }
}
