//! What starts programs.
ghost use Rattle.std.specs.Prelude.{◌≡◌, ◌+◌, Some, List, ℕ};
ghost use Rattle.std.specs.declared.option.Option.{Option};

use crate::sink::Sink;
use crate::source::Source;

/// What ends a child that was started.
pub trait Leash {
    /// Ends the child, and each wait of its source and its sink.
    ///
    /// Nothing is promised. A real one ends the program itself, and no program that it started in
    /// turn.
    fn kill(&mut self);
}

/// A child's pipes, and what ends it.
#[derive(Debug, Drop)]
pub struct Pipes<S, K, L> {
    /// What the child writes.
    pub source: S,
    /// What the child reads.
    pub sink: K,
    /// What ends the child.
    pub leash: L,
}

/// What starting a program gave.
#[derive(Debug, Drop)]
pub enum Spawned<S, K, L> {
    /// The child's pipes. They go back by `Spawner::give_back`.
    Open(Pipes<S, K, L>),
    /// No program was started. One fault was counted.
    Failed,
}

/// What starts programs.
pub trait Spawner {
    ghost use Rattle.outside.specs.Opening.{CountsSource};
    ghost use Rattle.outside.specs.Ended.{EndedChild, child_of, Gathers};
    ghost use Rattle.outside.specs.Spawning.{SpawnCounts, SpawnFails, IsNewSource, IsNewSink};

    /// What a child writes.
    type Source: Source + Drop + Send;

    /// What a child reads.
    type Sink: Sink + Drop + Send;

    /// What ends a child.
    type Leash: Leash + Drop + Send;

    /// The children that have been given back, in order, where it tells them.
    ghost children: { Self → Option (List EndedChild) };

    /// What each call of `spawn` was asked for, in order, where it tells it.
    ghost asked: { Self → Option (List (List ℕ)) };

    /// How many calls of `spawn` have failed, where it tells it.
    ghost failed: { Self → Option ℕ };

    /// How often it has failed, its pipes included once they were given back. A count of 2^64 - 1
    /// stays there.
    ghost faults: { Self → ℕ };

    /// Starts a program. Its words stand one behind the other with a zero byte between them, and
    /// the first names it.
    ///
    /// The source has given nothing and hasn't ended, the sink has taken nothing, and neither has
    /// faults. `Failed` counts one fault, and `Open` none.
    fn spawn(&mut self, run: &[u8]) -> Spawned<Self::Source, Self::Sink, Self::Leash>
        ensures cause { SpawnCounts (faults self.old) (faults self.new) result }
        ensures source { IsNewSource Self.Source.given Self.Source.ended Self.Source.faults result }
        ensures sink { IsNewSink Self.Sink.taken Self.Sink.faults result }
        ensures asked { Gathers (asked self.old) (asked self.new) (Some run.now) }
        ensures failed { SpawnFails (failed self.old) (failed self.new) result }
        ensures children { children self.new ≡ children self.old };

    /// Closes a child's pipes and waits for its end. One fault is counted where the pipes have
    /// faults, however many, and else none.
    fn give_back(&mut self, pipes: Pipes<Self::Source, Self::Sink, Self::Leash>)
        ensures children { Gathers (children self.old) (children self.new)
            (child_of (Self.Source.given pipes.source) (Self.Source.ended pipes.source)
            (Self.Source.faults pipes.source) (Self.Sink.taken pipes.sink)
            (Self.Sink.faults pipes.sink)) }
        ensures cause { CountsSource (faults self.old) (faults self.new)
            (Self.Source.faults pipes.source + Self.Sink.faults pipes.sink) }
        ensures asked { asked self.new ≡ asked self.old }
        ensures failed { failed self.new ≡ failed self.old };
}
