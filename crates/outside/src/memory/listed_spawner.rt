//! Children in memory, of which some aren't started.
ghost use Rattle.std.specs.Prelude.{◌≡◌, ◌+◌, [], Some, true, false, map, IfOk};
ghost use Rattle.outside.specs.Children.{left_of, ready_content};
ghost use Rattle.outside.specs.Waiting.{TakesNext, waiting_in};

use crate::memory::attempts::Attempts;
use crate::memory::child::{ChildLeash, ChildSink, ChildSource};
use crate::memory::kept::Kept;
use crate::memory::mark::Mark;
use crate::memory::ready::ReadyChild;
use crate::memory::roll::{Roll, Texts};
use crate::memory::script::Script;
use crate::sink::Sink;
use crate::source::Source;
use crate::spawner::{Pipes, Spawned, Spawner};
use std::alloc::{AllocError, Global};

/// Starts the children that were made ready, in order, and fails at the calls that it was told.
///
/// Behind the last one it starts children that give nothing, end at once, and have room for 4,096
/// bytes. A call that finds no room for what it records does its work all the same, and from then
/// on the spawner doesn't tell the list that lacks it.
#[derive(Drop)]
pub struct MemorySpawner<'a> {
    ready: Vec<ReadyChild<'a>>,
    ended: Roll<Pipes<ChildSource<'a>, ChildSink<'a>, ChildLeash<'a>>>,
    asked: Texts,
    attempts: Attempts<'a>,
}

impl<'a> MemorySpawner<'a> {
    ghost use Rattle.outside.specs.Plan.{Plan};
    ghost use Rattle.outside.specs.Spawners.{spawner_plan, children_waiting};

    /// These children. It has room for so many calls, each with up to 1,024 bytes, and as many
    /// ended children. The calls of `spawn` of the numbers `failing` fail, counted from 0.
    pub fn new(
        alloc: Global,
        mut ready: Vec<ReadyChild<'a>>,
        room: usize,
        failing: &'a [u64],
    ) -> Result<Self, AllocError>
        ensures children { IfOk result (λ s. ⟦<Self as Spawner>⟧.children s ≡ Some []) }
        ensures asked { IfOk result (λ s. ⟦<Self as Spawner>⟧.asked s ≡ Some []) }
        ensures failed { IfOk result (λ s. ⟦<Self as Spawner>⟧.failed s ≡ Some 0) }
        ensures plan { IfOk result (λ s. spawner_plan s
            ≡ record { failing = failing.now; calls = 0; faults = 0 }) }
        ensures waiting { IfOk result (λ s. children_waiting s
            ≡ map ready_content ready.entry.items) }
    {
        ready.reverse();
        Ok(MemorySpawner {
            ended: Roll::new(alloc, room)?,
            asked: Texts::new(alloc, room)?,
            attempts: Attempts::new(failing),
            ready,
        })
    }

    /// The same spawner, which counts the children that have ended at one mark, and its faults at
    /// another.
    pub fn marking(mut self, ends: &'a Mark, faults: &'a Mark) -> Self
        ensures children { ⟦<Self as Spawner>⟧.children result
            ≡ ⟦<Self as Spawner>⟧.children self.entry }
        ensures asked { ⟦<Self as Spawner>⟧.asked result ≡ ⟦<Self as Spawner>⟧.asked self.entry }
        ensures failed { ⟦<Self as Spawner>⟧.failed result
            ≡ ⟦<Self as Spawner>⟧.failed self.entry }
        ensures plan { spawner_plan result ≡ spawner_plan self.entry }
        ensures waiting { children_waiting result ≡ children_waiting self.entry }
    {
        self.attempts.mark_at(ends, faults);
        self
    }

    /// How often it has failed, its pipes included once they were given back. A count of 2^64 - 1
    /// stays there.
    pub fn faults(&self) -> u64
        ensures { result ≡ ⟦<Self as Spawner>⟧.faults self.now }
    {
        self.attempts.faults()
    }

    /// How many calls of `spawn` have failed, as far as 64 bits go.
    pub fn failed(&self) -> Option<u64>
        ensures { result ≡ ⟦<Self as Spawner>⟧.failed self.now }
    {
        self.attempts.failed()
    }

    /// What was asked for, where there was room for all.
    pub fn asked(&self) -> Option<&[Vec<u8>]> {
        self.asked.items()
    }

    /// The pipes of the children that have ended, in order, where there was room for all.
    pub fn ended(&self) -> Option<&[Pipes<ChildSource<'a>, ChildSink<'a>, ChildLeash<'a>>]> {
        self.ended.items()
    }
}

// The pipes of the next child that is ready, or of one that ends at once.
fn next<'a>(
    ready: &mut Vec<ReadyChild<'a>>,
) -> Pipes<ChildSource<'a>, ChildSink<'a>, ChildLeash<'a>>
    ensures given { ⟦<ChildSource<'static> as Source>⟧.given result.source ≡ Some [] }
    ensures ended { ⟦<ChildSource<'static> as Source>⟧.ended result.source ≡ false }
    ensures faults { ⟦<ChildSource<'static> as Source>⟧.faults result.source ≡ 0 }
    ensures taken { ⟦<ChildSink<'static> as Sink>⟧.taken result.sink ≡ Some [] }
    ensures sink_faults { ⟦<ChildSink<'static> as Sink>⟧.faults result.sink ≡ 0 }
    ensures order { TakesNext (waiting_in ready_content ready.old.items)
        (waiting_in ready_content ready.new.items) (left_of result.source) }
{
    let Some(child) = ready.pop() else {
        return Pipes {
            source: ChildSource::new(&[], Script::new(), None),
            sink: ChildSink::new(Kept::own(), Script::new(), None),
            leash: ChildLeash::new(None),
        };
    };
    child.start()
}

impl<'a> Spawner for MemorySpawner<'a> {
    ghost use Rattle.outside.specs.Ended.{child_of, Gathers};
    ghost use Rattle.outside.specs.Opening.{CountsSource};
    ghost use Rattle.outside.specs.Spawning.{SpawnCounts, SpawnFails, IsNewSource, IsNewSink};
    ghost use Rattle.outside.specs.Spawning.{StartsNext};
    ghost use Rattle.outside.specs.Plan.{strikes_now, after_call, after_return};
    ghost use Rattle.outside.specs.Spawners.{spawner_plan, children_waiting};
    ghost use Rattle.outside.specs.Children.{child_told};
    ghost use Rattle.outside.specs.Rolls.{all_told};

    type Source = ChildSource<'a>;

    type Sink = ChildSink<'a>;

    type Leash = ChildLeash<'a>;

    ghost children = { λ s. all_told child_told s.ended };

    ghost asked = { λ s. s.asked };

    ghost failed = { λ s. s.attempts.failed };

    ghost faults = { λ s. s.attempts.plan.faults };

    /// As `Spawner::spawn`; a call that was told to fails, and each other one starts a child.
    #[tactic(auto, using(crate::proofs::ToldLemmas::none_given))]
    fn spawn(&mut self, run: &[u8]) -> Spawned<ChildSource<'a>, ChildSink<'a>, ChildLeash<'a>>
        ensures cause { SpawnCounts (⟦<Self as Spawner>⟧.faults self.old)
            (⟦<Self as Spawner>⟧.faults self.new) result }
        ensures source { IsNewSource ⟦<ChildSource<'static> as Source>⟧.given
            ⟦<ChildSource<'static> as Source>⟧.ended
            ⟦<ChildSource<'static> as Source>⟧.faults result }
        ensures sink { IsNewSink ⟦<ChildSink<'static> as Sink>⟧.taken
            ⟦<ChildSink<'static> as Sink>⟧.faults result }
        ensures asked { Gathers (⟦<Self as Spawner>⟧.asked self.old)
            (⟦<Self as Spawner>⟧.asked self.new) (Some run.now) }
        ensures failed { SpawnFails (⟦<Self as Spawner>⟧.failed self.old)
            (⟦<Self as Spawner>⟧.failed self.new) result }
        ensures children { ⟦<Self as Spawner>⟧.children self.new
            ≡ ⟦<Self as Spawner>⟧.children self.old }

        // Which calls fail, and which child each other one starts.
        ensures fails { strikes_now (spawner_plan self.old) ≡ true → result ≡ Spawned.Failed }
        ensures stays { strikes_now (spawner_plan self.old) ≡ true
            → children_waiting self.new ≡ children_waiting self.old }
        ensures starts { strikes_now (spawner_plan self.old) ≡ false
            → StartsNext left_of (children_waiting self.old) (children_waiting self.new) result }
        ensures plan { spawner_plan self.new ≡ after_call (spawner_plan self.old) }
    {
        self.asked.add(run);
        if self.attempts.strikes() {
            return Spawned::Failed;
        }
        Spawned::Open(next(&mut self.ready))
    }

    fn give_back(&mut self, pipes: Pipes<ChildSource<'a>, ChildSink<'a>, ChildLeash<'a>>)
        ensures children { Gathers (⟦<Self as Spawner>⟧.children self.old)
            (⟦<Self as Spawner>⟧.children self.new)
            (child_of (⟦<ChildSource<'static> as Source>⟧.given pipes.entry.source)
            (⟦<ChildSource<'static> as Source>⟧.ended pipes.entry.source)
            (⟦<ChildSource<'static> as Source>⟧.faults pipes.entry.source)
            (⟦<ChildSink<'static> as Sink>⟧.taken pipes.entry.sink)
            (⟦<ChildSink<'static> as Sink>⟧.faults pipes.entry.sink)) }
        ensures cause { CountsSource (⟦<Self as Spawner>⟧.faults self.old)
            (⟦<Self as Spawner>⟧.faults self.new)
            (⟦<ChildSource<'static> as Source>⟧.faults pipes.entry.source
            + ⟦<ChildSink<'static> as Sink>⟧.faults pipes.entry.sink) }
        ensures asked { ⟦<Self as Spawner>⟧.asked self.new ≡ ⟦<Self as Spawner>⟧.asked self.old }
        ensures failed { ⟦<Self as Spawner>⟧.failed self.new
            ≡ ⟦<Self as Spawner>⟧.failed self.old }
        ensures plan { spawner_plan self.new
            ≡ after_return (⟦<ChildSource<'static> as Source>⟧.faults pipes.entry.source
            + ⟦<ChildSink<'static> as Sink>⟧.faults pipes.entry.sink) (spawner_plan self.old) }
        ensures waiting { children_waiting self.new ≡ children_waiting self.old }
    {
        let given = pipes.source.faults();
        let taken = pipes.sink.faults();
        self.ended.add(pipes);
        self.attempts.take_both_back(given, taken);
    }
}
