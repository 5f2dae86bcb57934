//! Children in memory that are always started.
ghost use Rattle.std.specs.Prelude.{◌≡◌, [], Some, false, map, IfOk};
ghost use Rattle.outside.specs.Children.{ready_content};
ghost use Rattle.outside.specs.Supply.{rest_of};
ghost use Rattle.outside.specs.Spawners.{sure_children_waiting};
ghost use Rattle.outside.specs.Waiting.{TakesNext, waiting_in};

use crate::memory::child::ChildLeash;
use crate::memory::kept::Kept;
use crate::memory::kept_sink::KeptSink;
use crate::memory::ready::ReadyChild;
use crate::memory::roll::{Roll, Texts};
use crate::memory::sure_source::SureSource;
use crate::sink::Sink;
use crate::source::Source;
use crate::spawner::{Pipes, Spawned, Spawner};
use std::alloc::{AllocError, Global};

/// Starts the children that were made ready, in order, and never fails. Neither do its children,
/// and they hold nothing.
///
/// Behind the last one it starts children that give nothing, end at once, and have room for 4,096
/// bytes. A call that finds no room for what it records does its work all the same, and from then
/// on the spawner doesn't tell the list that lacks it.
#[derive(Drop)]
pub struct SureSpawner<'a> {
    ready: Vec<ReadyChild<'a>>,
    ended: Roll<Pipes<SureSource<'a>, KeptSink, ChildLeash<'a>>>,
    asked: Texts,
}

impl<'a> SureSpawner<'a> {
    /// These children. It has room for so many calls, each with up to 1,024 bytes, and as many
    /// ended children.
    pub fn new(
        alloc: Global,
        mut ready: Vec<ReadyChild<'a>>,
        room: usize,
    ) -> Result<Self, AllocError>
        ensures children { IfOk result (λ s. ⟦<Self as Spawner>⟧.children s ≡ Some []) }
        ensures asked { IfOk result (λ s. ⟦<Self as Spawner>⟧.asked s ≡ Some []) }
        ensures waiting { IfOk result (λ s. sure_children_waiting s
            ≡ map ready_content ready.entry.items) }
    {
        ready.reverse();
        Ok(SureSpawner {
            ended: Roll::new(alloc, room)?,
            asked: Texts::new(alloc, room)?,
            ready,
        })
    }

    /// What was asked for, where there was room for all.
    pub fn asked(&self) -> Option<&[Vec<u8>]> {
        self.asked.items()
    }

    /// The pipes of the children that have ended, in order, where there was room for all.
    pub fn ended(&self) -> Option<&[Pipes<SureSource<'a>, KeptSink, ChildLeash<'a>>]> {
        self.ended.items()
    }
}

// The pipes of the next child that is ready, or of one that ends at once.
fn next<'a>(ready: &mut Vec<ReadyChild<'a>>) -> Pipes<SureSource<'a>, KeptSink, ChildLeash<'a>>
    ensures given { ⟦<SureSource<'static> as Source>⟧.given result.source ≡ Some [] }
    ensures ended { ⟦<SureSource<'static> as Source>⟧.ended result.source ≡ false }
    ensures taken { ⟦<KeptSink as Sink>⟧.taken result.sink ≡ Some [] }
    ensures order { TakesNext (waiting_in ready_content ready.old.items)
        (waiting_in ready_content ready.new.items) (rest_of result.source) }
{
    let Some(child) = ready.pop() else {
        return Pipes {
            source: SureSource::new(&[]),
            sink: KeptSink::new(Kept::own(), usize::MAX),
            leash: ChildLeash::new(None),
        };
    };
    child.start_surely()
}

impl<'a> Spawner for SureSpawner<'a> {
    ghost use Rattle.outside.specs.Ended.{child_of, Gathers};
    ghost use Rattle.outside.specs.Opening.{CountsSource};
    ghost use Rattle.outside.specs.Spawning.{SpawnCounts, SpawnFails, IsNewSource, IsNewSink};
    ghost use Rattle.outside.specs.Spawning.{StartsNext};
    ghost use Rattle.outside.specs.Children.{sure_child_told};
    ghost use Rattle.outside.specs.Rolls.{all_told};

    type Source = SureSource<'a>;

    type Sink = KeptSink;

    type Leash = ChildLeash<'a>;

    ghost children = { λ s. all_told sure_child_told s.ended };

    ghost asked = { λ s. s.asked };

    ghost failed = { λ _. Some 0 };

    ghost faults = { λ _. 0 };

    /// As `Spawner::spawn`; it never fails.
    #[tactic(auto, using(crate::proofs::ToldLemmas::none_given))]
    fn spawn(&mut self, run: &[u8]) -> Spawned<SureSource<'a>, KeptSink, ChildLeash<'a>>
        ensures cause { SpawnCounts 0 0 result }
        ensures source { IsNewSource ⟦<SureSource<'static> as Source>⟧.given
            ⟦<SureSource<'static> as Source>⟧.ended
            ⟦<SureSource<'static> as Source>⟧.faults result }
        ensures sink { IsNewSink ⟦<KeptSink as Sink>⟧.taken ⟦<KeptSink as Sink>⟧.faults result }
        ensures asked { Gathers (⟦<Self as Spawner>⟧.asked self.old)
            (⟦<Self as Spawner>⟧.asked self.new) (Some run.now) }
        ensures failed { SpawnFails (Some 0) (Some 0) result }
        ensures children { ⟦<Self as Spawner>⟧.children self.new
            ≡ ⟦<Self as Spawner>⟧.children self.old }
        ensures starts { StartsNext rest_of (sure_children_waiting self.old)
            (sure_children_waiting self.new) result }
    {
        self.asked.add(run);
        Spawned::Open(next(&mut self.ready))
    }

    fn give_back(&mut self, pipes: Pipes<SureSource<'a>, KeptSink, ChildLeash<'a>>)
        ensures children { Gathers (⟦<Self as Spawner>⟧.children self.old)
            (⟦<Self as Spawner>⟧.children self.new)
            (child_of (⟦<SureSource<'static> as Source>⟧.given pipes.entry.source)
            (⟦<SureSource<'static> as Source>⟧.ended pipes.entry.source)
            0 (⟦<KeptSink as Sink>⟧.taken pipes.entry.sink) 0) }
        ensures cause { CountsSource 0 0 0 }
        ensures asked { ⟦<Self as Spawner>⟧.asked self.new ≡ ⟦<Self as Spawner>⟧.asked self.old }
        ensures failed { ⟦<Self as Spawner>⟧.failed self.new
            ≡ ⟦<Self as Spawner>⟧.failed self.old }
        ensures waiting { sure_children_waiting self.new ≡ sure_children_waiting self.old }
    {
        self.ended.add(pipes);
    }
}
