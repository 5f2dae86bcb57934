//! The pipes of a child in memory.
ghost use Rattle.std.specs.Prelude.{◌≡◌, ◌<◌, [], Some, false, length};
ghost use Rattle.std.specs.Option.{option_copied};
ghost use Rattle.outside.specs.Kept.{kept_bytes};

use crate::memory::fault_plan::FaultPlan;
use crate::memory::holds::{Holds, Passage};
use crate::memory::kept::Kept;
use crate::memory::mark::Mark;
use crate::memory::script::{Script, mark_one};
use crate::memory::sure_source::SureSource;
use crate::sink::{Sink, Write};
use crate::source::{Read, Source};
use crate::spawner::Leash;

/// What a child in memory writes: its content from the front, as its script says.
///
/// Where the child is killed while a call is held, it answers `End`, and so it doesn't tell what it
/// has left. A call that looks in vain fails.
#[derive(Drop)]
pub struct ChildSource<'a> {
    supply: SureSource<'a>,
    plan: FaultPlan<'a>,
    holds: Holds<'a>,
    marked: Option<&'a Mark>,
    ended: bool,
}

impl<'a> ChildSource<'a> {
    ghost use Rattle.outside.specs.Children.{left_of};

    // Has given nothing of this content.
    pub(crate) fn new(content: &'a [u8], script: Script<'a>, killed: Option<&'a Mark>) -> Self
        ensures given { ⟦<Self as Source>⟧.given result ≡ Some [] }
        ensures ended { ⟦<Self as Source>⟧.ended result ≡ false }
        ensures faults { ⟦<Self as Source>⟧.faults result ≡ 0 }
        ensures left { left_of result ≡ content.now }
    {
        ChildSource {
            supply: SureSource::in_steps(content, script.step.max(1)),
            plan: FaultPlan::new(script.failing),
            holds: Holds::new(script.holds, killed, script.moved),
            marked: script.faults,
            ended: false,
        }
    }

    /// How often it has failed. A count of 2^64 - 1 stays there.
    pub fn faults(&self) -> u64
        ensures { result ≡ ⟦<Self as Source>⟧.faults self.now }
    {
        self.plan.faults()
    }
}

impl Source for ChildSource<'_> {
    ghost use Rattle.std.specs.Prelude.{None};

    ghost given = { λ s. ⟦<SureSource<'static> as Source>⟧.given s.supply };

    ghost left = { λ _. None };

    ghost ended = { λ s. s.ended };

    ghost faults = { λ s. s.plan.faults };

    #[tactic(auto, using(crate::proofs::GivingLemmas::reads_front))]
    fn read(&mut self, into: &mut [u8]) -> Read {
        if self.plan.strikes() {
            mark_one(self.marked);
            return Read::Failed;
        }
        let room = match self.holds.pass() {
            Passage::Free(room) => room,
            Passage::Killed => {
                self.ended = true;
                return Read::End;
            }
            Passage::Missed => {
                mark_one(self.marked);
                self.plan.count();
                return Read::Failed;
            }
        };
        let room = room.min(into.len());
        match self.supply.read(&mut into[..room]) {
            Read::Got(count) => {
                self.holds.count(count);
                Read::Got(count)
            }
            Read::End => {
                self.ended = true;
                Read::End
            }
            Read::Failed => unreachable!(),
        }
    }
}

/// What a child in memory reads: it keeps what it takes, as its script says.
///
/// A call that finds too little room takes its bytes all the same, and from then on the sink tells
/// nothing of what it took. A call that looks in vain fails.
#[derive(Drop)]
pub struct ChildSink<'a> {
    kept: Kept,
    step: usize,
    plan: FaultPlan<'a>,
    holds: Holds<'a>,
    marked: Option<&'a Mark>,
}

impl<'a> ChildSink<'a> {
    // Takes into this room.
    pub(crate) fn new(kept: Kept, script: Script<'a>, killed: Option<&'a Mark>) -> Self
        ensures taken { ⟦<Self as Sink>⟧.taken result ≡ kept_bytes kept }
        ensures faults { ⟦<Self as Sink>⟧.faults result ≡ 0 }
    {
        ChildSink {
            kept,
            step: script.step,
            plan: FaultPlan::new(script.failing),
            holds: Holds::new(script.holds, killed, script.moved),
            marked: script.faults,
        }
    }

    /// The bytes taken so far, where there was room for all.
    pub fn bytes(&self) -> Option<&[u8]>
        ensures { option_copied result ≡ ⟦<Self as Sink>⟧.taken self.now }
    {
        self.kept.bytes()
    }

    /// How often it has failed. A count of 2^64 - 1 stays there.
    pub fn faults(&self) -> u64
        ensures { result ≡ ⟦<Self as Sink>⟧.faults self.now }
    {
        self.plan.faults()
    }
}

impl Sink for ChildSink<'_> {
    ghost taken = { λ s. kept_bytes s.kept };

    ghost faults = { λ s. s.plan.faults };

    fn write(&mut self, piece: &[u8]) -> Write {
        if self.plan.strikes() {
            mark_one(self.marked);
            return Write::Failed;
        }
        let room = match self.holds.pass() {
            Passage::Free(room) => room,
            Passage::Killed => usize::MAX,
            Passage::Missed => {
                mark_one(self.marked);
                self.plan.count();
                return Write::Failed;
            }
        };
        let count = piece.len().min(self.step.max(1)).min(room);
        self.kept.keep(&piece[..count]);
        self.holds.count(count);
        Write::Wrote(count)
    }
}

/// What ends a child in memory: its holds end.
#[derive(Clone, Copy, Debug)]
pub struct ChildLeash<'a> {
    killed: Option<&'a Mark>,
}

impl<'a> ChildLeash<'a> {
    // Counts the kills at a mark.
    pub(crate) fn new(killed: Option<&'a Mark>) -> Self {
        ChildLeash { killed }
    }
}

impl Leash for ChildLeash<'_> {
    fn kill(&mut self) {
        mark_one(self.killed);
    }
}
