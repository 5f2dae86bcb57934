//! A source in memory that fails at some of its calls.
ghost use Rattle.std.specs.Prelude.{◌≡◌, ◌<◌, ◌-◌, ◌^◌, [], Some, true, false, length};

use crate::memory::fault_plan::FaultPlan;
use crate::memory::sure_source::SureSource;
use crate::source::{Read, Source};

/// Gives its content from the front, and fails at the calls that it was told.
#[derive(Drop)]
pub struct MemorySource<'a> {
    supply: SureSource<'a>,
    plan: FaultPlan<'a>,
}

impl<'a> MemorySource<'a> {
    ghost use Rattle.outside.specs.Plan.{Plan};
    ghost use Rattle.outside.specs.Supply.{step_of};
    ghost use Rattle.outside.specs.Listed.{supply_of, source_plan};

    /// A source of this content, which gives as many bytes a call as the buffer holds and fails at
    /// its calls of these numbers, counted from 0.
    pub fn new(content: &'a [u8], failing: &'a [u64]) -> Self
        ensures given { ⟦<Self as Source>⟧.given result ≡ Some [] }
        ensures left { ⟦<Self as Source>⟧.left result ≡ Some content.now }
        ensures ended { ⟦<Self as Source>⟧.ended result ≡ false }
        ensures step { step_of (supply_of result) ≡ 2 ^ 64 - 1 }
        ensures plan { source_plan result
            ≡ record { failing = failing.now; calls = 0; faults = 0 } }
    {
        Self::in_steps(content, usize::MAX, failing)
    }

    /// A source of this content, which gives at most `step` bytes a call and fails at its calls of
    /// these numbers, counted from 0.
    pub fn in_steps(content: &'a [u8], step: usize, failing: &'a [u64]) -> Self
        requires { 0 < step }
        ensures given { ⟦<Self as Source>⟧.given result ≡ Some [] }
        ensures left { ⟦<Self as Source>⟧.left result ≡ Some content.now }
        ensures ended { ⟦<Self as Source>⟧.ended result ≡ false }
        ensures step { step_of (supply_of result) ≡ step }
        ensures plan { source_plan result
            ≡ record { failing = failing.now; calls = 0; faults = 0 } }
    {
        MemorySource {
            supply: SureSource::in_steps(content, step),
            plan: FaultPlan::new(failing),
        }
    }

    /// How often it has failed. A count of 2^64 - 1 stays there.
    pub fn faults(&self) -> u64
        ensures { result ≡ ⟦<Self as Source>⟧.faults self.now }
    {
        self.plan.faults()
    }
}

impl Source for MemorySource<'_> {
    ghost use Rattle.outside.specs.Calls.{Reads, Ends, Leaves, ReadCounts};
    ghost use Rattle.outside.specs.Plan.{strikes_now, after_call};
    ghost use Rattle.outside.specs.Supply.{step_of, rest_of, answer_of};
    ghost use Rattle.outside.specs.Listed.{supply_of, source_plan};

    ghost given = { λ s. ⟦<SureSource<'static> as Source>⟧.given s.supply };

    ghost left = { λ s. ⟦<SureSource<'static> as Source>⟧.left s.supply };

    ghost ended = { λ s. ⟦<SureSource<'static> as Source>⟧.ended s.supply };

    ghost faults = { λ s. s.plan.faults };

    /// As `Source::read`; a call that was told to fails, and each other one gives all that is left,
    /// as far as the buffer and the step reach.
    fn read(&mut self, into: &mut [u8]) -> Read
        requires { 0 < length into.old }
        ensures bytes { Reads (⟦<Self as Source>⟧.given self.old)
            (⟦<Self as Source>⟧.given self.new) into.new result }
        ensures left { Leaves (⟦<Self as Source>⟧.left self.old)
            (⟦<Self as Source>⟧.left self.new) into.new result }
        ensures end { Ends (⟦<Self as Source>⟧.ended self.old)
            (⟦<Self as Source>⟧.ended self.new) result }
        ensures cause { ReadCounts (⟦<Self as Source>⟧.faults self.old)
            (⟦<Self as Source>⟧.faults self.new) result }
        ensures failed { strikes_now (source_plan self.old) ≡ true → result ≡ Read.Failed }
        ensures answer { strikes_now (source_plan self.old) ≡ false
            → result ≡ answer_of (length into.old) (step_of (supply_of self.old))
            (rest_of (supply_of self.old)) }
        ensures plan { source_plan self.new ≡ after_call (source_plan self.old) }
        ensures step { step_of (supply_of self.new) ≡ step_of (supply_of self.old) }
    {
        if self.plan.strikes() {
            return Read::Failed;
        }
        self.supply.read(into)
    }
}
