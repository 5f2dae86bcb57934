//! A sink in memory that fails at some of its calls.
ghost use Rattle.std.specs.Prelude.{◌≡◌, ◌<◌, ◌-◌, ◌^◌, min, [], length, take};
ghost use Rattle.std.specs.Prelude.{Some, true, false, IfOk};
ghost use Rattle.std.specs.Option.{option_copied};

use crate::memory::fault_plan::FaultPlan;
use crate::memory::sure_sink::SureSink;
use crate::sink::{Sink, Write};
use std::alloc::{AllocError, Global};

/// Keeps what it takes, as far as its room reaches, and fails at the calls that it was told.
///
/// A call that finds too little room takes its bytes all the same, and from then on the sink tells
/// nothing of what it took.
#[derive(Drop)]
pub struct MemorySink<'a> {
    store: SureSink,
    plan: FaultPlan<'a>,
}

impl<'a> MemorySink<'a> {
    ghost use Rattle.outside.specs.Plan.{Plan};
    ghost use Rattle.outside.specs.Store.{room_of, step_of};
    ghost use Rattle.outside.specs.Listed.{store_of, sink_plan};

    /// A sink with room for so many bytes, which takes the whole of each piece and fails at its
    /// calls of these numbers, counted from 0.
    pub fn new(alloc: Global, room: usize, failing: &'a [u64]) -> Result<Self, AllocError>
        ensures taken { IfOk result (λ sink. ⟦<Self as Sink>⟧.taken sink ≡ Some []) }
        ensures room { IfOk result (λ sink. room_of (store_of sink) ≡ room) }
        ensures step { IfOk result (λ sink. step_of (store_of sink) ≡ 2 ^ 64 - 1) }
        ensures plan { IfOk result (λ sink. sink_plan sink
            ≡ record { failing = failing.now; calls = 0; faults = 0 }) }
    {
        Self::in_steps(alloc, room, usize::MAX, failing)
    }

    /// A sink with room for so many bytes, which takes at most `step` bytes a call and fails at its
    /// calls of these numbers, counted from 0.
    pub fn in_steps(
        alloc: Global,
        room: usize,
        step: usize,
        failing: &'a [u64],
    ) -> Result<Self, AllocError>
        requires { 0 < step }
        ensures taken { IfOk result (λ sink. ⟦<Self as Sink>⟧.taken sink ≡ Some []) }
        ensures room { IfOk result (λ sink. room_of (store_of sink) ≡ room) }
        ensures step { IfOk result (λ sink. step_of (store_of sink) ≡ step) }
        ensures plan { IfOk result (λ sink. sink_plan sink
            ≡ record { failing = failing.now; calls = 0; faults = 0 }) }
    {
        Ok(MemorySink {
            store: SureSink::in_steps(alloc, room, step)?,
            plan: FaultPlan::new(failing),
        })
    }

    /// The bytes taken so far, where there was room for all.
    pub fn bytes(&self) -> Option<&[u8]>
        ensures { option_copied result ≡ ⟦<Self as Sink>⟧.taken self.now }
    {
        self.store.bytes()
    }

    /// How often it has failed. A count of 2^64 - 1 stays there.
    pub fn faults(&self) -> u64
        ensures { result ≡ ⟦<Self as Sink>⟧.faults self.now }
    {
        self.plan.faults()
    }
}

impl Sink for MemorySink<'_> {
    ghost use Rattle.outside.specs.Calls.{Writes, WriteCounts};
    ghost use Rattle.outside.specs.Plan.{strikes_now, after_call};
    ghost use Rattle.outside.specs.Store.{room_of, step_of, Keeps};
    ghost use Rattle.outside.specs.Listed.{store_of, sink_plan};

    ghost taken = { λ s. ⟦<SureSink as Sink>⟧.taken s.store };

    ghost faults = { λ s. s.plan.faults };

    /// As `Sink::write`; a call that was told to fails, and each other one takes the whole piece,
    /// as far as the step reaches.
    fn write(&mut self, piece: &[u8]) -> Write
        requires { 0 < length piece.now }
        ensures bytes { Writes (⟦<Self as Sink>⟧.taken self.old)
            (⟦<Self as Sink>⟧.taken self.new) piece.now result }
        ensures cause { WriteCounts (⟦<Self as Sink>⟧.faults self.old)
            (⟦<Self as Sink>⟧.faults self.new) result }
        ensures failed { strikes_now (sink_plan self.old) ≡ true → result ≡ Write.Failed }
        ensures answer { strikes_now (sink_plan self.old) ≡ false
            → result ≡ Write.Wrote (min (length piece.now) (step_of (store_of self.old))) }
        ensures kept { strikes_now (sink_plan self.old) ≡ true
            → ⟦<Self as Sink>⟧.taken self.new ≡ ⟦<Self as Sink>⟧.taken self.old }
        ensures told { strikes_now (sink_plan self.old) ≡ false
            → Keeps (room_of (store_of self.old))
            (⟦<Self as Sink>⟧.taken self.old) (⟦<Self as Sink>⟧.taken self.new)
            (take (min (length piece.now) (step_of (store_of self.old))) piece.now) }
        ensures plan { sink_plan self.new ≡ after_call (sink_plan self.old) }
        ensures room { room_of (store_of self.new) ≡ room_of (store_of self.old) }
        ensures step { step_of (store_of self.new) ≡ step_of (store_of self.old) }
    {
        if self.plan.strikes() {
            return Write::Failed;
        }
        self.store.write(piece)
    }
}
