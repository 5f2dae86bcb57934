//! Calls that start or connect, of which some fail, and what came back.
ghost use Rattle.std.specs.Prelude.{◌≡◌, ◌+◌, ◌≤◌, Some, if◌then◌else◌};
ghost use Rattle.outside.specs.Lent.{one_more};
ghost use Rattle.outside.specs.Plan.{Plan, strikes_now, after_call, after_return};

use crate::memory::fault_plan::FaultPlan;
use crate::memory::mark::Mark;
use crate::memory::script::mark_one;

/// Which calls of a spawner or a dialer in memory fail, how many have failed, and the marks at which
/// its faults and what came back are counted.
#[derive(Drop)]
pub struct Attempts<'a> {
    plan: FaultPlan<'a>,
    failed: Option<u64>,
    ends: Option<&'a Mark>,
    marked: Option<&'a Mark>,
}

impl<'a> Attempts<'a> {
    /// Fails the calls of these numbers, counted from 0, and counts at no mark.
    pub fn new(failing: &'a [u64]) -> Self
        ensures plan { result.plan ≡ record { failing = failing.now; calls = 0; faults = 0 } }
        ensures failed { result.failed ≡ Some 0 }
    {
        Attempts {
            plan: FaultPlan::new(failing),
            failed: Some(0),
            ends: None,
            marked: None,
        }
    }

    /// Counts from here on at two marks: what came back, and faults.
    pub fn mark_at(&mut self, ends: &'a Mark, faults: &'a Mark)
        ensures plan { self.new.plan ≡ self.old.plan }
        ensures failed { self.new.failed ≡ self.old.failed }
    {
        self.ends = Some(ends);
        self.marked = Some(faults);
    }

    /// Counts a call, and says whether it is to fail, which counts a fault.
    pub fn strikes(&mut self) -> bool
        ensures listed { result ≡ strikes_now self.old.plan }
        ensures plan { self.new.plan ≡ after_call self.old.plan }
        ensures failed { self.new.failed
            ≡ (if strikes_now self.old.plan then one_more self.old.failed else self.old.failed) }
        ensures later { self.old.plan.faults ≤ self.new.plan.faults }
    {
        let struck = self.plan.strikes();
        if struck {
            mark_one(self.marked);
            self.failed = self.failed.and_then(|count| count.checked_add(1));
        }
        struck
    }

    /// What came back has so many faults. One is counted where it has any.
    pub fn take_back(&mut self, faults: u64)
        ensures plan { self.new.plan ≡ after_return faults self.old.plan }
        ensures failed { self.new.failed ≡ self.old.failed }
        ensures later { self.old.plan.faults ≤ self.new.plan.faults }
    {
        if faults > 0 {
            mark_one(self.marked);
            self.plan.count();
        }
        mark_one(self.ends);
    }

    /// The same for two that came back as one.
    pub fn take_both_back(&mut self, first: u64, second: u64)
        ensures plan { self.new.plan ≡ after_return (first + second) self.old.plan }
        ensures failed { self.new.failed ≡ self.old.failed }
        ensures later { self.old.plan.faults ≤ self.new.plan.faults }
    {
        if first > 0 || second > 0 {
            mark_one(self.marked);
            self.plan.count();
        }
        mark_one(self.ends);
    }

    /// How many faults were counted. A count of 2^64 - 1 stays there.
    pub fn faults(&self) -> u64
        ensures { result ≡ self.now.plan.faults }
    {
        self.plan.faults()
    }

    /// How many calls have failed, as far as 64 bits go.
    pub fn failed(&self) -> Option<u64>
        ensures { result ≡ self.now.failed }
    {
        self.failed
    }
}
