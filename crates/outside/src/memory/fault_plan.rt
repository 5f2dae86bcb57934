//! Which calls of an object in memory fail.
ghost use Rattle.std.specs.Prelude.{◌≡◌, ◌≤◌};
ghost use Rattle.outside.specs.Plan.{Plan, strikes_now, after_call};
ghost use Rattle.outside.specs.Told.{counted};

use std::marker::Model;

/// Counts the calls of an object and its faults.
#[derive(Drop)]
pub struct FaultPlan<'a> {
    failing: &'a [u64],
    calls: u64,
    faults: u64,
}

impl<'a> Model for FaultPlan<'a> {
    ghost Value = { Plan };

    ghost view = { λ p. record { failing = p.failing.now; calls = p.calls; faults = p.faults } };
}

impl<'a> FaultPlan<'a> {
    /// Fails the calls of these numbers, counted from 0.
    pub fn new(failing: &'a [u64]) -> Self
        ensures { result ≡ record { failing = failing.now; calls = 0; faults = 0 } }
    {
        FaultPlan {
            failing,
            calls: 0,
            faults: 0,
        }
    }

    /// Counts a call, and says whether it is to fail, which counts a fault.
    pub fn strikes(&mut self) -> bool
        ensures listed { result ≡ strikes_now self.old }
        ensures after { self.new ≡ after_call self.old }
        ensures later { self.old.faults ≤ self.new.faults }
    {
        let call = self.calls;
        self.calls = call.saturating_add(1);
        let struck = self.failing.contains(&call);
        if struck {
            self.count();
        }
        struck
    }

    /// Counts a fault.
    pub fn count(&mut self)
        ensures counted { self.new ≡ record self.old { faults = counted self.old.faults } }
        ensures later { self.old.faults ≤ self.new.faults }
    {
        self.faults = self.faults.saturating_add(1);
    }

    /// How many faults were counted. A count of 2^64 - 1 stays there.
    pub fn faults(&self) -> u64
        ensures { result ≡ self.now.faults }
    {
        self.faults
    }
}
