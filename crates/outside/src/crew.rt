//! Which jobs a crew refuses, and how many it has refused.
ghost use Rattle.std.specs.Prelude.{◌≡◌, ◌≤◌, if◌then◌else◌};
ghost use Rattle.outside.specs.Refusals.{Refusals, is_refused};
ghost use Rattle.outside.specs.Told.{counted};

use std::marker::Model;

/// Which jobs a crew refuses, counted from 0, and how many it has refused. Whoever runs jobs asks
/// it once for each.
#[derive(Debug, Drop)]
pub struct CrewPlan<'a> {
    refused: &'a [u64],
    faults: u64,
}

impl<'a> Model for CrewPlan<'a> {
    ghost Value = { Refusals };

    ghost view = { λ plan. record { refused = plan.refused.now; faults = plan.faults } };
}

impl<'a> CrewPlan<'a> {
    /// Refuses the jobs of these numbers, and no other. With an empty list it refuses none.
    pub fn new(refused: &'a [u64]) -> Self
        ensures { result ≡ record { refused = refused.now; faults = 0 } }
    {
        CrewPlan { refused, faults: 0 }
    }

    /// Whether the job of this number is refused, which counts one fault.
    pub fn refuses(&mut self, job: u64) -> bool
        ensures listed { result ≡ is_refused self.old job }
        ensures count { self.new ≡ record self.old {
          faults =
              if is_refused self.old job then counted self.old.faults else self.old.faults;
        } }
        ensures later { self.old.faults ≤ self.new.faults }
    {
        let refused = self.refused.contains(&job);
        if refused {
            self.faults = self.faults.saturating_add(1);
        }
        refused
    }

    /// How many jobs it has refused. A count of 2^64 - 1 stays there.
    pub fn faults(&self) -> u64
        ensures { result ≡ self.now.faults }
    {
        self.faults
    }
}
