//! Clocks in memory.
ghost use Rattle.std.specs.Prelude.{Some, true, ◌==◌};

use crate::clock::Clock;
use crate::memory::mark::Mark;

/// A clock that stands at 0.
#[derive(Clone, Copy, Debug, PartialEq, Eq)]
pub struct StillClock;

impl Clock for StillClock {
    ghost moments = { λ _. Some (λ moment. moment == 0) };

    fn now(self) -> u64 {
        0
    }
}

/// A clock that reads what a mark has come to: 0, unless somebody moves it.
#[derive(Clone, Copy, Debug)]
pub struct MemoryClock<'a> {
    hand: &'a Mark,
}

impl<'a> MemoryClock<'a> {
    /// The clock whose hand is this mark.
    pub fn new(hand: &'a Mark) -> Self {
        MemoryClock { hand }
    }
}

impl Clock for MemoryClock<'_> {
    ghost moments = { λ _. Some (λ _. true) };

    fn now(self) -> u64 {
        self.hand.count()
    }
}
