//! Pauses in memory.

use crate::memory::mark::Mark;
use crate::pause::{Pause, Seat};
use std::thread;

/// Where waits of one length are counted.
#[derive(Clone, Copy, Debug)]
pub struct CountedWait<'a> {
    /// The length, in milliseconds.
    pub ms: u64,
    /// Counts the waits and rests of this length.
    pub mark: &'a Mark,
}

/// A pause that doesn't wait. It counts the waits that it was asked for, and may move a clock on.
#[derive(Clone, Copy, Debug)]
pub struct MemoryPause<'a> {
    counted: &'a [CountedWait<'a>],
    hand: Option<&'a Mark>,
    step: u64,
}

impl<'a> MemoryPause<'a> {
    /// Counts the waits of these lengths.
    pub fn new(counted: &'a [CountedWait<'a>]) -> Self {
        MemoryPause {
            counted,
            hand: None,
            step: 0,
        }
    }

    /// The same pause, which moves the hand of a clock on by so much at each wait.
    pub fn moving(mut self, hand: &'a Mark, step: u64) -> Self {
        self.hand = Some(hand);
        self.step = step;
        self
    }
}

impl Pause for MemoryPause<'_> {
    fn at(self, _seat: Seat) -> Self {
        self
    }

    /// Lets another thread run.
    fn wait(self, ms: u64) {
        'lengths: for counted in self.counted {
            if counted.ms == ms {
                counted.mark.add(1);
            }
        }
        if let Some(hand) = self.hand {
            hand.add(self.step);
        }
        thread::yield_now();
    }

    fn rest(self, ms: u64) {
        self.wait(ms);
    }

    fn ring(self) {}

    fn close(self) {}
}
