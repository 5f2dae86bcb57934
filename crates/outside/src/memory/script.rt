//! What is planned for one way of a stream in memory, and the room that is made for it.
ghost use Rattle.std.specs.Prelude.{◌≡◌, []};

use crate::memory::holds::Hold;
use crate::memory::mark::Mark;

/// What is planned for one way of a stream in memory.
#[derive(Clone, Copy, Debug)]
pub struct Script<'a> {
    /// How many bytes a call moves at most. 0 counts as 1.
    pub step: usize,
    /// The calls that fail, by their numbers, counted from 0.
    pub failing: &'a [u64],
    /// What is held.
    pub holds: &'a [Hold<'a>],
    /// Counts the bytes that went through.
    pub moved: Option<&'a Mark>,
    /// Counts the faults.
    pub faults: Option<&'a Mark>,
}

impl Script<'_> {
    /// Moves as many bytes a call as it may, never fails, and holds nothing.
    pub fn new() -> Self
        ensures step { result.step ≡ usize.MAX }
        ensures failing { result.failing.now ≡ [] }
        ensures holds { result.holds.now ≡ [] }
    {
        Script {
            step: usize::MAX,
            failing: &[],
            holds: &[],
            moved: None,
            faults: None,
        }
    }
}

// Counts a fault at a mark.
pub(crate) fn mark_one(mark: Option<&Mark>) {
    if let Some(mark) = mark {
        mark.add(1);
    }
}
