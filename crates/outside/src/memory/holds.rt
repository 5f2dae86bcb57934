//! Bytes that are held until something else has come so far.
ghost use Rattle.std.specs.Prelude.{◌<◌};
ghost use Rattle.outside.specs.Holding.{HasRoom};

use crate::memory::mark::Mark;
use std::thread;

// How often a held call looks before it gives up.
const LOOKS: u32 = 1_000_000;

/// How long something is held.
#[derive(Clone, Copy, Debug)]
pub enum Until<'a> {
    /// Until a mark has come so far, or the child was killed.
    Reached(&'a Mark, u64),
    /// Until the child was killed.
    Killed,
}

/// What stands from a place on is held.
#[derive(Clone, Copy, Debug)]
pub struct Hold<'a> {
    /// How many bytes go through before it.
    pub at: usize,
    /// How long it is held.
    pub until: Until<'a>,
}

/// How a call fared that wanted to pass.
#[derive(Clone, Copy, Debug)]
pub enum Passage {
    /// So many bytes, at least one, stand before the next hold.
    Free(usize),
    /// The child was killed while the call was held.
    Killed,
    /// The call looked in vain as often as it may.
    Missed,
}

/// What an object in memory holds, and how many bytes went through it.
#[derive(Clone, Copy, Debug)]
pub struct Holds<'a> {
    list: &'a [Hold<'a>],
    killed: Option<&'a Mark>,
    moved: Option<&'a Mark>,
    at: usize,
}

impl<'a> Holds<'a> {
    /// Holds these, counts bytes at the mark `moved`, and looks at the mark `killed`, which counts
    /// from 1 on once the child was killed. Nothing went through.
    pub fn new(list: &'a [Hold<'a>], killed: Option<&'a Mark>, moved: Option<&'a Mark>) -> Self {
        Holds {
            list,
            killed,
            moved,
            at: 0,
        }
    }

    /// Waits until nothing holds what comes next.
    pub fn pass(&self) -> Passage
        ensures { HasRoom result }
    {
        'holds: for hold in self.list {
            if hold.at != self.at {
                continue;
            }
            match self.wait(hold.until) {
                Passage::Free(_) => {}
                Passage::Killed => return Passage::Killed,
                Passage::Missed => return Passage::Missed,
            }
        }
        Passage::Free(self.room())
    }

    /// Counts bytes that went through.
    pub fn count(&mut self, bytes: usize) {
        self.at = self.at.saturating_add(bytes);
        if let Some(mark) = self.moved {
            mark.add(bytes as u64);
        }
    }

    // How many bytes stand before the next hold.
    fn room(&self) -> usize
        ensures { 0 < result }
    {
        let mut room = usize::MAX;
        'holds: for hold in self.list {
            if self.at < hold.at {
                room = room.min(hold.at - self.at);
            }
        }
        room
    }

    // Looks until it is held no more, as often as it may.
    fn wait(&self, until: Until<'_>) -> Passage
        ensures { HasRoom result }
    {
        'looks: for _ in 0..LOOKS {
            if is_reached(until) {
                return Passage::Free(usize::MAX);
            }
            if self.killed.is_some_and(|mark| mark.count() > 0) {
                return Passage::Killed;
            }
            thread::yield_now();
        }
        if let Until::Reached(mark, _) = until {
            mark.miss();
        }
        Passage::Missed
    }
}

// Whether it is held no more, but for a kill.
fn is_reached(until: Until<'_>) -> bool {
    match until {
        Until::Reached(mark, count) => mark.count() >= count,
        Until::Killed => false,
    }
}
