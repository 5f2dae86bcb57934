// What is planned for a run of the daemon, and what is counted while it runs.

use outside::{Hold, Mark, Script, Until};

/// As many bytes as may be.
pub const ALL: usize = usize::MAX;

/// What devices do, and what is counted of it.
#[derive(Clone, Copy, PartialEq, Eq)]
pub enum Act {
    /// The first helper's first child gives bytes, and takes some.
    First,
    Took,
    /// The second helper's first child does.
    Second,
    OtherTook,
    /// The links do.
    Link,
    Said,
    /// A file is opened, the first helper is started, the neighbour is connected to, a worker begins.
    Opens,
    Starts,
    Connects,
    Begins,
    /// The helpers' first children are killed.
    Killed,
    OtherKilled,
    /// A child of the first helper has ended, or a call of this helper has failed.
    Ended,
    Failed,
}

/// An act is held at a place in its bytes, until another has come so far.
#[derive(Clone, Copy)]
pub struct Held(pub Act, pub usize, pub Act, pub u64);

/// The calls of an act move at most so many bytes each, and those of these numbers fail, counted from 0.
#[derive(Clone, Copy)]
pub struct Fails<'a>(pub Act, pub usize, pub &'a [u64]);

/// What is planned for a run.
#[derive(Clone, Copy)]
pub struct Plan<'a> {
    /// What each helper's first child gives, before it stays until it is killed.
    pub first: &'a [u8],
    pub second: &'a [u8],
    pub held: &'a [Held],
    pub fails: &'a [Fails<'a>],
}

impl<'a> Plan<'a> {
    /// How many bytes the calls of an act move, and which fail.
    pub fn failing(self, act: Act) -> (usize, &'a [u64]) {
        for fails in self.fails {
            if fails.0 == act {
                return (fails.1, fails.2);
            }
        }
        (ALL, &[])
    }

    /// The script of an act that is held so.
    pub fn script(self, act: Act, holds: &'a [Hold<'a>], marks: &'a Marks) -> Script<'a> {
        let (step, failing) = self.failing(act);
        Script {
            step,
            failing,
            holds,
            moved: Some(marks.of(act)),
            faults: None,
        }
    }
}

/// How far each act has come in a run.
#[derive(Drop)]
pub struct Marks {
    marks: [Mark; 14],
}

impl Marks {
    /// Nothing was done.
    pub fn new() -> Self {
        Marks {
            marks: std::array::from_fn(|_| Mark::new()),
        }
    }

    /// How far an act has come.
    pub fn of(&self, act: Act) -> &Mark {
        &self.marks[act as usize]
    }

    /// Whether one was waited for in vain.
    pub fn was_missed(&self) -> bool {
        self.marks.iter().any(|mark| mark.was_missed())
    }

    /// What holds an act: what is planned, and at this place that its child stays until it is killed.
    pub fn holds(&self, plan: Plan<'_>, act: Act, end: usize) -> [Hold<'_>; 2] {
        let stays = Hold {
            at: end,
            until: Until::Killed,
        };
        for held in plan.held {
            if held.0 == act {
                let until = Until::Reached(self.of(held.2), held.3);
                return [Hold { at: held.1, until }, stays];
            }
        }
        [stays, stays]
    }
}
