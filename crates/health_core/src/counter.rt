//! When a service is up.
ghost use Rattle.std.specs.Prelude.{◌≡◌, ◌<◌, ◌^◌, ◌++◌, ◌∷◌, [], ℕ, List};
ghost use Rattle.outside.specs.declared.probe.Outcome.{Outcome as Found};
ghost use Rattle.health_core.specs.Counting.{Counts, change_at, change_of, is_outcome};
ghost use Rattle.health_core.specs.Counting.{in_a_row, is_up_next, with_outcome};

use outside::Outcome;

/// What an outcome changes.
#[derive(Clone, Copy, Debug, PartialEq, Eq)]
pub enum Change {
    /// The service came up.
    Rise,
    /// It went down.
    Fall,
}

/// Counts the outcomes of checks. The service is down at first. It comes up where the last `rise` outcomes are `Up`,
/// and goes down where the last `fall` outcomes are `Down`.
#[derive(Clone, Copy, Debug)]
pub struct Counter {
    rise: u32,
    fall: u32,
    up: bool,
    // The last outcome, and how many times in a row it has come, as far as 32 bits go.
    last: Outcome,
    streak: u32,
}

impl Counter {
    /// A counter without outcomes, by how many in a row the service comes up and goes down.
    pub fn new(rise: u32, fall: u32) -> Counter
        ensures { Counts rise fall [] result }
    {
        Counter {
            rise,
            fall,
            up: false,
            last: Outcome::Down,
            streak: 0,
        }
    }

    /// Counts an outcome, and says what it changes. The clauses speak of all outcomes so far.
    pub fn step(&mut self, outcome: Outcome) -> Option<Change>
        ensures change { (rise fall : ℕ) (outcomes : List Found)
            → Counts rise fall outcomes self.old
            → result ≡ change_at rise fall outcomes outcome }
        ensures counted { (rise fall : ℕ) (outcomes : List Found)
            → Counts rise fall outcomes self.old
            → Counts rise fall (outcomes ++ outcome ∷ []) self.new }
    {
        self.count(outcome);
        let up = self.is_up();
        let change = change_of(self.up, up);
        self.up = up;
        change
    }

    // Puts the outcome to the streak.
    fn count(&mut self, outcome: Outcome)
        ensures { self.new ≡ with_outcome self.old outcome }
    {
        self.streak = if is_outcome(self.last, outcome) {
            self.streak.saturating_add(1)
        } else {
            1
        };
        self.last = outcome;
    }

    // Whether the service is up now, where it was or wasn't before the last outcome.
    fn is_up(&self) -> bool
        ensures up { result ≡ is_up_next self.now }
        ensures small { (self.now.rise < 2 ^ 32) × (self.now.fall < 2 ^ 32) }
    {
        let (rise, fall) = (self.rise, self.fall);
        if self.up {
            self.in_a_row(Outcome::Down) < fall
        } else {
            self.in_a_row(Outcome::Up) >= rise
        }
    }

    // How many of the last outcomes are this one without a break.
    fn in_a_row(&self, outcome: Outcome) -> u32
        ensures { result ≡ in_a_row self.now outcome }
    {
        if is_outcome(self.last, outcome) {
            self.streak
        } else {
            0
        }
    }
}

fn is_outcome(which: Outcome, outcome: Outcome) -> bool
    ensures { result ≡ is_outcome which outcome }
{
    match (which, outcome) {
        (Outcome::Up, Outcome::Up) | (Outcome::Down, Outcome::Down) => true,
        (Outcome::Up, Outcome::Down) | (Outcome::Down, Outcome::Up) => false,
    }
}

fn change_of(was: bool, is: bool) -> Option<Change>
    ensures { result ≡ change_of was is }
{
    match (was, is) {
        (false, true) => Some(Change::Rise),
        (true, false) => Some(Change::Fall),
        (false, false) | (true, true) => None,
    }
}
