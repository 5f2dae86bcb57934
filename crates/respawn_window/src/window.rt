//! The starts of late.
ghost use Rattle.std.specs.Prelude.{ℕ, ◌≡◌, ◌↔◌, ◌<◌, ◌-◌, List, [], length, slice_index, IsTrue};
ghost use Rattle.std.specs.Bool.{OnFalse};

use arrayvec::ArrayVec;
use std::marker::Model;

// How many starts are allowed within the span.
const MAX_STARTS: usize = 5;

// The span, in milliseconds.
const SPAN: u64 = 60_000;

/// Allows starts, at most five in any 60,000 milliseconds.
///
/// # Order
///
/// Moments never fall: one below the greatest start so far counts as that.
#[derive(Debug, Drop)]
pub struct Window {
    starts: ArrayVec<u64, MAX_STARTS>,
}

impl Model for Window {
    ghost use Rattle.std.specs.Prelude.{ℕ, List};

    ghost Value = { List ℕ };

    ghost view = { λ window. window.starts.items };
}

impl Window {
    ghost use Rattle.respawn_window.specs.Starts.{window, with_start, Remembers};

    /// A window without starts.
    pub fn new() -> Window
        ensures { Remembers [] result }
    {
        Window {
            starts: ArrayVec::new(),
        }
    }

    /// Whether a start is allowed at this moment, in milliseconds. One that is allowed is recorded, and where it isn't
    /// nothing changes.
    ///
    /// The window keeps five starts; the clauses speak of all that were recorded.
    pub fn ask(&mut self, now: u64) -> bool
        ensures allowed { (starts : List ℕ) → Remembers starts self.old →
            (IsTrue result ↔ (window starts now < 5)) }
        ensures recorded { (starts : List ℕ) → Remembers starts self.old →
            Remembers (with_start result starts now) self.new }
        ensures refused { OnFalse result (self.new ≡ self.old) }
    {
        let now = now.max(latest(&self.starts));
        if !self.starts.is_full() {
            self.starts.push(now);
            return true;
        }
        if now.saturating_sub(self.starts[0]) < SPAN {
            return false;
        }
        self.starts.remove(0);
        self.starts.push(now);
        true
    }
}

// The last start, or 0 where there is none.
fn latest(starts: &[u64]) -> u64
    ensures { result ≡ slice_index starts.now (length starts.now - 1) }
{
    match starts.last() {
        Some(start) => *start,
        None => 0,
    }
}
