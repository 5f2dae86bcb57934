//! The state of the tests: a number that calls add to.
ghost use Rattle.std.specs.Prelude.{◌≡◌};

use book_gate::{Call, Held};

/// The total, modulo 2^64.
#[derive(Drop)]
pub struct Tally {
    pub value: u64,
}

/// What a call added, and the total that it was told.
#[derive(Drop)]
pub struct Added {
    pub by: u64,
    pub total: u64,
}

impl Held for Tally {
    ghost use Rattle.std.specs.Prelude.{◌≡◌};
    ghost use Rattle.book_gate_many.specs.Tallies.{total_of, IsTotal};

    type Start = u64;

    type Entry = Added;

    ghost stands = { λ tally start history. tally.value ≡ total_of start history };

    ghost law = { IsTotal };
}

/// Adds a number, and answers the total.
#[derive(Drop)]
pub struct Add {
    pub by: u64,
}

impl Call<Tally> for Add {
    ghost use Rattle.book_gate_many.specs.Tallies.{added};

    type Answer = u64;

    ghost can = { λ _. Unit {0} };

    ghost entry = { λ call total. added call.by total };

    fn on(self, state: &mut Tally) -> u64 {
        state.value = state.value.wrapping_add(self.by);
        state.value
    }
}
