//! Which jobs are refused.
ghost use Rattle.std.specs.Prelude.{◌≡◌, false, length, true};
ghost use Rattle.crew.specs.Crews.{RefusesNone, RefusesOne, marked};
ghost use Rattle.outside.specs.Told.{Rose};

use crate::place::Place;
use outside::CrewPlan;

/// The marked jobs.
pub struct Marked<W> {
    pub places: Vec<Place<W>>,
    /// Whether none is refused.
    pub all: bool,
}

// Asks the plan once for each job, in order, and marks those that it refuses, counted from 0. Whether it refuses none.
fn mark<W>(plan: &mut CrewPlan<'_>, places: &mut [Place<W>]) -> bool
    ensures marked { places.new ≡ marked plan.old 0 places.old }
    ensures all { result ≡ true → RefusesNone plan.old (length places.old) }
    ensures one { result ≡ false → RefusesOne plan.old (length places.old) }
    ensures refused { plan.new.refused ≡ plan.old.refused }
    ensures same { result ≡ true → plan.new ≡ plan.old }
    ensures count { result ≡ false → Rose plan.old.faults plan.new.faults }
{
    let mut all = true;
    for (i, place) in places.iter_mut().enumerate() {
        place.refused = plan.refuses(i as u64);
        all &= !place.refused;
    }
    all
}

/// Marks the jobs of a list that the plan refuses.
pub fn mark_all<W>(plan: &mut CrewPlan<'_>, mut places: Vec<Place<W>>) -> Marked<W>
    ensures marked { result.places.items ≡ marked plan.old 0 places.items }
    ensures all { result.all ≡ true → RefusesNone plan.old (length places.items) }
    ensures one { result.all ≡ false → RefusesOne plan.old (length places.items) }
    ensures refused { plan.new.refused ≡ plan.old.refused }
    ensures same { result.all ≡ true → plan.new ≡ plan.old }
    ensures count { result.all ≡ false → Rose plan.old.faults plan.new.faults }
{
    let all = mark(plan, &mut places);
    Marked { places, all }
}
