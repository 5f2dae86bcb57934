//! Outcomes and what each changes.
use crate::{Change, Counter};
use outside::Outcome;

const U: Outcome = Outcome::Up;

const D: Outcome = Outcome::Down;

const R: Option<Change> = Some(Change::Rise);

const F: Option<Change> = Some(Change::Fall);

const N: Option<Change> = None;

// By how many in a row the service comes up and goes down, outcomes, and what each changes.
const COUNTS: [(u32, u32, &[(Outcome, Option<Change>)]); 4] = [
    (2, 2, &[(U, N), (D, N), (U, N), (U, R), (D, N), (D, F)]),
    (1, 1, &[(D, N), (U, R), (U, N), (D, F), (D, N), (U, R)]),
    (
        3,
        1,
        &[(U, N), (U, N), (D, N), (U, N), (U, N), (U, R), (D, F)],
    ),
    (
        1,
        3,
        &[(U, R), (D, N), (D, N), (U, N), (D, N), (D, N), (D, F)],
    ),
];

#[test]
fn a_service_changes_after_so_many_equal_outcomes_in_a_row(rt: HostRuntime) {
    'counts: for (rise, fall, steps) in COUNTS {
        let mut counter = Counter::new(rise, fall);
        'steps: for (outcome, change) in steps {
            assert_eq!(rt; counter.step(*outcome), *change, "{rise} and {fall}");
        }
    }
}
