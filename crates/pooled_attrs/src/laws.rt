//! The law of the tests of equality.

ghost use Rattle.std.specs.Prelude.{◌≡◌, ◌↔◌, true};

use crate::wire::Wire;
use crate::written::Written;
use route_values::Key;

/// The law of the tests: the derived one of keys, and those of attributes, are true exactly where both values are
/// equal. It does nothing.
pub fn tests_decide()
    ensures keys { (a b : Key) → (⟦<Key as PartialEq>⟧.eq a b ≡ true) ↔ (a ≡ b) }
    ensures written { (a b : Written) → (⟦<Written as PartialEq>⟧.eq a b ≡ true) ↔ (a ≡ b) }
    ensures wire { (a b : Wire) → (⟦<Wire as PartialEq>⟧.eq a b ≡ true) ↔ (a ≡ b) }
{}
