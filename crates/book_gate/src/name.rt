//! A name of a gate, for contracts.
use std::marker::Brand;

/// Names one gate and one pass, in the types of what threads hand to one another: a type that holds a pass or a glimpse
/// can say of which gate it is, and whose entries it tells of. A name is for contracts alone. It has no value and no
/// bytes, and a generic call at `Brand` picks the gate and the pass.
pub trait GateName {
    ghost use Rattle.std.specs.Prelude.{List, ℕ};
    ghost use Rattle.book_gate.specs.Known.{TableId};

    /// The gate, as contracts see a `Gate`.
    ghost gate: { TableId };

    /// The name of the pass whose entries are told of.
    ghost writer: { List ℕ };
}

impl GateName for Brand {
    ghost use Rattle.std.specs.Prelude.{[]};
    ghost use Rattle.book_gate.specs.Known.{no_gate};

    ghost gate = { no_gate };

    ghost writer = { [] };
}
