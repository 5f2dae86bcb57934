//! How written values and wire attributes are trimmed.

ghost use Rattle.std.specs.Prelude.{◌≡◌, ◌<◌, ℕ, IsSome};
ghost use Rattle.linked_pending.specs.Links.{link};
ghost use Rattle.linked_pending.specs.Listing.{without};
ghost use Rattle.adj_rib_out.specs.Kept.{written_under};
ghost use Rattle.adj_rib_out.specs.Trimmed.{AreUsed, LosesValues, LosesWires};

use crate::values::Values;

/// Takes out the written values that no place was given. It looks at those alone that are noted.
pub fn trim_values(values: &mut Values)
    requires used { AreUsed values.old }
    ensures loses { LosesValues values.old values.new }
    ensures given { (value : ℕ) → IsSome (written_under values.new.seen value)
        → 0 < link values.new.routes value }
{
    'noted: while let Some(value) = values.first_idle_value() {
        trim_value(values, value);
    }
}

// Takes a written value out, or off those noted where places were given it.
fn trim_value(values: &mut Values, value: usize)
    requires stands { IsSome (written_under values.old.seen value) }
    requires used { AreUsed values.old }
    ensures loses { LosesValues values.old values.new }
    ensures idle { values.new.idle_values ≡ without value values.old.idle_values }
{
    if values.has_route(value) {
        values.forget_value(value);
        return;
    }
    values.drop_value(value);
}

/// Takes out the noted wire attributes that aren't in use.
pub fn trim_wires(values: &mut Values)
    requires used { AreUsed values.old }
    ensures { LosesWires values.old values.new }
{
    'noted: while let Some(wire) = values.first_idle_wire() {
        trim_wire(values, wire);
    }
}

// Takes wire attributes out, or off those noted where they are in use.
fn trim_wire(values: &mut Values, wire: usize)
    requires used { AreUsed values.old }
    ensures loses { LosesWires values.old values.new }
    ensures idle { values.new.idle_wires ≡ without wire values.old.idle_wires }
{
    if values.has_use(wire) {
        values.forget_wire(wire);
        return;
    }
    values.drop_wire(wire);
}
