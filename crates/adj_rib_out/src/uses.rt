//! How places and slots use values: the counts follow.

ghost use Rattle.std.specs.Prelude.{◌≡◌, ◌≤◌, ◌<◌, ◌+◌, ◌-◌, ◌/◌, ◌^◌, ℕ, length, slice_set};
ghost use Rattle.std.specs.Prelude.{IfSome, IsSome};
ghost use Rattle.std.specs.List.{sum_by};
ghost use Rattle.adj_rib_out.specs.Counts.{of_value, for_wire, RoutesCounted};
ghost use Rattle.adj_rib_out.specs.Kept.{chosen_at, written_under, wire_under};
ghost use Rattle.linked_pending.specs.Links.{link};

use crate::chosen::Chosen;
use crate::values::Values;
use slot_batches::Slots;

// ---- places

/// Gives a place a value, or takes it from it.
pub fn give(
    values: &mut Values,
    routes: &mut Vec<Option<Chosen>>,
    place: usize,
    chosen: Option<Chosen>,
)
    requires place { place < length routes.old.items }
    requires was { IfSome (chosen_at routes.old.items place) (λ c.
        IsSome (written_under values.old.seen c.value)) }
    requires stands { IfSome chosen (λ c. IsSome (written_under values.old.seen c.value)) }
    requires counted { RoutesCounted routes.old.items values.old.routes }
    ensures routes { routes.new.items ≡ slice_set routes.old.items place chosen }
    ensures counted { RoutesCounted routes.new.items values.new.routes }
    ensures rest { values.new ≡ record values.old {
      routes = values.new.routes;
      idle_values = values.new.idle_values;
    } }
{
    let _count = routes.len();
    release(values, routes[place]);
    routes[place] = chosen;
    hold(values, chosen);
}

// One place fewer has the value.
fn release(values: &mut Values, chosen: Option<Chosen>)
    requires stands { IfSome chosen (λ c. IsSome (written_under values.old.seen c.value)) }
    requires counted { (value : ℕ) → of_value value chosen ≤ link values.old.routes value }
    ensures counts { (value : ℕ) → link values.new.routes value + of_value value chosen
        ≡ link values.old.routes value }
    ensures rest { values.new ≡ record values.old {
      routes = values.new.routes;
      idle_values = values.new.idle_values;
    } }
{
    if let Some(chosen) = chosen {
        values.release(chosen.value);
    }
}

// One place more has the value.
fn hold(values: &mut Values, chosen: Option<Chosen>)
    requires stands { IfSome chosen (λ c. IsSome (written_under values.old.seen c.value)) }
    requires small { (value : ℕ) → link values.old.routes value < 2 ^ 63 }
    ensures counts { (value : ℕ) → link values.new.routes value
        ≡ link values.old.routes value + of_value value chosen }
    ensures rest { values.new ≡ record values.old {
      routes = values.new.routes;
      idle_values = values.new.idle_values;
    } }
{
    if let Some(chosen) = chosen {
        values.hold(chosen.value);
    }
}

// ---- slots

/// A slot was sent one number in place of another.
pub fn exchange(values: &mut Values, lost: usize, gained: usize)
    requires lost { (wire : ℕ) → for_wire wire lost ≤ link values.old.uses wire }
    requires was { 1 < lost → IsSome (wire_under values.old.seen (lost / 2 - 1)) }
    requires gained { 1 < gained → IsSome (wire_under values.old.seen (gained / 2 - 1)) }
    requires small { (wire : ℕ) → link values.old.uses wire
        < length values.old.seen.written + 2 ^ 63 }
    ensures counts { (wire : ℕ) → link values.new.uses wire + for_wire wire lost
        ≡ link values.old.uses wire + for_wire wire gained }
    ensures rest { values.new ≡ record values.old {
      uses = values.new.uses;
      idle_wires = values.new.idle_wires;
    } }
{
    hold_number(values, gained);
    release_number(values, lost);
}

// One slot more was sent the number.
fn hold_number(values: &mut Values, number: usize)
    requires stands { 1 < number → IsSome (wire_under values.old.seen (number / 2 - 1)) }
    requires small { (wire : ℕ) → link values.old.uses wire
        < length values.old.seen.written + 2 ^ 63 }
    ensures counts { (wire : ℕ) → link values.new.uses wire
        ≡ link values.old.uses wire + for_wire wire number }
    ensures rest { values.new ≡ record values.old {
      uses = values.new.uses;
      idle_wires = values.new.idle_wires;
    } }
{
    let _count = values.wires();
    if 1 < number {
        values.hold_wire(number / 2 - 1);
    }
}

// One slot fewer was sent the number.
fn release_number(values: &mut Values, number: usize)
    requires stands { 1 < number → IsSome (wire_under values.old.seen (number / 2 - 1)) }
    requires counted { (wire : ℕ) → for_wire wire number ≤ link values.old.uses wire }
    ensures counts { (wire : ℕ) → link values.new.uses wire + for_wire wire number
        ≡ link values.old.uses wire }
    ensures rest { values.new ≡ record values.old {
      uses = values.new.uses;
      idle_wires = values.new.idle_wires;
    } }
{
    if 1 < number {
        values.release_wire(number / 2 - 1);
    }
}

/// No slot counts any more as one that was sent a value.
pub fn release_all(values: &mut Values, slots: &Slots)
    requires same_length { length slots.now.sents ≡ length slots.now.nows }
    requires stand { (slot : ℕ) → 1 < link slots.now.sents slot
        → IsSome (wire_under values.old.seen (link slots.now.sents slot / 2 - 1)) }
    requires counted { (wire : ℕ) → sum_by (for_wire wire) slots.now.sents
        ≤ link values.old.uses wire }
    ensures counts { (wire : ℕ) → link values.new.uses wire + sum_by (for_wire wire) slots.now.sents
        ≡ link values.old.uses wire }
    ensures rest { values.new ≡ record values.old {
      uses = values.new.uses;
      idle_wires = values.new.idle_wires;
    } }
{
    'sents: for slot in 0..slots.len() {
        release_number(values, slots.sent(slot));
    }
}
