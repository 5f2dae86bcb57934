//! The slots of numbers: where each number's value stands in the table.

ghost use Rattle.std.specs.Prelude.{◌≡◌, ℕ, ◌+◌, ◌-◌, ◌<◌, ◌≤◌, ◌++◌, ◌∷◌, ◌⊎◌, ◌≢◌, [], is_some};
ghost use Rattle.std.specs.Prelude.{if◌then◌else◌, length};
ghost use Rattle.std.specs.Prelude.{Some, None, IfSome, OnSome, IfNone, slice_get, slice_set};
ghost use Rattle.std.specs.Prelude.{vec_capacity, map};
ghost use Rattle.std.specs.Option.{option_map};
ghost use Rattle.value_pool.specs.Pool.{item_at};
ghost use Rattle.value_pool.specs.Slots.{item_of, items_of, slot_at, next_number, with_slot, moved};
ghost use Rattle.value_pool.specs.Slots.{settled, AreFree, AreMatched};

use indexmap::IndexMap;
use std::hash::{Hash, RandomState};

/// Where the value of a number stands in the table, and the number's tag.
#[derive(Clone, Copy)]
pub struct Slot {
    pub(crate) place: usize,
    pub(crate) tag: usize,
}

/// The values, each with its number.
pub type Table<T> = IndexMap<T, usize, RandomState>;

/// The slot of a number, or None where it is free.
pub fn slot_at(slots: &[Option<Slot>], number: usize) -> Option<Slot>
    ensures { result ≡ slot_at slots.now number }
{
    match slots.get(number) {
        Some(slot) => *slot,
        None => None,
    }
}

/// The number that the next slot takes: the one that was freed last, or the next new one.
pub fn next_number(slots: &[Option<Slot>], free: &[usize]) -> usize
    ensures { result ≡ next_number slots.now free.now }
{
    match free.last() {
        Some(number) => *number,
        None => slots.len(),
    }
}

/// Puts a slot under the next number.
pub fn put_slot(slots: &mut Vec<Option<Slot>>, free: &mut Vec<usize>, slot: Slot)
    requires free { AreFree slots.old.items free.old.items }
    requires room { (free.old.items ≡ []) → length slots.old.items < vec_capacity slots.old }
    ensures slots { slots.new.items
        ≡ with_slot slots.old.items (next_number slots.old.items free.old.items) slot }
    ensures free { AreFree slots.new.items free.new.items }
    ensures count { length free.new.items + length slots.old.items + 1
        ≡ length free.old.items + length slots.new.items }
    ensures capacity { vec_capacity free.new ≡ vec_capacity free.old }
{
    match free.pop() {
        Some(number) => slots[number] = Some(slot),
        None => slots.push_reserved(Some(slot)),
    }
}

/// Writes anew where the entry at a place stands, where there is one.
pub fn settle<T: Eq + Hash>(table: &Table<T>, slots: &mut Vec<Option<Slot>>, place: usize)
    ensures { slots.new.items ≡ settled table.now.entries slots.old.items place }
{
    if let Some((_, number)) = table.get_index(place) {
        move_slot(slots, *number, place);
    }
}

// Writes anew where the value of a number stands.
fn move_slot(slots: &mut Vec<Option<Slot>>, number: usize, place: usize)
    ensures { slots.new.items ≡ moved slots.old.items number place }
{
    if let Some(slot) = slot_at(slots, number) {
        slots[number] = Some(Slot {
            place,
            tag: slot.tag,
        });
    }
}

/// Takes the value of a number out of the table, and frees its slot. The last entry takes the place that was left.
pub fn take_value<T: Eq + Hash>(
    table: &mut Table<T>,
    slots: &mut Vec<Option<Slot>>,
    number: usize,
) -> Option<T>
    requires matched { AreMatched table.old.entries slots.old.items }
    ensures matched { AreMatched table.new.entries slots.new.items }
    ensures value { result ≡ option_map (λ item. item.0)
        (item_at (items_of table.old.entries slots.old.items) number) }
    ensures items { items_of table.new.entries slots.new.items
        ≡ slice_set (items_of table.old.entries slots.old.items) number None }
    ensures count { length table.new.entries + (if is_some result then 1 else 0)
        ≡ length table.old.entries }
{
    let slot = slot_at(slots, number)?;
    let (value, _) = table.swap_remove_index(slot.place)?;
    slots[number] = None;
    settle(table, slots, slot.place);
    Some(value)
}
