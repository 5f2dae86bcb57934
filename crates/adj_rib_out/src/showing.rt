//! What slots show.

ghost use Rattle.std.specs.Prelude.{◌≡◌, ◌<◌, ◌||◌, ◌&&◌, is_some, nat_lt, not, length};
ghost use Rattle.linked_pending.specs.Links.{link};
ghost use Rattle.slot_batches.specs.Left.{value_left};
ghost use Rattle.adj_rib_out.specs.State.{is_visible};
ghost use Rattle.adj_rib_out.specs.Kept.{chosen_at, has_value, keeps, number_of, owes_end};
ghost use Rattle.adj_rib_out.specs.Kept.{parity_of, shown_number};

use crate::chosen::Chosen;
use crate::values::Values;
use route_values::{Caps, Family, Key};
use slot_batches::Slots;

/// The number of a slot of the family that has no attributes.
pub fn parity_of(family: Family) -> usize
    ensures parity { result ≡ parity_of family }
    ensures small { result < 2 }
{
    match family {
        Family::Ipv4 => 0,
        Family::Ipv6 => 1,
    }
}

/// Whether the session carries the key.
pub fn is_visible(caps: &Caps, key: &Key) -> bool
    ensures { result ≡ is_visible caps.now key.now }
{
    let family = key.family();
    caps.has(family) && (key.id == 0 || caps.path(family))
}

/// The number that a slot of the parity has with a value.
pub fn number_of(values: &Values, parity: usize, chosen: Option<Chosen>) -> usize
    requires parity { parity < 2 }
    ensures { result ≡ number_of values.now.seen parity chosen }
{
    let Some(chosen) = chosen else {
        return parity;
    };
    match values.wire_of(chosen.value) {
        Some(wire) => 2 * (wire + 1) + parity,
        None => parity,
    }
}

/// The number that the slot of a key is to show.
pub fn shown_number(values: &Values, caps: Option<Caps>, key: &Key, chosen: Option<Chosen>) -> usize
    ensures { result ≡ shown_number caps values.now.seen key.now chosen }
{
    let parity = parity_of(key.family());
    match caps {
        Some(caps) => {
            if is_visible(&caps, key) {
                number_of(values, parity, chosen)
            } else {
                parity
            }
        }
        None => parity,
    }
}

/// Whether the first batch of a session owes the family's marker, and none was begun.
pub fn owes_marker(caps: Option<Caps>, begun: bool, family: Family) -> bool
    ensures { result ≡ owes_end caps begun family }
{
    match caps {
        Some(caps) => caps.has(family) && !begun,
        None => false,
    }
}

/// Whether one of two holds.
pub fn either(one: bool, other: bool) -> bool
    ensures { result ≡ (one || other) }
{
    one || other
}

/// Whether both hold.
pub fn both(one: bool, other: bool) -> bool
    ensures { result ≡ (one && other) }
{
    one && other
}

/// Whether one holds and the other doesn't.
pub fn unless(one: bool, other: bool) -> bool
    ensures { result ≡ (one && not other) }
{
    one && !other
}

/// Whether a value of the slot was sent, or is left to be.
pub fn is_kept_at(slots: &Slots, place: usize) -> bool
    requires { place < length slots.now.nows }
    ensures { result ≡ keeps slots.now place }
{
    either(1 < slots.sent(place), has_value(slots.left(place)))
}

fn has_value(left: Option<usize>) -> bool
    ensures { result ≡ has_value left }
{
    match left {
        Some(number) => 1 < number,
        None => false,
    }
}

/// Whether a value of the slot was sent, or something is left of it.
pub fn is_busy(slots: &Slots, place: usize) -> bool
    requires { place < length slots.now.nows }
    ensures { result ≡ (nat_lt 1 (link slots.now.sents place)
        || is_some (value_left slots.now.left place)) }
{
    either(1 < slots.sent(place), slots.left(place).is_some())
}

/// Whether a place has a value.
pub fn is_chosen(routes: &[Option<Chosen>], place: usize) -> bool
    ensures { result ≡ is_some (chosen_at routes.now place) }
{
    match routes.get(place) {
        Some(Some(_)) => true,
        _ => false,
    }
}

/// Whether a place has a value, or a value of its slot was sent or is left to be.
pub fn stands(routes: &[Option<Chosen>], slots: &Slots, place: usize) -> bool
    requires { place < length slots.now.nows }
    ensures { result ≡ (is_some (chosen_at routes.now place) || keeps slots.now place) }
{
    either(is_chosen(routes, place), is_kept_at(slots, place))
}
