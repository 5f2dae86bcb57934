//! How keys go that nothing keeps.

ghost use Rattle.std.specs.Prelude.{◌≡◌, ◌<◌, ℕ, true, length, slice_set, if◌then◌else◌, None};
ghost use Rattle.linked_pending.specs.Listing.{has, without};
ghost use Rattle.adj_rib_out.specs.Trimming.{is_kept_by, TrimsPlaces};

use crate::chosen::Chosen;
use crate::keys::Keys;
use crate::showing::{either, is_chosen};
use slot_batches::Slots;

/// Takes out the noted keys that nothing keeps, and takes all places off those noted.
pub fn trim_keys(keys: &mut Keys, routes: &[Option<Chosen>], slots: &Slots)
    requires { (place : ℕ) → has place keys.old.idle ≡ true → place < length slots.now.nows }
    ensures { TrimsPlaces routes.now slots.now keys.old keys.new }
{
    'noted: while let Some(place) = keys.first_idle() {
        trim_place(keys, routes, slots, place);
    }
}

// Takes the key of a place out where nothing keeps it. The place isn't noted then.
fn trim_place(keys: &mut Keys, routes: &[Option<Chosen>], slots: &Slots, place: usize)
    requires { place < length slots.now.nows }
    ensures keys { keys.new.keys ≡ (if is_kept_by routes.now slots.now place then keys.old.keys
        else slice_set keys.old.keys place None) }
    ensures idle { keys.new.idle ≡ without place keys.old.idle }
    ensures used { keys.new.used ≡ keys.old.used }
{
    if is_kept(routes, slots, place) {
        keys.forget(place);
    } else {
        keys.take_out(place);
    }
}

// Whether something keeps the key of a place: a route, what was sent, or an item of the open batch.
fn is_kept(routes: &[Option<Chosen>], slots: &Slots, place: usize) -> bool
    requires { place < length slots.now.nows }
    ensures { result ≡ is_kept_by routes.now slots.now place }
{
    either(
        is_chosen(routes, place),
        either(1 < slots.sent(place), slots.left(place).is_some()),
    )
}
