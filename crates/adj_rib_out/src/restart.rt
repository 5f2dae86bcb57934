//! What keys show on a session that stands anew.

ghost use Rattle.std.specs.Prelude.{◌≡◌, ◌<◌, length};
ghost use Rattle.adj_rib_out.specs.Kept.{chosen_at};
ghost use Rattle.adj_rib_out.specs.Shown.{CanShow, HasShown, place_shown};

use crate::chosen::Chosen;
use crate::keys::Keys;
use crate::showing::shown_number;
use crate::values::Values;
use route_values::Caps;
use slot_batches::Slots;

/// Lets each slot show on a session what its key was given.
pub fn show_all(
    keys: &Keys,
    routes: &[Option<Chosen>],
    values: &Values,
    caps: Caps,
    slots: &mut Slots,
)
    requires { CanShow keys.now.keys values.now.seen slots.old }
    ensures { HasShown keys.now.keys routes.now values.now.seen caps slots.old slots.new
        (length keys.now.keys) }
{
    'places: for place in 0..keys.len() {
        show_place(keys, routes, values, caps, slots, place);
    }
}

fn show_place(
    keys: &Keys,
    routes: &[Option<Chosen>],
    values: &Values,
    caps: Caps,
    slots: &mut Slots,
    place: usize,
)
    requires can { CanShow keys.now.keys values.now.seen slots.old }
    requires place { place < length keys.now.keys }
    ensures { slots.new
        ≡ place_shown keys.now.keys routes.now values.now.seen caps slots.old place }
{
    let Some(key) = keys.at(place) else {
        return;
    };
    let number = shown_number(values, Some(caps), key, chosen_at(routes, place));
    slots.show(place, number);
}

// What a place was given.
fn chosen_at(routes: &[Option<Chosen>], place: usize) -> Option<Chosen>
    ensures { result ≡ chosen_at routes.now place }
{
    match routes.get(place) {
        Some(chosen) => *chosen,
        None => None,
    }
}
