//! Which keys are noted, to be looked at later.

ghost use Rattle.std.specs.Prelude.{◌≡◌, ◌&&◌, ℕ, not, true, is_some, if◌then◌else◌, Some, None};
ghost use Rattle.std.specs.Prelude.{IsSome};
ghost use Rattle.linked_pending.specs.Listing.{has};
ghost use Rattle.route_values.specs.declared.key.Key.{Key as ValueOfKey};
ghost use Rattle.value_pool.specs.Pool.{noted};
ghost use Rattle.adj_rib_out.specs.Kept.{chosen_at};
ghost use Rattle.adj_rib_out.specs.Places.{key_at};

use crate::chosen::Chosen;
use crate::keys::Keys;
use crate::showing::is_chosen;

/// Notes the key of a place, unless something keeps it.
pub fn note_unless(keys: &mut Keys, kept: bool, place: usize)
    requires { IsSome (key_at keys.old.keys place) }
    ensures { keys.new ≡ record keys.old {
      idle = if kept then keys.old.idle else noted place keys.old.idle;
    } }
{
    if !kept {
        keys.note(place);
    }
}

/// Notes each key that has no route.
pub fn note_all(keys: &mut Keys, routes: &[Option<Chosen>])
    ensures lone { (place : ℕ) (key : ValueOfKey) → key_at keys.old.keys place ≡ Some key
        → chosen_at routes.now place ≡ None → has place keys.new.idle ≡ true }
    ensures rest { keys.new ≡ record keys.old { idle = keys.new.idle } }
{
    'places: for place in 0..keys.len() {
        note_place(keys, routes, place);
    }
}

// Notes the key of a place, where it stands and has no route.
fn note_place(keys: &mut Keys, routes: &[Option<Chosen>], place: usize)
    ensures { keys.new ≡ record keys.old {
      idle = if is_some (key_at keys.old.keys place) && not (is_some (chosen_at routes.now place))
          then noted place keys.old.idle else keys.old.idle;
    } }
{
    let lone = keys.at(place).is_some() && !is_chosen(routes, place);
    if lone {
        keys.note(place);
    }
}
