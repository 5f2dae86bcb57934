//! How a key is made ready.

ghost use Rattle.std.specs.Prelude.{◌≡◌, ◌<◌, ℕ, length, None, OnErr, OnOk, IsTrue};
ghost use Rattle.slot_batches.specs.Slots.{is_idle};
ghost use Rattle.adj_rib_out.specs.Places.{key_at, place_of};
ghost use Rattle.adj_rib_out.specs.Placing.{HaveOneLength, PutsKey, Widens};

use crate::chosen::Chosen;
use crate::keys::Keys;
use crate::showing::parity_of;
use answers::NoMemory;
use route_values::Key;
use slot_batches::Slots;

/// Puts a key that doesn't stand at a vacant place, and notes the place. Where memory is wanting there may be a vacant
/// place more.
pub fn put_key(
    keys: &mut Keys,
    routes: &mut Vec<Option<Chosen>>,
    slots: &mut Slots,
    key: Key,
) -> Result<(), NoMemory>
    requires lengths { HaveOneLength keys.old.keys routes.old.items slots.old }
    requires absent { place_of keys.old.keys key ≡ None }
    requires vacant { (place : ℕ) → key_at keys.old.keys place ≡ None
        → IsTrue (is_idle slots.old place) }
    ensures ok { OnOk result (PutsKey keys.old keys.new routes.old.items routes.new.items slots.old
        slots.new key) }
    ensures err { OnErr result (Widens keys.old keys.new routes.old.items routes.new.items
        slots.old slots.new) }
{
    make_place(keys, routes, slots)?;
    let place = keys.add(key)?;
    slots.claim(place, parity_of(key.family()));
    keys.note(place);
    Ok(())
}

// Makes a vacant place where each was used.
fn make_place(
    keys: &mut Keys,
    routes: &mut Vec<Option<Chosen>>,
    slots: &mut Slots,
) -> Result<(), NoMemory>
    requires { HaveOneLength keys.old.keys routes.old.items slots.old }
    ensures widens { Widens keys.old keys.new routes.old.items routes.new.items
        slots.old slots.new }
    ensures ok { OnOk result (keys.new.used < length keys.new.keys) }
{
    if !keys.is_full() {
        return Ok(());
    }
    routes.reserve(1)?;
    slots.add(0)?;
    routes.push_reserved(None);
    keys.widen();
    Ok(())
}
