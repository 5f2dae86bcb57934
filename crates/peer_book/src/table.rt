//! Changes of several keys of a table at once.
ghost use Rattle.std.specs.Prelude.{◌≡◌, None, IsSome};
ghost use Rattle.std.specs.Option.{option_map};
ghost use Rattle.adj_rib_out.specs.State.{value_at, route_of};
ghost use Rattle.peer_book.specs.Slot.{IsKey};
ghost use Rattle.peer_book.specs.Tables.{SetsEach, AreReady, AreKeys};

use adj_rib_out::{Owner, Rib};
use route_values::Key;

/// Gives each of the keys the value of this number. Keys and value stand ready.
pub fn set_each(table: &mut Rib, keys: &[Key], number: usize, owner: Owner)
    requires ready { AreReady table.old keys.now }
    requires value { IsSome (value_at table.old number) }
    ensures sets { SetsEach table.old table.new keys.now
        (option_map (λ written. route_of table.old.side written owner)
        (value_at table.old number)) }
    ensures keys { AreKeys keys.now }
{
    'keys: for key in keys {
        known(key);
        table.set(key, number, owner);
    }
}

/// Takes the routes of the keys out of the table.
pub fn unset_each(table: &mut Rib, keys: &[Key])
    ensures { SetsEach table.old table.new keys.now None }
{
    'keys: for key in keys {
        table.unset(key);
    }
}

// What every key is.
fn known(key: &Key)
    ensures { IsKey key.now }
{
    let _len = key.prefix.len();
    let _id = key.id;
}
