//! Copies the routes of a table to one that sends otherwise.
ghost use Rattle.std.specs.Prelude.{◌≡◌, ◌+◌, OnOk};
ghost use Rattle.route_values.specs.Addr.{family_of};
ghost use Rattle.route_values.specs.Key.{family_of_key};
ghost use Rattle.route_values.specs.Sent.{sent};
ghost use Rattle.route_values.specs.declared.settings.Side.{Side as ValueOfSide};
ghost use Rattle.route_values.specs.declared.key.Key.{Key as ValueOfKey};
ghost use Rattle.batch_cutter.specs.Heads.{IsRoute};
ghost use Rattle.adj_rib_out.specs.Calls.{empty};
ghost use Rattle.adj_rib_out.specs.State.{State, Route, route_at};
ghost use Rattle.adj_rib_out.specs.Told.{route_told};
ghost use Rattle.peer_book.specs.Copying.{Copies, CopiesTo, PutsAsked, SendsAlike};
ghost use Rattle.peer_book.specs.Slot.{IsSound};

use crate::known::{known_if, known_side};
use crate::table::set_each;
use adj_rib_out::{Entry, Rib};
use route_values::{Key, NoMemory, Side};

/// Copies all routes of a table to an empty one that sends them by this side, in the order of their places. The local
/// address has the same family in both. Where memory is wanting some of them stand there.
pub fn copy_routes(given: &Rib, table: &mut Rib, side: &Side) -> Result<(), NoMemory>
    requires given { IsSound given.now }
    requires empty { table.old ≡ empty side.now }
    requires alike { SendsAlike given.now side.now }
    ensures ok { OnOk result (Copies given.now table.old table.new) }
    ensures sound { IsSound table.new }
{
    let count = given.places();
    'places: for place in 0..count {
        copy_at(given, table, side, place)?;
    }
    Ok(())
}

// Copies the route at a place.
fn copy_at(given: &Rib, table: &mut Rib, side: &Side, place: usize) -> Result<(), NoMemory>
    requires given { IsSound given.now }
    requires sound { IsSound table.old }
    requires side { table.old.side ≡ side.now }
    requires alike { SendsAlike given.now side.now }
    ensures ok { OnOk result ((start : State) → CopiesTo given.now start table.old place
        → CopiesTo given.now start table.new (place + 1)) }
    ensures side { table.new.side ≡ side.now }
    ensures sound { IsSound table.new }
{
    // For the proof: each key has one place.
    let _places = given.places();
    let Some((key, entry)) = given.at(place) else {
        return Ok(());
    };
    copy_entry(table, side, key, entry)?;
    Ok(())
}

// Gives a key the route of an entry of another table.
fn copy_entry(table: &mut Rib, side: &Side, key: &Key, entry: Entry<'_>) -> Result<(), NoMemory>
    requires sound { IsSound table.old }
    requires side { table.old.side ≡ side.now }
    requires route { (other : ValueOfSide)
        × (family_of side.now.local ≡ family_of other.local)
        × IsRoute (family_of_key key.now) (sent entry.written.now other) }
    ensures ok { OnOk result (PutsAsked key.now (route_told entry.entry) table.old table.new) }
    ensures side { table.new.side ≡ side.now }
    ensures sound { IsSound table.new }
{
    // For the proof: the numbers of what is sent otherwise are in their types' ranges.
    known_side(side);
    known_if(entry.written.local_pref);
    let keys = [*key];
    let number = table.ready(&keys, entry.written)?;
    set_each(table, &keys, number, entry.owner);
    Ok(())
}
