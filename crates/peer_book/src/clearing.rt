//! Takes all routes out of a table.
ghost use Rattle.std.specs.Prelude.{◌≡◌, ◌+◌};
ghost use Rattle.std.specs.Option.{option_map};
ghost use Rattle.adj_rib_out.specs.State.{State};
ghost use Rattle.adj_rib_out.specs.Nodes.{pair_at};
ghost use Rattle.peer_book.specs.Clearing.{UnsetsTo, UnsetsAll};

use adj_rib_out::Rib;
use route_values::Key;

/// Takes all routes out of the table. It takes no memory.
pub fn unset_all(table: &mut Rib)
    ensures { UnsetsAll table.old table.new }
{
    let count = table.places();
    'places: for place in 0..count {
        unset_at(table, place);
    }
}

// Takes the route at a place out of the table.
fn unset_at(table: &mut Rib, place: usize)
    ensures { (start : State) → UnsetsTo start table.old place
        → UnsetsTo start table.new (place + 1) }
{
    // For the proof: each key has one place.
    let _places = table.places();
    let Some(key) = key_at(table, place) else {
        return;
    };
    table.unset(&key);
}

// The key of the route at a place.
fn key_at(table: &Rib, place: usize) -> Option<Key>
    ensures { result ≡ option_map (λ pair. pair.0) (pair_at table.now place) }
{
    match table.at(place) {
        Some((key, _)) => Some(*key),
        None => None,
    }
}
