//! What is asked of a neighbour slot.
ghost use Rattle.std.specs.Prelude.{◌≡◌, List, length};
ghost use Rattle.std.specs.Option.{option_map};
ghost use Rattle.adj_rib_out.specs.Nodes.{pair_at, AreApart};
ghost use Rattle.adj_rib_out.specs.State.{route_at};
ghost use Rattle.adj_rib_out.specs.Told.{route_told};
ghost use Rattle.peer_history.specs.Steps.{Step};
ghost use Rattle.peer_history.specs.Table.{settings_in, want};
ghost use Rattle.peer_book.specs.Stands.{asked, Stands};

use crate::slot::PeerSlot;
use adj_rib_out::Entry;
use route_values::{Key, Settings};

impl PeerSlot {
    /// The settings of the neighbour in the slot, or None where none is in it.
    pub fn settings(&self) -> Option<Settings>
        ensures value { result ≡ self.now.settings }
        ensures told { (steps : List Step) → Stands steps self.now → result ≡ settings_in steps }
    {
        self.settings
    }

    /// The route that the neighbour is to have of a key, or None where it is to have none.
    pub fn route(&self, key: &Key) -> Option<Entry<'_>>
        ensures value { option_map route_told result ≡ route_at self.now.table key.now }
        ensures told { (steps : List Step) → Stands steps self.now
            → option_map asked (option_map route_told result) ≡ want steps key.now }
    {
        self.table.get(key)
    }

    /// The number that the places of all routes are below. Each route stands at one place.
    pub fn places(&self) -> usize
        ensures places { result ≡ length self.now.table.rows }
        ensures apart { AreApart self.now.table.rows }
    {
        self.table.places()
    }

    /// The key and the route at a place, or None where none stands there.
    pub fn at(&self, place: usize) -> Option<(&Key, Entry<'_>)>
        ensures { option_map (λ pair. (pair.0.now, route_told pair.1)) result
            ≡ pair_at self.now.table place }
    {
        self.table.at(place)
    }
}
