//! How many route nodes a slot has, or would have.
ghost use Rattle.std.specs.List.{IsDistinct};
ghost use Rattle.std.specs.Map.{keys_of};
ghost use Rattle.std.specs.Prelude.{◌≡◌, ◌+◌, ◌<◌, ◌≤◌, ◌^◌, ◌∷◌, ◌||◌, List, None, length, not};
ghost use Rattle.std.specs.Prelude.{true, false};
ghost use Rattle.std.specs.Prelude.{if◌then◌else◌, slice_index_or};
ghost use Rattle.route_values.specs.declared.attrs.Attrs.{Attrs as Written};
ghost use Rattle.route_values.specs.declared.settings.Settings.{Settings};
ghost use Rattle.route_values.specs.Key.{same_key};
ghost use Rattle.adj_rib_out.specs.Nodes.{nodes, is_node};
ghost use Rattle.peer_history.specs.Cuts.{IsLegal};
ghost use Rattle.peer_history.specs.Keys.{is_named};
ghost use Rattle.peer_history.specs.Ordered.{node_keys};
ghost use Rattle.peer_history.specs.Sessions.{live};
ghost use Rattle.peer_history.specs.Steps.{Static, Step};
ghost use Rattle.peer_history.specs.Steps.Step.{Announced, Kept};
ghost use Rattle.peer_book.specs.Nodes.{AreFirst, gained, is_lost_row, lost, new_keys};
ghost use Rattle.peer_book.specs.Numbers.{AreNumbered};
ghost use Rattle.peer_book.specs.Slot.{live_caps};
ghost use Rattle.peer_book.specs.Stands.{Stands};
ghost use Rattle.peer_book.specs.Statics.{StandsWithout};

use crate::keeping::is_gone;
use crate::numbers::Numbers;
use crate::slot::PeerSlot;
use adj_rib_out::Rib;
use peer_history::{nodes_are_listed, settled};
use route_values::Key;

impl PeerSlot {
    /// How many route nodes the slot has: keys that its neighbour is to have, that its live session was sent, or that
    /// the target of the open batch has.
    pub fn nodes(&self) -> usize
        ensures value { result ≡ nodes self.now.table }

        // A slot that stands for a history has its nodes, also one whose neighbour is to be exchanged for another.
        ensures told { (steps : List Step) → IsLegal steps → Stands steps self.now
            → result ≡ length (node_keys steps) }
        ensures without { (steps : List Step) → IsLegal steps → StandsWithout steps self.now
            → live steps ≡ None → live_caps self.now ≡ None → result ≡ length (node_keys steps) }
    {
        // For the proof: nodes are listed, and what isn't left was sent.
        nodes_are_listed();
        settled();
        self.table.nodes()
    }

    /// How many route nodes an announcement of these keys would add. Keys that ascend are looked at once each; else
    /// those before each key that is no node yet are looked through.
    pub fn adds(&self, keys: &[Key]) -> usize
        ensures value { result ≡ length (new_keys (is_node self.now.table) keys.now) }
        ensures told { (steps : List Step) (written : Written) → IsLegal steps
            → Stands steps self.now
            → length (node_keys (Announced keys.now written ∷ steps))
            ≡ length (node_keys steps) + result }
    {
        // For the proof: nodes are listed, and what isn't left was sent.
        nodes_are_listed();
        settled();
        // For the proof: each node has one place.
        let _nodes = self.table.nodes();
        count_new(&self.table, keys)
    }

    /// How many route nodes the slot would have behind `keep` with these numbers.
    pub fn nodes_kept(&self, numbers: &Numbers) -> usize
        requires { nodes self.now.table + length numbers.now < 2 ^ 64 }
        ensures value { result + lost numbers.now self.now.table
            ≡ nodes self.now.table + gained numbers.now self.now.table }
        ensures told { (steps : List Step) (settings : Settings) (statics : List Static)
            → IsLegal steps → Stands steps self.now → AreNumbered self.now.table statics numbers.now
            → result ≡ length (node_keys (Kept settings statics ∷ steps)) }
    {
        // For the proof: nodes are listed, and what isn't left was sent.
        nodes_are_listed();
        settled();
        let lost = count_lost(&self.table, numbers);
        let gained = count_gained(&self.table, numbers);
        self.table.nodes() - lost + gained
    }
}

// How many of the keys are no nodes of a table, each counted once.
fn count_new(table: &Rib, keys: &[Key]) -> usize
    ensures { result ≡ length (new_keys (is_node table.now) keys.now) }
{
    let ascending = are_ascending(keys);
    let mut count = 0;
    'keys: for place in 0..keys.len() {
        let new = is_new(table, &keys[..place], &keys[place], ascending);
        let next = more(count, new, keys.len());
        count = next;
    }
    count
}

// How many keys are no nodes any longer where just the static routes with numbers stay.
fn count_lost(table: &Rib, numbers: &Numbers) -> usize
    ensures { result ≡ lost numbers.now table.now }
{
    let end = table.places();
    let mut count = 0;
    'places: for place in 0..end {
        let one = is_lost_at(table, numbers, place);
        let next = more(count, one, end);
        count = next;
    }
    count
}

// Whether the key at a place is such a one.
fn is_lost_at(table: &Rib, numbers: &Numbers, place: usize) -> bool
    ensures { result
        ≡ is_lost_row numbers.now table.now (slice_index_or table.now.rows place None) }
{
    // For the proof: each key has one place.
    let _places = table.places();
    let Some((key, entry)) = table.at(place) else {
        return false;
    };
    is_gone(numbers, key, entry.owner) && !table.is_kept(key)
}

// How many keys with numbers are no nodes yet.
fn count_gained(table: &Rib, numbers: &Numbers) -> usize
    ensures value { result ≡ gained numbers.now table.now }
    ensures few { result ≤ length numbers.now }
    ensures apart { IsDistinct same_key (keys_of numbers.now) }
{
    let end = numbers.len();
    let mut count = 0;
    'keys: for place in 0..end {
        let one = !table.is_node(numbers.key_at(place));
        let next = more(count, one, end);
        count = next;
    }
    count
}

// The count with one more, where there is one. It is below a number yet.
fn more(count: usize, one: bool, most: usize) -> usize
    requires { count < most }
    ensures { result ≡ count + (if one then 1 else 0) }
{
    if one {
        return count + 1;
    }
    count
}

// Whether each key is greater than the one before it, as where a helper names them in their order. Then none is named
// before.
fn are_ascending(keys: &[Key]) -> bool
    ensures { result ≡ true → AreFirst keys.now }
{
    'keys: for place in 1..keys.len() {
        if !keys[place - 1].cmp(&keys[place]).is_lt() {
            return false;
        }
    }
    true
}

// Whether a key is no node, and isn't among those before it, which aren't looked through where keys ascend.
fn is_new(table: &Rib, before: &[Key], key: &Key, ascending: bool) -> bool
    requires { ascending ≡ true → is_named before.now key.now ≡ false }
    ensures { result ≡ not (is_node table.now key.now || is_named before.now key.now) }
{
    !table.is_node(key) && (ascending || !is_named(before, key))
}

// Whether a key is among these.
fn is_named(keys: &[Key], key: &Key) -> bool
    ensures { result ≡ is_named keys.now key.now }
{
    'keys: for other in keys {
        if other.is_same(key) {
            return true;
        }
    }
    false
}
