//! The table with the count of its nodes.

ghost use Rattle.std.specs.Prelude.{◌≡◌, ◌≤◌, ◌+◌, ◌<◌, ◌&&◌, ℕ, false, not, length, if◌then◌else◌};
ghost use Rattle.std.specs.Prelude.{Some, None, IfOk, IsSome, IsTrue, OnErr};
ghost use Rattle.std.specs.Option.{option_map};
ghost use Rattle.route_values.specs.declared.key.Key.{Key as ValueOfKey};
ghost use Rattle.adj_rib_out.specs.State.{is_ready, route_at, value_at, route_of};
ghost use Rattle.adj_rib_out.specs.Calls.{empty, Readies, ReadiesSome, Trims, Sets, Restarts};
ghost use Rattle.adj_rib_out.specs.Calls.{Refreshes};
ghost use Rattle.adj_rib_out.specs.Calls.{is_open, Freezes, Passes};
ghost use Rattle.adj_rib_out.specs.Nodes.{pair_at, next_of, nodes, is_node, is_kept, AreApart};
ghost use Rattle.adj_rib_out.specs.Told.{route_told, next_told, items_left};

use crate::entry::{Entry, Owner};
use crate::showing::unless;
use crate::table::Table;
use batch_cutter::{Batch, Due};
use route_values::{Attrs, Caps, Family, Key, NoMemory, Side};
use std::alloc::Global;
use std::hash::RandomState;
use std::marker::Model;

/// One neighbour's table: routes by their keys, what its session was sent of them, and what is left of the open batch.
/// Keys and values stand ready before they are used; what stands ready is taken out by `trim` alone.
///
/// # Order
///
/// Each pair of the table stands at one place. A batch gives withdrawals first, IPv4 before IPv6, and then
/// announcements in groups of one family and value.
#[derive(Drop)]
pub struct Rib {
    table: Table,
    // How many nodes the table has, so that they are told without a look at each key.
    count: usize,
}

impl Model for Rib {
    ghost use Rattle.adj_rib_out.specs.State.{State};
    ghost use Rattle.adj_rib_out.specs.Nodes.{nodes};
    ghost use Rattle.std.specs.Prelude.{◌≡◌};

    ghost Value = { State };

    ghost view = { λ rib. rib.table };

    ghost invariant = { λ rib. rib.count ≡ nodes rib.table };
}

impl Rib {
    /// The empty table of a neighbour at which no session stands. It hashes by `hasher`, and takes its memory from
    /// `alloc`, in `ready` alone.
    pub fn new(alloc: Global, side: Side, hasher: RandomState) -> Self
        ensures { result ≡ empty side }
    {
        Rib {
            table: Table::new(alloc, side, hasher),
            count: 0,
        }
    }

    /// Stands keys and a value ready, and answers the value's number. An equal value that stands ready already gives
    /// its number. Where memory is wanting, some of them may stand ready.
    pub fn ready(&mut self, keys: &[Key], written: &Attrs) -> Result<usize, NoMemory>
        ensures ok { IfOk result (λ number. Readies self.old self.new keys.now written.now number) }
        ensures err { OnErr result (ReadiesSome self.old self.new keys.now) }
        ensures nodes { nodes self.new ≡ nodes self.old }
    {
        self.table.ready(keys, written)
    }

    /// Takes out the keys that stand ready and that neither the table, nor what was sent, nor the open batch has; and
    /// the values of no route.
    pub fn trim(&mut self)
        ensures trimmed { Trims self.old self.new }
        ensures nodes { nodes self.new ≡ nodes self.old }
    {
        self.table.trim();
    }

    /// Gives the key a route, with the value of this number. Key and value stand ready.
    pub fn set(&mut self, key: &Key, value: usize, owner: Owner)
        requires key { IsTrue (is_ready self.old key.now) }
        requires value { IsSome (value_at self.old value) }
        ensures set { Sets self.old self.new key.now
            (option_map (λ written. route_of self.old.side written owner)
            (value_at self.old value)) }
        ensures nodes { nodes self.new
            ≡ nodes self.old + (if is_node self.old key.now then 0 else 1) }
    {
        let node = self.table.is_node(key);
        self.table.set(key, value, owner);
        let count = more(self.count, node, self.table.places());
        self.count = count;
    }

    /// Takes the key's route out of the table. A key without one changes nothing.
    pub fn unset(&mut self, key: &Key)
        ensures set { Sets self.old self.new key.now None }
        ensures nodes { nodes self.new
            + (if is_node self.old key.now && not (is_kept self.old key.now) then 1 else 0)
            ≡ nodes self.old }
    {
        let lone = unless(self.table.is_node(key), self.table.is_kept(key));
        self.table.unset(key);
        let count = fewer(self.count, lone);
        self.count = count;
    }

    /// A session stands, on which nothing was sent.
    pub fn up(&mut self, caps: Caps)
        ensures restarts { Restarts self.old self.new (Some caps) }
        ensures nodes { nodes self.new ≤ nodes self.old }
    {
        self.table.up(caps);
        self.count = scan(&self.table);
    }

    /// No session stands.
    pub fn down(&mut self)
        ensures restarts { Restarts self.old self.new None }
        ensures nodes { nodes self.new ≤ nodes self.old }
    {
        self.table.down();
        self.count = scan(&self.table);
    }

    /// All routes of the family are to be sent again, by the next batch (RFC 2918). Without a session nothing changes.
    pub fn refresh(&mut self, family: Family)
        ensures refreshes { Refreshes self.old self.new family }
        ensures nodes { nodes self.new ≡ nodes self.old }
    {
        self.table.refresh(family);
    }

    /// Opens a batch with all that is owed, or none where nothing is.
    pub fn freeze(&mut self)
        requires { is_open self.old ≡ false }
        ensures freezes { Freezes self.old self.new }
        ensures nodes { nodes self.new ≡ nodes self.old }
    {
        self.table.freeze();
    }

    /// What the open batch says next; Empty exactly where none is open.
    pub fn due(&self) -> Due<'_>
        ensures { next_told result ≡ next_of self.now.left self.now.markers }
    {
        self.table.due()
    }

    /// Moves past what is due: it was sent. Where no batch is open nothing changes.
    pub fn sent(&mut self)
        ensures passes { Passes self.old self.new }
        ensures nodes { nodes self.new ≤ nodes self.old }
    {
        let gone = self.table.sent();
        let count = fewer(self.count, gone);
        self.count = count;
    }

    /// What the session that stands carries, or None where none stands.
    pub fn caps(&self) -> Option<Caps>
        ensures { result ≡ option_map (λ session. session.caps) self.now.session }
    {
        self.table.caps()
    }

    /// The route of a key, or None where the table has none.
    pub fn get(&self, key: &Key) -> Option<Entry<'_>>
        ensures { option_map route_told result ≡ route_at self.now key.now }
    {
        self.table.get(key)
    }

    /// The number that the places of all pairs are below.
    pub fn places(&self) -> usize
        ensures places { result ≡ length self.now.rows }
        ensures apart { AreApart self.now.rows }
    {
        self.table.places()
    }

    /// The pair that stands at a place, or None where none does.
    pub fn at(&self, place: usize) -> Option<(&Key, Entry<'_>)>
        ensures { option_map (λ pair. (pair.0.now, route_told pair.1)) result
            ≡ pair_at self.now place }
    {
        self.table.at(place)
    }

    /// How many nodes there are: keys that the table has, that the session was sent, or that the open batch is still
    /// to announce.
    pub fn nodes(&self) -> usize
        ensures nodes { result ≡ nodes self.now }
        ensures apart { AreApart self.now.rows }
        ensures ready { (key : ValueOfKey) → IsTrue (is_node self.now key)
            → IsTrue (is_ready self.now key) }
    {
        self.table.places();
        self.count
    }

    /// Whether the key is a node.
    pub fn is_node(&self, key: &Key) -> bool
        ensures { result ≡ is_node self.now key.now }
    {
        self.table.is_node(key)
    }

    /// Whether the key would be a node without the table.
    pub fn is_kept(&self, key: &Key) -> bool
        ensures { result ≡ is_kept self.now key.now }
    {
        self.table.is_kept(key)
    }
}

impl Batch for Rib {
    ghost left = { λ rib. items_left rib };

    ghost passes = { λ old item new. Passes old new };

    fn due(&self) -> Due<'_> {
        self.table.due()
    }

    fn sent(&mut self) {
        let gone = self.table.sent();
        let count = fewer(self.count, gone);
        self.count = count;
    }
}

// The count with one node more, where a key was none. There are no more than places.
fn more(count: usize, was: bool, places: usize) -> usize
    requires { count + (if was then 0 else 1) ≤ places }
    ensures { result ≡ count + (if was then 0 else 1) }
{
    if was {
        return count;
    }
    count + 1
}

// The count with one node fewer, where one is gone.
fn fewer(count: usize, gone: bool) -> usize
    requires { (if gone then 1 else 0) ≤ count }
    ensures { result + (if gone then 1 else 0) ≡ count }
{
    if gone {
        return count - 1;
    }
    count
}

// How many nodes a table has, by a look at each place.
fn scan(table: &Table) -> usize
    ensures { result ≡ nodes table.now }
{
    let end = table.places();
    let mut count = 0;
    'rows: for place in 0..end {
        let next = more(count, !table.is_node_at(place), end);
        count = next;
    }
    count
}
