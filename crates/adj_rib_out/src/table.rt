//! The table.

mod standing;

ghost use Rattle.std.specs.Prelude.{◌≡◌, ◌≤◌, ◌<◌, ◌+◌, ◌&&◌, false, not, length, if◌then◌else◌};
ghost use Rattle.std.specs.Prelude.{Some, None, IfOk, IsSome, IsTrue, OnErr, slice_index_or};
ghost use Rattle.std.specs.Option.{option_map};
ghost use Rattle.route_values.specs.declared.key.Key.{Key as ValueOfKey};
ghost use Rattle.adj_rib_out.specs.State.{is_ready, route_at, value_at, route_of};
ghost use Rattle.adj_rib_out.specs.Calls.{empty, Readies, ReadiesSome, Trims, Sets, Restarts};
ghost use Rattle.adj_rib_out.specs.Calls.{Refreshes};
ghost use Rattle.adj_rib_out.specs.Calls.{is_open, Freezes, Passes};
ghost use Rattle.adj_rib_out.specs.Nodes.{pair_at, next_of, nodes, is_node, is_node_row, is_kept};
ghost use Rattle.adj_rib_out.specs.Nodes.{AreApart};
ghost use Rattle.adj_rib_out.specs.Told.{route_told, next_told, items_left};
ghost use Rattle.batch_cutter.specs.Grouped.{AreGrouped};
ghost use Rattle.batch_cutter.specs.Items.{AreNumbered};

use crate::chosen::Chosen;
use crate::entry::{Entry, Owner, pair};
use crate::keys::Keys;
use crate::noting::{note_all, note_unless};
use crate::restart::show_all;
use crate::saying::{key_due, marker_due};
use crate::showing::{
    both, either, is_busy, is_chosen, is_kept_at, owes_marker, parity_of, shown_number, stands,
    unless,
};
use crate::uses::{exchange, give, release_all};
use crate::values::Values;
use batch_cutter::Due;
use route_values::{Attrs, Caps, Family, Key, NoMemory, Side};
use slot_batches::Slots;
use std::alloc::Global;
use std::hash::RandomState;
use std::marker::Model;

/// One neighbour's table, without a count of its nodes. At each place stands a key with its route and its slot, or
/// nothing. A route is a value's number; a slot's number is that of its wire attributes, and tells its family.
#[derive(Drop)]
pub struct Table {
    keys: Keys,
    routes: Vec<Option<Chosen>>,
    values: Values,
    slots: Slots,
    caps: Option<Caps>,
    begun: bool,
    ipv4_stale: bool,
    ipv6_stale: bool,
    ipv4_marker: bool,
    ipv6_marker: bool,
}

impl Model for Table {
    ghost use Rattle.adj_rib_out.specs.State.{State};
    ghost use Rattle.adj_rib_out.specs.Counts.{IsWhole};
    ghost use Rattle.adj_rib_out.specs.Kept.{parts_of, seen};

    ghost Value = { State };

    ghost view = { λ r. seen
        (parts_of r.keys.keys r.routes.items r.values.seen r.slots r.caps r.begun r.ipv4_stale
        r.ipv6_stale r.ipv4_marker r.ipv6_marker) };

    ghost invariant = { λ r. IsWhole
        (parts_of r.keys.keys r.routes.items r.values.seen r.slots r.caps r.begun r.ipv4_stale
        r.ipv6_stale r.ipv4_marker r.ipv6_marker) r.keys.idle r.values.routes r.values.uses };
}

impl Table {
    /// The empty table of a neighbour at which no session stands.
    pub fn new(alloc: Global, side: Side, hasher: RandomState) -> Self
        ensures { result ≡ empty side }
    {
        Table {
            keys: Keys::new(alloc, hasher),
            routes: Vec::new(alloc),
            values: Values::new(alloc, side, hasher),
            slots: Slots::new(alloc),
            caps: None,
            begun: false,
            ipv4_stale: false,
            ipv6_stale: false,
            ipv4_marker: false,
            ipv6_marker: false,
        }
    }

    /// Stands keys and a value ready, and answers the value's number. An equal value that stands ready already gives
    /// its number. Where memory is wanting, some of them may stand ready.
    pub fn ready(&mut self, keys: &[Key], written: &Attrs) -> Result<usize, NoMemory>
        ensures ok { IfOk result (λ number. Readies self.old self.new keys.now written.now number) }
        ensures err { OnErr result (ReadiesSome self.old self.new keys.now) }
        ensures nodes { nodes self.new ≡ nodes self.old }
    {
        let number = self.ready_value(written)?;
        self.ready_keys(keys)?;
        Ok(number)
    }

    /// Takes out the keys that stand ready and that neither the table, nor what was sent, nor the open batch has; and
    /// the values of no route.
    pub fn trim(&mut self)
        ensures trimmed { Trims self.old self.new }
        ensures nodes { nodes self.new ≡ nodes self.old }
    {
        self.trim_keys();
        self.trim_values();
    }

    /// Gives the key a route, with the value of this number. Key and value stand ready.
    pub fn set(&mut self, key: &Key, value: usize, owner: Owner)
        requires key { IsTrue (is_ready self.old key.now) }
        requires value { IsSome (value_at self.old value) }
        ensures set { Sets self.old self.new key.now
            (option_map (λ written. route_of self.old.side written owner)
            (value_at self.old value)) }
        ensures nodes { nodes self.new
            ≡ nodes self.old + (if is_node self.old key.now then 0 else 1) }
    {
        let Some(place) = self.keys.place_of(key) else {
            return;
        };
        let chosen = Some(Chosen { value, owner });
        let number = shown_number(&self.values, self.caps, key, chosen);
        give(&mut self.values, &mut self.routes, place, chosen);
        self.slots.show(place, number);
        self.keys.forget(place);
    }

    /// Takes the key's route out of the table. A key without one changes nothing.
    pub fn unset(&mut self, key: &Key)
        ensures set { Sets self.old self.new key.now None }
        ensures nodes { nodes self.new
            + (if is_node self.old key.now && not (is_kept self.old key.now) then 1 else 0)
            ≡ nodes self.old }
    {
        let Some(place) = self.keys.place_of(key) else {
            return;
        };
        give(&mut self.values, &mut self.routes, place, None);
        self.slots.show(place, parity_of(key.family()));
        note_unless(&mut self.keys, is_busy(&self.slots, place), place);
    }

    /// A session stands, on which nothing was sent.
    pub fn up(&mut self, caps: Caps)
        ensures restarts { Restarts self.old self.new (Some caps) }
        ensures nodes { nodes self.new ≤ nodes self.old }
    {
        release_all(&mut self.values, &self.slots);
        self.slots.reset();
        show_all(
            &self.keys,
            &self.routes,
            &self.values,
            caps,
            &mut self.slots,
        );
        note_all(&mut self.keys, &self.routes);
        self.caps = Some(caps);
        self.begun = false;
        self.ipv4_stale = false;
        self.ipv6_stale = false;
        self.ipv4_marker = false;
        self.ipv6_marker = false;
    }

    /// No session stands.
    pub fn down(&mut self)
        ensures restarts { Restarts self.old self.new None }
        ensures nodes { nodes self.new ≤ nodes self.old }
    {
        release_all(&mut self.values, &self.slots);
        self.slots.reset();
        note_all(&mut self.keys, &self.routes);
        self.caps = None;
        self.begun = false;
        self.ipv4_stale = false;
        self.ipv6_stale = false;
        self.ipv4_marker = false;
        self.ipv6_marker = false;
    }

    /// All routes of the family are to be sent again, by the next batch (RFC 2918). Without a session nothing changes.
    pub fn refresh(&mut self, family: Family)
        ensures refreshes { Refreshes self.old self.new family }
        ensures nodes { nodes self.new ≡ nodes self.old }
    {
        if self.caps.is_some() {
            self.slots.refresh(parity_of(family));
        }
    }

    /// Opens a batch with all that is owed, or none where nothing is.
    pub fn freeze(&mut self)
        requires { is_open self.old ≡ false }
        ensures freezes { Freezes self.old self.new }
        ensures nodes { nodes self.new ≡ nodes self.old }
    {
        let ipv4_again = either(self.slots.is_again(0), self.ipv4_stale);
        let ipv6_again = either(self.slots.is_again(1), self.ipv6_stale);
        let ipv4_marker = owes_marker(self.caps, self.begun, Family::Ipv4);
        let ipv6_marker = owes_marker(self.caps, self.begun, Family::Ipv6);
        self.slots.freeze();
        let opens = either(
            self.slots.front().is_some(),
            either(ipv4_marker, ipv6_marker),
        );
        self.begun = either(self.begun, opens);
        self.ipv4_stale = unless(ipv4_again, opens);
        self.ipv6_stale = unless(ipv6_again, opens);
        self.ipv4_marker = ipv4_marker;
        self.ipv6_marker = ipv6_marker;
    }

    /// What the open batch says next; Empty exactly where none is open. What is left is one batch.
    pub fn due(&self) -> Due<'_>
        ensures next { next_told result ≡ next_of self.now.left self.now.markers }
        ensures numbered { AreNumbered (items_left self.now) }
        ensures grouped { AreGrouped (items_left self.now) }
    {
        match self.slots.front() {
            Some(item) => key_due(
                item.value,
                self.keys.at(item.slot),
                self.values.attrs(item.value),
            ),
            None => marker_due(self.ipv4_marker, self.ipv6_marker),
        }
    }

    /// Moves past what is due: it was sent. Where no batch is open nothing changes. It answers whether a node is gone.
    pub fn sent(&mut self) -> bool
        ensures passes { Passes self.old self.new }
        ensures nodes { nodes self.new + (if result then 1 else 0) ≡ nodes self.old }
    {
        let Some(item) = self.slots.front() else {
            let ipv6 = both(self.ipv4_marker, self.ipv6_marker);
            self.ipv4_marker = false;
            self.ipv6_marker = ipv6;
            return false;
        };
        let _places = self.routes.len();
        let was = stands(&self.routes, &self.slots, item.slot);
        exchange(&mut self.values, self.slots.sent(item.slot), item.value);
        self.slots.pass();
        let still = stands(&self.routes, &self.slots, item.slot);
        note_unless(&mut self.keys, still, item.slot);
        unless(was, still)
    }

    /// What the session that stands carries, or None where none stands.
    pub fn caps(&self) -> Option<Caps>
        ensures { result ≡ option_map (λ session. session.caps) self.now.session }
    {
        self.caps
    }

    /// The route of a key, or None where the table has none.
    pub fn get(&self, key: &Key) -> Option<Entry<'_>>
        ensures { option_map route_told result ≡ route_at self.now key.now }
    {
        match self.keys.place_of(key) {
            Some(place) => self.values.at(&self.routes, place),
            None => None,
        }
    }

    /// The number that the places of all pairs are below.
    pub fn places(&self) -> usize
        ensures places { result ≡ length self.now.rows }
        ensures apart { AreApart self.now.rows }
        ensures ready { (key : ValueOfKey) → IsTrue (is_node self.now key)
            → IsTrue (is_ready self.now key) }
    {
        self.keys.len()
    }

    /// The pair that stands at a place, or None where none does.
    pub fn at(&self, place: usize) -> Option<(&Key, Entry<'_>)>
        ensures { option_map (λ pair. (pair.0.now, route_told pair.1)) result
            ≡ pair_at self.now place }
    {
        pair(self.keys.at(place), self.values.at(&self.routes, place))
    }

    /// Whether the key would be a node without the table.
    pub fn is_kept(&self, key: &Key) -> bool
        ensures { result ≡ is_kept self.now key.now }
    {
        match self.keys.place_of(key) {
            Some(place) => is_kept_at(&self.slots, place),
            None => false,
        }
    }

    /// Whether the key is a node.
    pub fn is_node(&self, key: &Key) -> bool
        ensures { result ≡ is_node self.now key.now }
    {
        match self.keys.place_of(key) {
            Some(place) => either(
                is_chosen(&self.routes, place),
                is_kept_at(&self.slots, place),
            ),
            None => false,
        }
    }

    /// Whether the key at a place is a node; false where none stands.
    pub fn is_node_at(&self, place: usize) -> bool
        requires { place < length self.now.rows }
        ensures { result ≡ is_node_row self.now (slice_index_or self.now.rows place None) }
    {
        stands(&self.routes, &self.slots, place)
    }
}
