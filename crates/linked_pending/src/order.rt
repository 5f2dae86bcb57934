//! A list of nodes, each at most once.

ghost use Rattle.std.specs.Prelude.{◌≡◌, ◌↔◌, ℕ, ◌<◌, ◌≤◌, ◌^◌, ◌∷◌, ◌++◌, [], nat_eq, All};
ghost use Rattle.std.specs.Prelude.{Contains, IsNone, IsErr, IsOk, OnErr, OnOk, max, slice_get};
ghost use Rattle.std.specs.List.{IsDistinct};
ghost use Rattle.linked_pending.specs.Listing.{without, next_in};
ghost use Rattle.linked_pending.specs.Order.{node_at};

use crate::chain::Chain;
use answers::NoMemory;
use std::alloc::Global;
use std::marker::Model;

/// A list of nodes. A node is a number, and stands at most once. The list has a room: the nodes that it can hold are
/// those below it.
///
/// # Order
///
/// The nodes stand in the order in which they were pushed. One that was removed and is pushed again is the last.
#[derive(Drop)]
pub struct Order {
    chain: Chain,
}

impl Model for Order {
    ghost use Rattle.std.specs.Prelude.{◌-◌};
    ghost use Rattle.linked_pending.specs.Listing.{Listing};
    ghost use Rattle.linked_pending.specs.Order.{nodes_at, IsOrder};

    ghost Value = { Listing };

    ghost view = { λ order. record {
      room = order.chain.room - 1;
      items = nodes_at order.chain.items;
    } };

    ghost invariant = { λ order. IsOrder order.chain };
}

impl Order {
    /// The empty list, without room for a node. It takes its memory from `alloc`, in `reserve` alone.
    pub fn new(alloc: Global) -> Self
        ensures { result ≡ record { room = 0; items = [] } }
    {
        Order {
            chain: Chain::new(alloc),
        }
    }

    /// How many nodes there is room for. Its clauses tell besides all that holds of each list.
    pub fn room(&self) -> usize
        ensures room { result ≡ self.now.room }
        ensures countable { self.now.room < usize.MAX }
        ensures distinct { IsDistinct nat_eq self.now.items }
        ensures within { All (λ node. node < self.now.room) self.now.items }
    {
        self.chain.room().saturating_sub(1)
    }

    /// The first node of the list, or None where the list is empty.
    pub fn first(&self) -> Option<usize>
        ensures first { result ≡ slice_get self.now.items 0 }
        ensures none { IsNone result ↔ (self.now.items ≡ []) }
    {
        if self.room() == 0 {
            return None;
        }
        node_of(self.chain.after(0))
    }

    /// The node behind this one, or None where it is the last or isn't in the list.
    pub fn after(&self, node: usize) -> Option<usize>
        ensures { result ≡ next_in node self.now.items }
    {
        if node >= self.room() || !self.chain.contains(node + 1) {
            return None;
        }
        node_of(self.chain.after(node + 1))
    }

    /// Makes room for the nodes below `nodes`. Where it fails the list is as before; it fails at 2^32 nodes and more,
    /// as the list needs a place besides theirs, and a place is a number of 32 bits.
    pub fn reserve(&mut self, nodes: usize) -> Result<(), NoMemory>
        ensures ok { OnOk result (self.new ≡ record self.old { room = max self.old.room nodes }) }
        ensures err { OnErr result (self.new ≡ self.old) }
        ensures enough { nodes ≤ self.old.room → IsOk result }
        ensures uncountable { nodes ≡ usize.MAX → IsErr result }
    {
        if nodes <= self.room() {
            return Ok(());
        }
        if nodes == usize::MAX {
            return Err(NoMemory);
        }
        self.chain.reserve(nodes + 1)
    }

    /// Puts a node at the list's end.
    pub fn push(&mut self, node: usize)
        requires room { node < self.old.room }
        requires absent { ¬ Contains self.old.items node }
        ensures { self.new ≡ record self.old { items = self.old.items ++ node ∷ [] } }
    {
        self.chain.insert_before(0, node + 1);
    }

    /// Takes the node out of the list. A node that isn't in it changes nothing.
    pub fn remove(&mut self, node: usize)
        ensures removed { self.new ≡ record self.old { items = without node self.old.items } }
        ensures absent { ¬ Contains self.old.items node → self.new ≡ self.old }
    {
        if node < self.room() {
            self.chain.remove(node + 1);
        }
    }
}

// The node that is kept at a place.
fn node_of(place: usize) -> Option<usize>
    ensures { result ≡ node_at place }
{
    if place == 0 { None } else { Some(place - 1) }
}
