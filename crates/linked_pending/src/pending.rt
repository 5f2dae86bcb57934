//! Groups of nodes that wait, and groups of nodes that are frozen.

ghost use Rattle.std.specs.Prelude.{◌≡◌, ◌↔◌, ℕ, ◌<◌, ◌≤◌, ◌+◌, ◌*◌, ◌^◌, [], false, None, Some};
ghost use Rattle.std.specs.Prelude.{IfSome, IsNone, IsErr, IsOk, OnErr, OnOk, length, max};
ghost use Rattle.linked_pending.specs.Links.{link};
ghost use Rattle.linked_pending.specs.Group.{with_node, without_node, group_of, front_of};
ghost use Rattle.linked_pending.specs.Layout.{has_node, opened, parse};
ghost use Rattle.linked_pending.specs.Pending.{IsQueue, IsOrderly};

use crate::chain::{Chain, grow};
use answers::NoMemory;
use std::alloc::Global;
use std::marker::Model;
use std::mem;

// The greatest room: a node and a group have a place each, and with the chain's own there are as many places as a link
// of 32 bits can name.
const MOST: usize = u32::MAX as usize / 2;

/// Where a node stands: in which group, and which node it is.
#[derive(Clone, Copy, Debug, PartialEq, Eq)]
pub struct Place {
    /// The group's number.
    pub group: usize,
    /// The node's number.
    pub node: usize,
}

/// Two lists of groups, one of groups that wait and one of groups that are frozen. A group is a number with the list of
/// its nodes; an empty group is in neither list, but one number may name a group in each. A node is a number, and
/// stands at most once in the two lists. The lists have a room: their nodes and groups are numbers below it.
///
/// # Order
///
/// The groups stand in the order in which they began to wait, and the nodes of a group in the order in which they
/// joined. `freeze` keeps both orders.
#[derive(Drop)]
pub struct Pending {
    waiting: Chain,
    frozen: Chain,
    groups: Vec<u32>,
}

impl Model for Pending {
    ghost use Rattle.std.specs.Prelude.{length};
    ghost use Rattle.linked_pending.specs.Layout.{parse};
    ghost use Rattle.linked_pending.specs.Pending.{Queues, AreQueues};

    ghost Value = { Queues };

    ghost view = { λ lists. record {
      room = length lists.groups.items;
      waiting = parse lists.waiting.items;
      frozen = parse lists.frozen.items;
    } };

    ghost invariant = { λ lists. AreQueues lists.groups.items lists.waiting lists.frozen };
}

impl Pending {
    /// Two empty lists, without room. They take their memory from `alloc`, in `reserve` alone.
    pub fn new(alloc: Global) -> Self
        ensures { result ≡ record { room = 0; waiting = []; frozen = [] } }
    {
        Pending {
            waiting: Chain::new(alloc),
            frozen: Chain::new(alloc),
            groups: Vec::new(alloc),
        }
    }

    /// How many nodes and how many groups there is room for. Its clauses tell besides all that holds of each such pair
    /// of lists.
    pub fn room(&self) -> usize
        ensures room { result ≡ self.now.room }
        ensures countable { self.now.room < 2 ^ 63 }
        ensures orderly { IsOrderly self.now }
    {
        self.groups.len()
    }

    /// The first node of the first frozen group, or None where nothing is frozen.
    pub fn front(&self) -> Option<Place>
        ensures first { result ≡ front_of self.now.frozen }
        ensures none { IsNone result ↔ (self.now.frozen ≡ []) }
        ensures member { IfSome result (λ place.
            group_of place.node self.now.frozen ≡ Some place.group) }
    {
        if self.frozen.room() == 0 {
            return None;
        }
        let first = self.frozen.after(0);
        if first == 0 {
            return None;
        }
        let node = first / 2;
        Some(Place {
            group: self.groups[node] as usize,
            node,
        })
    }

    /// The group in which the node stands frozen, or None where it isn't frozen.
    pub fn frozen_group(&self, node: usize) -> Option<usize>
        ensures { result ≡ group_of node self.now.frozen }
    {
        if node < self.groups.len() && self.frozen.contains(2 * node + 1) {
            Some(self.groups[node] as usize)
        } else {
            None
        }
    }

    /// Makes room for the nodes below `nodes` and the groups below `groups`; the room is the greater of the two. Where
    /// it fails the lists are as before; it fails at 2^31 and more, as each node and each group has a place of its own,
    /// and a place is a number of 32 bits.
    pub fn reserve(&mut self, nodes: usize, groups: usize) -> Result<(), NoMemory>
        ensures ok { OnOk result (self.new ≡ record self.old {
          room = max self.old.room (max nodes groups);
        }) }
        ensures err { OnErr result (self.new ≡ self.old) }
        ensures enough { max nodes groups ≤ self.old.room → IsOk result }
        ensures uncountable { 2 ^ 63 ≤ max nodes groups → IsErr result }
    {
        let len = self.groups.len();
        let room = nodes.max(groups);
        if room > MOST {
            return Err(NoMemory);
        }
        if len < room {
            self.waiting.reserve(2 * room + 1)?;
            self.frozen.reserve(2 * room + 1)?;
            self.groups.reserve(room - len)?;
            grow(&mut self.groups, len, room);
        }
        Ok(())
    }

    /// Puts a node at the end of a group that waits. A group without nodes goes to the end of the list of groups.
    pub fn join(&mut self, group: usize, node: usize)
        requires group { group < self.old.room }
        requires node { node < self.old.room }
        requires not_waiting { group_of node self.old.waiting ≡ None }
        requires not_frozen { group_of node self.old.frozen ≡ None }
        ensures { self.new ≡ record self.old { waiting = with_node group node self.old.waiting } }
    {
        // The place is borrowed before the cast, as that tells the proof that the group is below the room.
        let place = &mut self.groups[node];
        *place = group as u32;
        put(&mut self.waiting, &self.groups, node);
    }

    /// Takes a node out of its group, whether that waits or is frozen, and the group out of its list where the node was
    /// its last. A node that is in no group changes nothing.
    pub fn leave(&mut self, node: usize)
        ensures left { self.new ≡ record self.old {
          waiting = without_node node self.old.waiting;
          frozen = without_node node self.old.frozen;
        } }
        ensures gone_waiting { group_of node self.new.waiting ≡ None }
        ensures gone_frozen { group_of node self.new.frozen ≡ None }

        // Where the node isn't in a list, that list stays.
        ensures not_waiting { group_of node self.old.waiting ≡ None
            → self.new.waiting ≡ self.old.waiting }
        ensures not_frozen { group_of node self.old.frozen ≡ None
            → self.new.frozen ≡ self.old.frozen }
    {
        if node < self.groups.len() {
            take_out(&mut self.waiting, &self.groups, node);
            take_out(&mut self.frozen, &self.groups, node);
        }
    }

    /// Freezes each group that waits, in order, where nothing is frozen. Then nothing waits.
    pub fn freeze(&mut self)
        requires { self.old.frozen ≡ [] }
        ensures { self.new ≡ record self.old { waiting = []; frozen = self.old.waiting } }
    {
        mem::swap(&mut self.waiting, &mut self.frozen);
    }
}

// Puts a node that isn't in the chain at the end of the group that the table gives it.
fn put(chain: &mut Chain, groups: &[u32], node: usize)
    requires queue { IsQueue groups.now chain.old }
    requires fits { 2 * length groups.now < 2 ^ 32 }
    requires node { node < length groups.now }
    requires group { link groups.now node < length groups.now }
    requires absent { has_node node (parse chain.old.items) ≡ false }
    ensures queue { IsQueue groups.now chain.new }
    ensures items { parse chain.new.items
        ≡ with_node (link groups.now node) node (parse chain.old.items) }
{
    let end = 2 * groups[node] as usize + 2;
    open_group(chain, end);
    chain.insert_before(end, 2 * node + 1);
}

// Puts a group's end at the chain's end, where it isn't in the chain.
fn open_group(chain: &mut Chain, end: usize)
    requires item { 0 < end }
    requires room { end < chain.old.room }
    ensures { chain.new ≡ record chain.old { items = opened end chain.old.items } }
{
    if !chain.contains(end) {
        chain.insert_before(0, end);
    }
}

// Takes a node out of the chain, where it is in it, and its group's end where it was the last.
fn take_out(chain: &mut Chain, groups: &[u32], node: usize)
    requires queue { IsQueue groups.now chain.old }
    requires fits { 2 * length groups.now < 2 ^ 32 }
    requires node { node < length groups.now }
    ensures queue { IsQueue groups.now chain.new }
    ensures items { parse chain.new.items ≡ without_node node (parse chain.old.items) }
{
    if !chain.contains(2 * node + 1) {
        return;
    }
    chain.remove(2 * node + 1);
    let end = 2 * groups[node] as usize + 2;
    if chain.before(end) % 2 == 0 {
        chain.remove(end);
    }
}
