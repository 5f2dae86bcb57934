//! How many route nodes there would be behind a reload.
ghost use Rattle.std.specs.Prelude.{◌≡◌, ◌+◌, ℕ, List, IfSome, Option as Maybe, length};
ghost use Rattle.config_model.specs.declared.sections.Neighbor.{Neighbor as Section};
ghost use Rattle.config_model.specs.Limits.{max_peers};
ghost use Rattle.peer_history.specs.Steps.{Step};
ghost use Rattle.book_core.specs.Changing.{IsPlanned};
ghost use Rattle.book_core.specs.Counting.{nodes_behind, nodes_below};
ghost use Rattle.book_core.specs.Counting.{AreTold, IsTold, NodesKept};
ghost use Rattle.book_core.specs.Planning.{ArePlanned};

use crate::changing::Change;
use crate::peering::Peering;
use config_model::MAX_PEERS;
use peer_book::{Numbers, PeerSlot};

/// How many route nodes there are at most, over all neighbours.
pub const MAX_NODES: u64 = 4_194_304;

/// How many route nodes all slots have together behind what is planned for them. None where that is no number of 64
/// bits. It takes no memory.
pub fn count_nodes(peers: &[Peering], changes: &[Change]) -> Option<u64>
    requires peers { length peers.now ≡ max_peers }
    requires changes { length changes.now ≡ max_peers }
    ensures { IfSome result (λ nodes. (after : ℕ → Maybe Section) (steps : ℕ → List Step) →
        ArePlanned after peers.now changes.now → AreTold steps peers.now →
        nodes ≡ nodes_below max_peers steps after) }
{
    let mut nodes = 0;
    'peers: for n in 0..MAX_PEERS {
        let own = nodes_behind(&peers[n], &changes[n])?;
        nodes = sum(nodes, own)?;
    }
    Some(nodes)
}

/// The sum of two numbers; None where it is no number of 64 bits.
pub fn sum(a: u64, b: u64) -> Option<u64>
    ensures { IfSome result (λ sum. sum ≡ a + b) }
{
    a.checked_add(b)
}

// How many route nodes a slot has behind what is planned for it.
fn nodes_behind(peering: &Peering, change: &Change) -> Option<u64>
    ensures { IfSome result (λ nodes. (after : Maybe Section) (steps : List Step) →
        IsPlanned peering.now after change.now → IsTold steps peering.now.slot →
        nodes ≡ nodes_behind steps after) }
{
    match change {
        Change::Nothing => Some(peering.slot.nodes() as u64),
        Change::Keep { numbers, names: _ } => nodes_kept(&peering.slot, numbers),
        Change::Exchange {
            end: _,
            with,
            names: _,
        } => Some(with.nodes() as u64),
    }
}

// How many it has where its neighbour stays with static routes that have these numbers.
fn nodes_kept(slot: &PeerSlot, numbers: &Numbers) -> Option<u64>
    ensures { IfSome result (λ nodes. NodesKept slot.now numbers.now nodes) }
{
    let nodes = slot.nodes();
    let _more = nodes.checked_add(numbers.len())?;
    Some(slot.nodes_kept(numbers) as u64)
}
