//! What a reload does to the neighbours.
ghost use Rattle.std.specs.Prelude.{◌≡◌, IfOk};
ghost use Rattle.config_model.specs.Plan.{has_standing, stands, stands_same, same_settings};
ghost use Rattle.config_model.specs.Plan.{peers_with, plan_of};

use crate::config::Config;
use crate::sections::{Neighbor, place_of_neighbor};
use route_values::{Addr, Items, NoMemory, Settings};
use std::alloc::Global;

/// A list of addresses.
pub type Addrs = Items<Addr>;

/// What a reload does to the neighbours, which it tells apart by their addresses.
///
/// # Order
/// `keep`, `reset` and `remove` have the old file's order, `add` has the new one's.
#[derive(Debug, Drop)]
pub struct Plan {
    /// Those that stand in both files with the same settings.
    pub keep: Addrs,
    /// Those that stand in both files with other settings.
    pub reset: Addrs,
    /// Those that stand in the new file alone.
    pub add: Addrs,
    /// Those that stand in the old file alone.
    pub remove: Addrs,
}

// How a neighbour of one file stands in the other one.
#[derive(Clone, Copy)]
pub(crate) enum Standing {
    // With the same settings, its address among them.
    Same,
    // With its address and other settings.
    Changed,
    // Not at all.
    Absent,
}

/// What a reload from the old configuration to the new one does to the neighbours. Its work grows with the product of
/// both numbers of neighbours, and with no number of routes.
pub fn reload_plan(alloc: Global, old: &Config, new: &Config) -> Result<Plan, NoMemory>
    ensures { IfOk result (λ plan. plan ≡ plan_of old.now new.now) }
{
    let before = old.neighbors();
    let after = new.neighbors();
    Ok(Plan {
        keep: peers_with(alloc, Standing::Same, after, before)?,
        reset: peers_with(alloc, Standing::Changed, after, before)?,
        add: peers_with(alloc, Standing::Absent, before, after)?,
        remove: peers_with(alloc, Standing::Absent, after, before)?,
    })
}

// The addresses of those neighbours that stand so among the others.
fn peers_with(
    alloc: Global,
    standing: Standing,
    others: &[Neighbor],
    neighbors: &[Neighbor],
) -> Result<Addrs, NoMemory>
    ensures { IfOk result (λ peers. peers ≡ peers_with standing others.now neighbors.now) }
{
    let mut peers = Items::new(alloc);
    'neighbors: for neighbor in neighbors {
        if has_standing(standing, others, neighbor) {
            peers.push(neighbor.settings.peer)?;
        }
    }
    Ok(peers)
}

// Whether a neighbour stands so among the others.
fn has_standing(standing: Standing, others: &[Neighbor], neighbor: &Neighbor) -> bool
    ensures { result ≡ has_standing standing others.now neighbor.now }
{
    match standing {
        Standing::Same => stands_same(others, neighbor),
        Standing::Changed => stands(others, neighbor) && !stands_same(others, neighbor),
        Standing::Absent => !stands(others, neighbor),
    }
}

// Whether a neighbour of this address stands among the others.
fn stands(others: &[Neighbor], neighbor: &Neighbor) -> bool
    ensures { result ≡ stands others.now neighbor.now }
{
    place_of_neighbor(others, neighbor.settings.peer).is_some()
}

// Whether a neighbour with these settings stands among the others.
fn stands_same(others: &[Neighbor], neighbor: &Neighbor) -> bool
    ensures { result ≡ stands_same others.now neighbor.now }
{
    others
        .iter()
        .any(|other| same_settings(&other.settings, &neighbor.settings))
}

// Whether two settings are the same.
fn same_settings(a: &Settings, b: &Settings) -> bool
    ensures { result ≡ same_settings a.now b.now }
{
    *a == *b
}
