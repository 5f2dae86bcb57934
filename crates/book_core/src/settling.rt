//! A reload of all neighbour slots.
ghost use Rattle.std.specs.Option.{option_copied};
ghost use Rattle.std.specs.Prelude.{◌≡◌, ◌<◌, ◌+◌, ℕ, List, Some, length, slice_get};
ghost use Rattle.std.specs.Prelude.{IfOk, IfSome, OnOk, Option as Maybe};
ghost use Rattle.config_model.specs.declared.sections.Neighbor.{Neighbor as Section};
ghost use Rattle.config_model.specs.Limits.{max_peers};
ghost use Rattle.book_core.specs.declared.changing.Change.{Change as Planned};
ghost use Rattle.book_core.specs.declared.peering.Peering.{Peering as Place};
ghost use Rattle.book_core.specs.Changing.{IsPlanned, IsSection};
ghost use Rattle.book_core.specs.Moves.{MovesAll, MovesBelow, nothing};
ghost use Rattle.book_core.specs.Planning.{ArePlanned};
ghost use Rattle.book_core.specs.Settling.{section_in, ArePlannedTo, Reloads};
ghost use Rattle.book_core.specs.Settling.{SettlesAll, SettlesTo};

use crate::changing::{Change, carry};
use crate::counting::{MAX_NODES, count_nodes};
use crate::peering::Peering;
use crate::placing::{Places, section_in};
use crate::planning::plan;
use answers::NoMemory;
use book_history::Reload;
use config_model::{MAX_PEERS, Neighbor};
use std::alloc::Global;
use std::hash::RandomState;
use std::mem;

/// Gives each slot the section that it has by its place. Where memory is wanting, or there would be too many route
/// nodes, each slot stands for what it stood for.
pub fn reload_peers(
    alloc: Global,
    hasher: RandomState,
    peers: &mut Vec<Peering>,
    sections: &[Neighbor],
    places: &Places,
) -> Reload
    requires peers { length peers.old.items ≡ max_peers }
    requires places { length places.now.kept ≡ max_peers }
    requires sections { (n : ℕ) → IfSome (section_in sections.now places.now n) IsSection }
    ensures { Reloads (section_in sections.now places.now) peers.old.items peers.new.items result }
{
    match plan_all(alloc, hasher, peers, sections, places) {
        Ok(changes) => carry_few(peers, changes, sections, places),
        Err(NoMemory) => Reload::NoMemory,
    }
}

// Does what is planned, where that isn't too many route nodes.
fn carry_few(
    peers: &mut Vec<Peering>,
    changes: Vec<Change>,
    sections: &[Neighbor],
    places: &Places,
) -> Reload
    requires peers { length peers.old.items ≡ max_peers }
    requires places { length places.now.kept ≡ max_peers }
    requires changes { length changes.items ≡ max_peers }
    requires sections { (n : ℕ) → IfSome (section_in sections.now places.now n) IsSection }
    requires plan { ArePlanned (section_in sections.now places.now) peers.old.items changes.items }
    ensures { Reloads (section_in sections.now places.now) peers.old.items peers.new.items result }
{
    let Some(nodes) = count_nodes(peers.as_slice(), changes.as_slice()) else {
        return Reload::NoMemory;
    };
    if MAX_NODES < nodes {
        return Reload::Full(nodes);
    }
    carry_all(peers, changes, sections, places);
    Reload::Ok
}

// Plans what comes to each slot. Each stands for what it stood for.
fn plan_all(
    alloc: Global,
    hasher: RandomState,
    peers: &mut Vec<Peering>,
    sections: &[Neighbor],
    places: &Places,
) -> Result<Vec<Change>, NoMemory>
    requires peers { length peers.old.items ≡ max_peers }
    requires places { length places.now.kept ≡ max_peers }
    requires sections { (n : ℕ) → IfSome (section_in sections.now places.now n) IsSection }
    ensures planned { IfOk result (λ changes. ArePlannedTo max_peers
        (section_in sections.now places.now) peers.new.items changes.items) }
    ensures moved { MovesAll nothing peers.old.items peers.new.items }
{
    let mut changes = Vec::new(alloc);
    'peers: for n in 0..MAX_PEERS {
        let section = section_in(sections, places, n);
        plan_next(alloc, hasher, peers, section, n, &mut changes)?;
    }
    Ok(changes)
}

// Plans what comes to one slot, behind those below it.
fn plan_next(
    alloc: Global,
    hasher: RandomState,
    peers: &mut Vec<Peering>,
    section: Option<&Neighbor>,
    n: usize,
    changes: &mut Vec<Change>,
) -> Result<(), NoMemory>
    requires place { n < length peers.old.items }
    requires section { IfSome (option_copied section) IsSection }
    ensures planned { OnOk result ((after : ℕ → Maybe Section)
        → after n ≡ option_copied section.entry
        → ArePlannedTo n after peers.old.items changes.old.items
        → ArePlannedTo (n + 1) after peers.new.items changes.new.items) }
    ensures moved { (start : List Place) → MovesBelow n nothing start peers.old.items
        → MovesBelow (n + 1) nothing start peers.new.items }
{
    let peering = &mut peers[n];
    let change = plan(alloc, hasher, peering, section)?;
    changes.push(change)?;
    Ok(())
}

// Does to each slot what was planned for it.
fn carry_all(peers: &mut Vec<Peering>, changes: Vec<Change>, sections: &[Neighbor], places: &Places)
    requires peers { length peers.old.items ≡ max_peers }
    requires places { length places.now.kept ≡ max_peers }
    requires changes { length changes.items ≡ max_peers }
    requires sections { (n : ℕ) → IfSome (section_in sections.now places.now n) IsSection }
    requires plan { ArePlanned (section_in sections.now places.now) peers.old.items changes.items }
    ensures { SettlesAll (section_in sections.now places.now) peers.old.items peers.new.items }
{
    let mut left = changes;
    'peers: for n in 0..MAX_PEERS {
        let section = section_in(sections, places, n);
        carry_next(peers, section, n, &mut left);
    }
}

// Does to one slot what was planned for it, behind those below it.
fn carry_next(
    peers: &mut Vec<Peering>,
    section: Option<&Neighbor>,
    n: usize,
    left: &mut Vec<Change>,
)
    requires place { n < length peers.old.items }
    requires left { n < length left.old.items }
    requires section { IfSome (option_copied section) IsSection }
    requires planned { (is : Place) (change : Planned) → slice_get peers.old.items n ≡ Some is
        → slice_get left.old.items n ≡ Some change → IsPlanned is (option_copied section) change }
    ensures { (after : ℕ → Maybe Section) (start : List Place) (planned : List Planned)
        → after n ≡ option_copied section.entry
        → SettlesTo n after start planned peers.old.items left.old.items
        → SettlesTo (n + 1) after start planned peers.new.items left.new.items }
{
    let change = mem::replace(&mut left[n], Change::Nothing);
    let peering = &mut peers[n];
    carry(peering, change, section);
}
