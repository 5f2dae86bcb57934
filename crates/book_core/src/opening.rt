//! The opening of the book.
ghost use Rattle.std.specs.Option.{option_copied};
ghost use Rattle.std.specs.Prelude.{◌≡◌, [], ℕ, Some, IfOk, IfSome, length, slice_get};
ghost use Rattle.config_model.specs.Limits.{max_helpers, max_peers};
ghost use Rattle.helper_book.specs.Seen.{Seen as Helping};
ghost use Rattle.book_core.specs.declared.peering.Peering.{Peering as Place};
ghost use Rattle.book_core.specs.Changing.{IsSection};
ghost use Rattle.book_core.specs.Opening.{Opens, OpensHelper};
ghost use Rattle.book_core.specs.Stands.{Stands};

use crate::book::Book;
use crate::names::copy_names;
use crate::peering::Peering;
use crate::routes::known_sections;
use crate::tables::empty_table;
use answers::NoMemory;
use config_model::{Config, MAX_HELPERS, MAX_PEERS, Neighbor, Process};
use helper_book::Helper;
use peer_book::PeerSlot;
use route_values::{Addr, Items, Side};
use std::alloc::Global;
use std::hash::RandomState;

// What a table without a neighbour sends by: it has no route.
const NO_SIDE: Side = Side {
    local: Addr::V4(0),
    local_as: 0,
    peer_as: 0,
};

impl Book {
    /// The book of a configuration: its processes and neighbours are in the first slots, in the file's order, and the
    /// static routes stand in the tables. These hash by `hasher`.
    pub fn open(alloc: Global, config: Config, hasher: RandomState) -> Result<Book, NoMemory>
        ensures { IfOk result (λ book. Stands config [] book) }
    {
        let sections = config.neighbors();
        // For the proof: the static routes are such as can be announced.
        known_sections(sections);
        let helpers = open_helpers(alloc, config.processes())?;
        let peers = open_peers(alloc, hasher, sections)?;
        Ok(Book {
            alloc,
            hasher,
            helpers,
            peers,
            stopping: false,
            reload_due: false,
        })
    }
}

// The helper slots, with these processes in the first of them.
fn open_helpers(alloc: Global, processes: &[Process]) -> Result<Vec<Helper>, NoMemory>
    ensures count { IfOk result (λ helpers. length helpers.items ≡ max_helpers) }
    ensures each { IfOk result (λ helpers. (h : ℕ) (is : Helping)
        → slice_get helpers.items h ≡ Some is → OpensHelper (slice_get processes.now h) is) }
{
    let mut helpers = Vec::new(alloc);
    'helpers: for h in 0..MAX_HELPERS {
        let helper = open_helper(alloc, processes.get(h))?;
        helpers.push(helper)?;
    }
    Ok(helpers)
}

// A helper slot with a process, or with none.
fn open_helper(alloc: Global, process: Option<&Process>) -> Result<Helper, NoMemory>
    ensures { IfOk result (λ helper. OpensHelper (option_copied process.entry) helper) }
{
    match process {
        Some(process) => Helper::new(alloc, Some(process.copy())),
        None => Helper::new(alloc, None),
    }
}

// The neighbour slots, with these sections in the first of them.
fn open_peers(
    alloc: Global,
    hasher: RandomState,
    sections: &[Neighbor],
) -> Result<Vec<Peering>, NoMemory>
    requires { (n : ℕ) → IfSome (slice_get sections.now n) IsSection }
    ensures count { IfOk result (λ peers. length peers.items ≡ max_peers) }
    ensures each { IfOk result (λ peers. (n : ℕ) (is : Place)
        → slice_get peers.items n ≡ Some is → Opens (slice_get sections.now n) is) }
{
    let mut peers = Vec::new(alloc);
    'peers: for n in 0..MAX_PEERS {
        let peering = open_peer(alloc, hasher, sections.get(n))?;
        peers.push(peering)?;
    }
    Ok(peers)
}

// A neighbour slot with a section, or a vacant one.
fn open_peer(
    alloc: Global,
    hasher: RandomState,
    section: Option<&Neighbor>,
) -> Result<Peering, NoMemory>
    requires { IfSome (option_copied section) IsSection }
    ensures { IfOk result (Opens (option_copied section.entry)) }
{
    match section {
        Some(new) => open_section(alloc, hasher, new),
        None => Ok(Peering {
            slot: PeerSlot::vacant(empty_table(alloc, NO_SIDE, hasher)),
            names: Items::new(alloc),
        }),
    }
}

// A neighbour slot with this section.
fn open_section(alloc: Global, hasher: RandomState, new: &Neighbor) -> Result<Peering, NoMemory>
    requires { IsSection new.now }
    ensures { IfOk result (Opens (Some new.now)) }
{
    let names = copy_names(alloc, new.processes.as_slice())?;
    let table = empty_table(alloc, new.settings.side(), hasher);
    let slot = PeerSlot::placed(table, new.settings, new.statics.as_slice())?;
    Ok(Peering { slot, names })
}
