//! Configurations, and drafts of them.
ghost use Rattle.std.specs.Prelude.{◌≡◌, ◌≤◌};
ghost use Rattle.std.specs.Option.{option_copied};
ghost use Rattle.config_model.specs.Limits.{max_routes};
ghost use Rattle.config_model.specs.Sections.{routes_in};
ghost use Rattle.config_model.specs.Checked.{first_unknown_of, unknown_in, checked};

use crate::fault::{ConfigFault, ConfigKind};
use crate::sections::{Name, Neighbor, Process, place_of_process};
use route_values::{Items, NoMemory};
use std::alloc::Global;
use std::marker::Model;

/// The most static routes of a configuration, over all its neighbours.
pub const MAX_ROUTES: usize = 4_194_304;

/// Sections that may become a configuration. The names of processes, the addresses of neighbours and the static keys
/// of each neighbour differ. Each own address has its neighbour's family, and the next hop of each static route its
/// key's. No limit is passed. Whether each process that a neighbour hears has a section isn't kept; [`check`] sees to
/// that.
///
/// # Order
/// Sections stand in the file's order.
#[derive(Debug, Drop)]
pub struct Draft {
    processes: Items<Process>,
    neighbors: Items<Neighbor>,
}

/// A configuration: a draft whose neighbours hear processes that have a section. [`check`] alone makes one.
///
/// # Order
/// Sections stand in the file's order.
#[derive(Debug, Drop)]
pub struct Config {
    processes: Items<Process>,
    neighbors: Items<Neighbor>,
}

impl Model for Draft {
    ghost use Rattle.config_model.specs.Sections.{Sections, sections};
    ghost use Rattle.config_model.specs.Drafts.{IsDraft};

    ghost Value = { Sections };

    ghost view = { λ draft. sections draft.processes draft.neighbors };

    ghost invariant = { λ draft. IsDraft (sections draft.processes draft.neighbors) };
}

impl Model for Config {
    ghost use Rattle.config_model.specs.Sections.{Sections, sections};
    ghost use Rattle.config_model.specs.Checked.{IsConfig};

    ghost Value = { Sections };

    ghost view = { λ config. sections config.processes config.neighbors };

    ghost invariant = { λ config. IsConfig (sections config.processes config.neighbors) };
}

impl Draft {
    ghost use Rattle.std.specs.Prelude.{◌<◌, ◌+◌, [], length, None, OnOk, OnErr};
    ghost use Rattle.config_model.specs.Limits.{max_helpers, max_peers};
    ghost use Rattle.config_model.specs.Sections.{sections, place_of_name, place_of_peer};
    ghost use Rattle.config_model.specs.Drafts.{IsDraft, IsNeighbor, with_process, with_neighbor};
    ghost use Rattle.config_model.specs.Checked.{first_unknown};

    /// A draft without sections, which takes no memory.
    pub fn new(alloc: Global) -> Draft
        ensures { result ≡ sections [] [] }
    {
        Draft {
            processes: Items::new(alloc),
            neighbors: Items::new(alloc),
        }
    }

    /// The processes, in the file's order.
    pub fn processes(&self) -> &[Process]
        ensures value { result.now ≡ self.now.processes }
        ensures kept { IsDraft self.now }
    {
        self.processes.as_slice()
    }

    /// The neighbours, in the file's order.
    pub fn neighbors(&self) -> &[Neighbor]
        ensures value { result.now ≡ self.now.neighbors }
        ensures kept { IsDraft self.now }
    {
        self.neighbors.as_slice()
    }

    /// How many static routes the neighbours have together.
    pub fn routes(&self) -> usize
        ensures { result ≡ routes_in self.now.neighbors }
    {
        routes_in(self.neighbors.as_slice())
    }

    /// Puts a process at the end, whose name is new; there are fewer than 16. Where memory is wanting the draft stays
    /// as it was.
    pub fn add_process(&mut self, process: Process) -> Result<(), NoMemory>
        requires name { place_of_name self.old.processes process.name.items ≡ None }
        requires room { length self.old.processes < max_helpers }
        ensures ok { OnOk result (self.new ≡ with_process self.old process) }
        ensures err { OnErr result (self.new ≡ self.old) }
    {
        self.processes.push(process)?;
        Ok(())
    }

    /// Puts a neighbour at the end, whose address is new; there are fewer than 64. Where memory is wanting the draft
    /// stays as it was.
    pub fn add_neighbor(&mut self, neighbor: Neighbor) -> Result<(), NoMemory>
        requires peer { place_of_peer self.old.neighbors neighbor.settings.peer ≡ None }
        requires section { IsNeighbor neighbor }
        requires room { length self.old.neighbors < max_peers }
        requires routes { routes_in self.old.neighbors + length neighbor.statics ≤ max_routes }
        ensures ok { OnOk result (self.new ≡ with_neighbor self.old neighbor) }
        ensures err { OnErr result (self.new ≡ self.old) }
    {
        self.neighbors.push(neighbor)?;
        Ok(())
    }

    /// The first name of a process, in the order of the neighbours and of their lists, that no section has. None where
    /// each has one.
    pub fn unknown(&self) -> Option<&Name>
        ensures { option_copied result ≡ first_unknown self.now }
    {
        first_unknown(self.processes.as_slice(), self.neighbors.as_slice())
    }
}

impl Config {
    ghost use Rattle.config_model.specs.Checked.{IsConfig};

    /// The processes, in the file's order.
    pub fn processes(&self) -> &[Process]
        ensures value { result.now ≡ self.now.processes }
        ensures kept { IsConfig self.now }
    {
        self.processes.as_slice()
    }

    /// The neighbours, in the file's order.
    pub fn neighbors(&self) -> &[Neighbor]
        ensures value { result.now ≡ self.now.neighbors }
        ensures kept { IsConfig self.now }
    {
        self.neighbors.as_slice()
    }
}

/// The configuration of a draft's sections, or the fault Process without a place exactly where a neighbour hears a
/// process that has no section. [`Draft::unknown`] tells its name. It takes no memory.
pub fn check(draft: Draft) -> Result<Config, ConfigFault>
    ensures { result ≡ checked draft }
{
    if draft.unknown().is_some() {
        return Err(ConfigFault {
            line: 0,
            column: 0,
            kind: ConfigKind::Process,
        });
    }
    let Draft {
        processes,
        neighbors,
    } = draft;
    Ok(Config {
        processes,
        neighbors,
    })
}

// How many static routes some neighbours have together.
fn routes_in(neighbors: &[Neighbor]) -> usize
    requires { routes_in neighbors.now ≤ max_routes }
    ensures { result ≡ routes_in neighbors.now }
{
    let mut routes = 0;
    'neighbors: for neighbor in neighbors {
        routes += neighbor.statics.len();
    }
    routes
}

// The first name in the neighbours' lists that no process has.
fn first_unknown<'a>(processes: &[Process], neighbors: &'a [Neighbor]) -> Option<&'a Name>
    ensures { option_copied result ≡ first_unknown_of processes.now neighbors.now }
{
    'neighbors: for neighbor in neighbors {
        let unknown = unknown_in(processes, neighbor.processes.as_slice());
        if unknown.is_some() {
            return unknown;
        }
    }
    None
}

// The first of some names that no process has.
fn unknown_in<'a>(processes: &[Process], names: &'a [Name]) -> Option<&'a Name>
    ensures { option_copied result ≡ unknown_in processes.now names.now }
{
    names.iter().find(|name| place_of_process(processes, name.as_slice()).is_none())
}
