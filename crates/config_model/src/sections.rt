//! The sections of a configuration.
ghost use Rattle.std.specs.Prelude.{◌≡◌, ◌↔◌, IsTrue, IfOk};
ghost use Rattle.config_model.specs.Sections.{place_of_name, place_of_peer};

use arrayvec::ArrayVec;
use route_values::{Addr, Attrs, Items, Key, NoMemory, Settings};
use std::alloc::Global;

/// The most bytes of a process's name.
pub const MAX_NAME: usize = 64;

/// The most bytes of a process's `run` words, joined by zero bytes.
pub const MAX_RUN: usize = 1024;

/// The name of a process.
pub type Name = ArrayVec<u8, MAX_NAME>;

/// A list of names of processes.
pub type Names = Items<Name>;

/// A list of static routes.
pub type Statics = Items<StaticRoute>;

/// A process that is to be run.
#[derive(Debug, PartialEq, Eq, Drop)]
pub struct Process {
    pub name: Name,
    /// The words that start it, joined by zero bytes.
    pub run: ArrayVec<u8, MAX_RUN>,
    /// Whether its section asks for the encoder `json`. It makes no difference to what the process is sent.
    pub json: bool,
    /// Whether it is started again after its end.
    pub respawn: bool,
}

/// A route that stands from the start.
#[derive(Debug, Drop)]
pub struct StaticRoute {
    pub key: Key,
    /// Its attributes as they were written.
    pub attrs: Attrs,
}

/// A neighbour to hold a session with.
#[derive(Debug, Drop)]
pub struct Neighbor {
    pub settings: Settings,
    /// The routes that the file gives it, in the file's order.
    pub statics: Statics,
    /// The names of the processes that it hears, in the file's order.
    pub processes: Names,
}

impl Process {
    /// An equal section. It takes no memory.
    pub fn copy(&self) -> Process
        ensures { result ≡ self.now }
    {
        Process {
            name: copy_bytes(&self.name),
            run: copy_bytes(&self.run),
            json: self.json,
            respawn: self.respawn,
        }
    }

    /// Whether the other section says the same.
    pub fn is_same(&self, other: &Process) -> bool
        ensures { IsTrue result ↔ (self.now ≡ other.now) }
    {
        *self == *other
    }
}

impl Neighbor {
    /// An equal section.
    pub fn copy(&self, alloc: Global) -> Result<Neighbor, NoMemory>
        ensures { IfOk result (λ copied. copied ≡ self.now) }
    {
        Ok(Neighbor {
            settings: self.settings,
            statics: copy_statics(alloc, self.statics.as_slice())?,
            processes: copy_names(alloc, self.processes.as_slice())?,
        })
    }
}

/// Where the process of this name stands in the file, counted from 0. None where there is no such process.
pub fn place_of_process(processes: &[Process], name: &[u8]) -> Option<usize>
    ensures { result ≡ place_of_name processes.now name.now }
{
    processes
        .iter()
        .position(|process| process.name.as_slice() == name)
}

/// Where the neighbour of this address stands in the file, counted from 0. None where there is no such neighbour.
pub fn place_of_neighbor(neighbors: &[Neighbor], peer: Addr) -> Option<usize>
    ensures { result ≡ place_of_peer neighbors.now peer }
{
    neighbors
        .iter()
        .position(|neighbor| neighbor.settings.peer == peer)
}

// Equal bytes.
fn copy_bytes<const N: usize>(bytes: &ArrayVec<u8, N>) -> ArrayVec<u8, N>
    ensures { result ≡ bytes.now }
{
    let mut copied = ArrayVec::new();
    let _ = copied.try_extend_from_slice(bytes);
    copied
}

// Equal names.
fn copy_names(alloc: Global, names: &[Name]) -> Result<Names, NoMemory>
    ensures { IfOk result (λ copied. copied ≡ names.now) }
{
    let mut copied = Items::new(alloc);
    'names: for name in names {
        copied.push(copy_bytes(name))?;
    }
    Ok(copied)
}

// Equal routes.
fn copy_statics(alloc: Global, routes: &[StaticRoute]) -> Result<Statics, NoMemory>
    ensures { IfOk result (λ copied. copied ≡ routes.now) }
{
    let mut copied = Items::new(alloc);
    'routes: for route in routes {
        copied.push(StaticRoute {
            key: route.key,
            attrs: route.attrs.copy(alloc)?,
        })?;
    }
    Ok(copied)
}
