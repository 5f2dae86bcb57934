//! What sections say, as far as they are written.
use crate::keyed::KeyedStatics;
use arrayvec::ArrayVec;
use config_model::{Draft, MAX_RUN, Name, Neighbor};
use route_values::{Addr, Items};
use token_reader::Place;

/// The statements of a process.
#[derive(Debug, Drop)]
pub struct ProcessWritten {
    /// The words of `run`, joined by zero bytes.
    pub run: Option<ArrayVec<u8, MAX_RUN>>,
    pub json: Option<bool>,
    pub respawn: Option<bool>,
}

/// Families that a section lists.
#[derive(Clone, Copy, Debug, PartialEq, Eq)]
pub struct Families {
    pub ipv4: bool,
    pub ipv6: bool,
}

/// The ways in which path identifiers are offered (RFC 7911, section 4).
#[derive(Clone, Copy, Debug, PartialEq, Eq)]
pub struct Ways {
    pub send: bool,
    pub receive: bool,
}

/// The statements of a `capability` section.
#[derive(Clone, Copy, Debug, PartialEq, Eq)]
pub struct Capabilities {
    pub paths: Option<Ways>,
    pub refresh: Option<bool>,
    pub asn4: bool,
    pub extended: Option<bool>,
}

/// A process that a neighbour hears, and where its name stands.
#[derive(Debug, Drop)]
pub struct Heard {
    pub name: Name,
    pub place: Place,
}

/// The statements of a neighbour.
#[derive(Debug, Drop)]
pub struct NeighborWritten {
    pub description: bool,
    pub router_id: Option<u32>,
    pub local: Option<Addr>,
    pub local_as: Option<u32>,
    pub peer_as: Option<u32>,
    pub hold: Option<u16>,
    pub port: Option<u16>,
    /// The families of its `family` section.
    pub families: Option<Families>,
    /// Those of its `add-path` section.
    pub paths: Option<Families>,
    pub capabilities: Option<Capabilities>,
    /// The routes of all its `static` sections.
    pub statics: KeyedStatics,
    /// The names of all its `api` sections, as they are written.
    pub heard: Items<Heard>,
}

/// A neighbour's section.
#[derive(Debug, Drop)]
pub struct NeighborRead {
    pub neighbor: Neighbor,
    /// The names that it hears, as they are written.
    pub heard: Items<Heard>,
}

/// The sections of a file, as far as they are read.
#[derive(Debug, Drop)]
pub struct FileRead {
    pub sections: Draft,
    /// The names that their neighbours hear, as they are written, in the file's order.
    pub heard: Items<Heard>,
}
