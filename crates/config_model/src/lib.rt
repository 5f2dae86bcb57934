//! The model of a configuration: processes and neighbours in the file's order, what is kept of them, which neighbours
//! a command selects, and what a reload keeps, ends and starts.
//!
//! Settings, keys and attributes are those of `route_values`, names and words are bytes in an `arrayvec`. At most 16
//! processes and 64 neighbours are looked through one by one, so no map and no hasher stands here. Nothing here reads
//! a text or a file: the places of faults are filled in by a reader above.
#![tactic(auto)]

mod config;
mod fault;
mod plan;
mod sections;
mod selecting;
mod slots;

pub use config::{Config, Draft, MAX_ROUTES, check};
pub use fault::{ConfigFault, ConfigKind};
pub use plan::{Addrs, Plan, reload_plan};
pub use route_values::Settings;
pub use sections::{
    MAX_NAME, MAX_RUN, Name, Names, Neighbor, Process, StaticRoute, Statics, place_of_neighbor,
    place_of_process,
};
pub use selecting::selected;
pub use slots::{MAX_HELPERS, MAX_PEERS, Slots};

#[cfg(test)]
mod tests;
