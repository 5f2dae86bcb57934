//! The state of the whole daemon, in one value: the sections of its configuration, tables, sessions and helpers.
//!
//! Each call of a [`Book`] is one event of the daemon's history, of book_history: where the book stood for a history,
//! the call's answer is one that the history allows, and the book then stands for the history with that entry. It
//! stands on helper_book (one helper slot) and peer_book (one neighbour slot). Nothing here reads a line or a file,
//! waits, or sends.
#![tactic(auto)]

mod announcing;
mod book;
mod calls;
mod carrying;
mod changing;
mod choosing;
mod counting;
mod draining;
mod ending;
mod held;
mod helping;
mod lines;
mod names;
mod opening;
mod peering;
mod placing;
mod planning;
mod processes;
mod reloading;
mod routes;
mod sessions;
mod settling;
mod showing;
mod tables;
#[cfg(test)]
mod tests;
mod trimming;

pub use answers::NoMemory;
pub use book::Book;
pub use book_history::{Control, Cut, NotRead, Peer, Reload, Spawn, Take, Up, Verdict, Why};
pub use calls::{
    ControlCall, CutCall, Cutting, DeafCall, DownCall, GoneCall, LineCall, PeerCall, RefreshCall,
    RefusedCall, ReloadCall, SpawnCall, StopCall, TakeCall, UpCall,
};
pub use draining::Sent;
