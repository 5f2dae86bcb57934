//! A helper slot of the daemon, as its history tells of it.
//!
//! Over helper_core's slot stand the section of its process and whether its lines are replied to. Each call's contract
//! speaks of every history of the daemon that the helper stands for: the answer is one that the history allows, and
//! with the call's entry the helper stands for the longer history (`Stands`). What lies outside the slot comes in as a
//! value: whether the daemon ends, the routes of a show, the process behind a reload. Only `Helper::new` takes memory.
//! Which neighbours a line is for, and what it does to them, is its caller's.
#![tactic(auto)]

mod helper;
mod laws;
mod replying;
mod starting;

pub use answers::NoMemory;
pub use helper::Helper;
pub use laws::others_leave;

#[cfg(test)]
mod tests;
