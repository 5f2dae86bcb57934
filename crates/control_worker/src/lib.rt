//! The daemon's keeper: one job that reloads the configuration when a helper asks for it, and ends with the daemon.
//!
//! It asks the book what is to be done. Where a reload is due it reads the configuration's file and enters the new
//! configuration, or why there is none; then it wakes the other workers, whose slots may have changed. The crate stands
//! on book_core and book_gate (the book and its gate), config_files (the file) and outside (files, pauses). It opens no
//! session and starts no helper, and doesn't say when it does what.
#![tactic(auto)]

mod keeper;
mod keeping;
mod ringing;
#[cfg(test)]
mod tests;

pub use keeper::{Keeper, KeeperParts};
