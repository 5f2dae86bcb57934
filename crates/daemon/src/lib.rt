//! The running daemon: `run CONFIG`, from the configuration's file to the end of all workers.
//!
//! It opens the engine by the file, puts it behind a gate, splits a pass off for each worker, runs the workers beside
//! each other, and joins their passes. The crate stands on the crew and its workers, book_core and book_gate (the
//! engine and its gate), and config_files. It doesn't promise that a run ends.
#![tactic(auto)]

mod apart;
mod laws;
mod making;
mod pairs;
mod run;
mod running;
mod stock;
mod talkers;
#[cfg(test)]
mod tests;
mod words;
mod world;

pub use laws::runs_tell;
pub use run::exabgp_run;
pub use world::{Ran, World};
