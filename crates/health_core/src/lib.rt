//! A health check: its file, when the service is up, and the commands that announce or withdraw its prefixes.
//!
//! A file says by which program a service is checked, how often, and which prefixes are announced while it is up. The
//! crate reads the file to its first fault, counts the outcomes of checks, prints the command of each change, and has
//! the checks made by a probe. It stands on config_reader (rules by which files are read), command_grammar (what a
//! printed command says), text_forms, token_reader, route_values, config_model and outside (probes, pauses, sinks). It
//! opens no file, and does not say how long a check or a pause takes.
#![tactic(auto)]

mod commands;
mod counter;
mod file;
mod health;
mod keywords;
mod laws;
mod operands;
mod prefixes;
mod printed;
mod spellings;
mod statements;
mod watching;
mod written;

pub use commands::command;
pub use config_reader::ConfigError;
pub use counter::{Change, Counter};
pub use file::read_health;
pub use health::{Health, MAX_PREFIXES, MAX_RUN};
pub use laws::health_files_say_one;
pub use printed::Printed;
pub use watching::{Unwatched, routes_follow, watch};

#[cfg(test)]
mod tests;
