//! What a configuration file says: the reader of a file, to its configuration or to its first fault.
//!
//! A file has sections of processes and of neighbours. A fault has a line, a column and a kind. How a file is read is
//! defined by rules in `specs/`, one file a part of the grammar, and each reader answers by the rule of its name. The
//! crate stands on `config_model`, `route_grammar` (the items of a static route), `token_reader`, `text_forms`,
//! `route_values` and `answers`. It opens no file, and gives no settings to a running daemon.
#![tactic(auto)]

mod capabilities;
mod families;
mod fault;
mod file;
mod first_words;
mod heard;
pub mod joined;
mod keyed;
mod keywords;
mod laws;
mod names;
mod neighbors;
mod passed;
mod processes;
mod sections;
mod settings;
mod spellings;
mod statements;
mod statics;
pub mod words;
mod written;

pub use fault::ConfigError;
pub use file::read_config;
pub use laws::files_say_one;

#[cfg(test)]
mod tests;
