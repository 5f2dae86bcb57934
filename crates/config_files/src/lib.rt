//! The configuration of the file at a path.
//!
//! A file is read whole and then read as a configuration, or it is told why there is none. The crate stands on outside
//! (files), config_reader (the grammar of configurations) and book_history (the reasons). It opens the file once, gives
//! back what it opened, and keeps nothing.
#![tactic(auto)]

mod reading;
#[cfg(test)]
mod tests;

pub use reading::read_config_at;
