//! Cuts a stream of bytes into lines, under any chunking. The lines are those that `text_forms` defines: a line feed
//! ends each, one carriage return before it is dropped, and blank ones are passed over.
//!
//! Each call but `LineCutter::new` works in memory that is already there, and holds one line at most. The crate stands
//! on `answers` and `text_forms`, and finds line feeds by `memchr`. It reads no source and knows no words in a line.
#![tactic(auto)]

mod content;
mod cutter;
mod kept;
mod laws;
mod parting;

pub use cutter::LineCutter;
pub use laws::any_chunking;

#[cfg(test)]
mod tests;
