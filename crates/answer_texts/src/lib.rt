//! The printed texts of answers: what the daemon's calls answer, as lines.
//!
//! What is printed of an entry of the history is defined in `specs`, and each function puts the text of one kind of
//! answer behind what a buffer holds; after want of memory nothing is said of the buffer. The crate stands on
//! book_history (the answers), ack_queue (replies), config_model (faults of a file), route_grammar (faults of a line),
//! text_forms (numbers) and hex (messages). It reads nothing and writes to no pipe.
#![tactic(auto)]

mod daemon;
mod helpers;
mod laws;
mod neighbors;
mod putting;
mod replies;

pub use answers::NoMemory;
pub use daemon::{put_control, put_not_read, put_ok, put_reload};
pub use helpers::{put_spawn, put_verdict};
pub use laws::texts_follow;
pub use neighbors::{put_cut, put_peer, put_up};
pub use replies::{put_replies, put_take};

#[cfg(test)]
mod tests;
