//! The workers of a helper slot: a reader, which starts the slot's helpers and enters their lines, and a replier, which
//! writes their replies.
//!
//! The two are joined by a handover, through which the sink of each new helper goes to the replier and comes back. The
//! crate stands on book_core and book_gate (the book and its gate), line_cutter and command_grammar (lines), ack_queue
//! (the texts of replies) and outside (children, pauses, a clock). It doesn't say when a line is entered or a reply
//! written.
#![tactic(auto)]

mod answering;
mod errand;
mod handover;
mod hearing;
mod laws;
mod line;
mod pairing;
mod piece;
mod reader;
mod reading;
mod replier;
mod replying;
mod ringing;
mod serving;
#[cfg(test)]
mod tests;
mod texts;
mod visiting;

pub use laws::answers_stay;
pub use pairing::{Apart, Pair, make_pair, take_apart};
pub use reader::Reader;
pub use replier::Replier;
