//! The talker: one job a neighbour slot, which connects to the neighbour, holds its session and sends it what is to be
//! sent, link after link, until the daemon ends.
//!
//! RFC 4271, sections 6 and 8; RFC 2918, section 4. The crate stands on book_core and book_gate (the book and its
//! gate), session_machine, session_codec and frame_cutter (a session), and outside (links, a clock, pauses). It takes
//! no connection that a neighbour opens, keeps no route that it hears, and doesn't say when it does what.
#![tactic(auto)]

mod acting;
mod cause;
mod desk;
mod hearing;
mod rounds;
mod session;
mod slip;
mod speaking;
mod talker;
#[cfg(test)]
mod tests;
mod timers;
mod turns;
mod voice;

pub use talker::{Talker, TalkerParts};
