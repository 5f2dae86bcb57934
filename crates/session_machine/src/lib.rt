//! The session machine: what a session does at each event, and which state it is in then (RFC 4271, section 8.2.2).
//!
//! RFC 4271, sections 6 and 8; RFC 2918, section 4 (requests for all routes of a family). The crate stands on
//! `session_codec`, which reads OPENs and agrees on them, and on `arrayvec`. No call takes memory. Events come in as
//! values, and what is to be done goes out as values: it reads no clock, cuts and writes no message, and waits for no
//! connection, so that it hasn't the states Connect and Active. It takes no connection that a neighbour opens.
#![tactic(auto)]

mod action;
mod event;
mod machine;
mod state;
mod table;

pub use action::{Action, Actions};
pub use event::Event;
pub use machine::Machine;
pub use state::State;

#[cfg(test)]
mod tests;
