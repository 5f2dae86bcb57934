//! The history of the daemon: which events there are, which answers each may have, and what a legal history tells.
//!
//! The definitions stand in `specs`: slots and what a reload does to them, the neighbours that a command selects, the
//! table that each neighbour is to have, helpers with their starts and replies, and route nodes. What happens to one
//! neighbour is told by the crate `peer_history`, on which the law of whole batches rests. Nothing here does anything:
//! the types are the answers of events, and each function is empty, with a law of the definitions or a group of worked
//! examples as its contract.
#![tactic(auto)]

mod examples;
mod laws;
mod outcomes;

pub use examples::{
    batches_work, ends_work, examples_are_legal, helpers_work, reloads_work,
    wrong_answers_are_refused,
};
pub use laws::{helpers_are_bounded, nodes_stay, nothing_pending, tests_decide, whole_batches};
pub use outcomes::{Control, Cut, NotRead, Peer, Reload, Spawn, Take, Up, Verdict, Why};
