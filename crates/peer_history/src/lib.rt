//! What happens to one neighbour slot of the daemon, and the law of its batches.
//!
//! The definitions stand in `specs`: the table that a neighbour is to have, its session, what its messages have left
//! at the peer, what a batch owes, and which message may be cut next. Messages are those of RFC 4271, section 4.3,
//! RFC 4760 and RFC 7911; the End-of-RIB marker is that of RFC 4724, section 2. Nothing here does anything: each
//! function is empty, and its contract is a law of the definitions. The crate stands on `route_values` and
//! `update_grammar`.
#![tactic(auto)]

mod laws;

pub use laws::{
    batches_are_packed, nodes_are_listed, nodes_stay, nothing_pending, settled, visible,
    whole_batches,
};
