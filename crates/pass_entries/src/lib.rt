//! The entries that a pass of the gate makes, call after call.
//!
//! A worker's contract says which entries its pass makes from its beginning to its end. These are counted up here:
//! none, one by a call, and those of one part behind those of another. The crate stands on book_gate. Nothing here does
//! anything.
#![tactic(auto)]

mod laws;

pub use laws::entries_add_up;
