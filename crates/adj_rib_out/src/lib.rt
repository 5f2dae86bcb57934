//! One neighbour's Adj-RIB-Out (RFC 4271, section 3.2): the table that it is to have, what its session was sent, and
//! what is left of the open batch.
//!
//! `ready` alone takes memory: it stands keys and a value ready for all that follows. It stands on `slot_batches`, and
//! is a batch of `batch_cutter`. Nothing here reads or writes a message.
#![tactic(auto)]

mod chosen;
mod counts;
mod entry;
mod keys;
mod noting;
mod ready_key;
mod ready_value;
mod restart;
mod rib;
mod saying;
mod showing;
mod table;
#[cfg(test)]
mod tests;
mod trim_keys;
mod trim_values;
mod uses;
mod values;

pub use batch_cutter::Due;
pub use entry::{Entry, Owner};
pub use rib::Rib;
