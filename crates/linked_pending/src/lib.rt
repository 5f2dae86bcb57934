//! Two intrusive lists over numbered nodes. An `Order` is one list of nodes; a `Pending` is two lists of groups of
//! nodes, those that wait and those that are frozen.
//!
//! After `reserve` no call takes memory. Each call but `reserve` is written to take constant time; no clause speaks of
//! time. The crate stands on std, and on `answers` for want of memory, its one failure. It keeps numbers: what a node
//! or a group means is its caller's, and no value is kept beside a node.
#![tactic(auto)]

mod chain;
mod order;
mod pending;
#[cfg(test)]
mod tests;

pub use answers::NoMemory;
pub use order::Order;
pub use pending::{Pending, Place};
