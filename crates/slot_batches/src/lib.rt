//! What a session owes of numbered slots, and its batches, frozen without a copy.
//!
//! A slot has a value, which is a number, and another that was sent of it. Slots whose values differ wait in groups by
//! value, over `linked_pending`; a batch is what waited when it began, and changes of a slot never show in it. What a
//! slot or a value is, is the caller's. `reserve` and `add` alone take memory. `reset` and `refresh` go through all
//! slots; each other call is written to take constant time. No clause speaks of time.
#![tactic(auto)]

mod queues;
mod slots;
#[cfg(test)]
mod tests;

pub use answers::NoMemory;
pub use slots::{Item, Slots};
