//! Values under numbers, each once.
//!
//! A value is found without a scan, by a hash of the state that is handed in, and its number stays as long as it
//! stands; a freed number is used again. Values that may be no longer needed are noted, to be looked at later. `add`
//! alone takes memory. The crate stands on `indexmap` for its table, on `linked_pending` for the list of what is noted,
//! and on `answers` for want of memory, its one failure. No clause speaks of time.
#![tactic(auto)]

mod pool;
mod slots;
#[cfg(test)]
mod tests;

pub use answers::NoMemory;
pub use pool::Pool;
#[doc(hidden)]
pub use slots::Slot;
