//! The answer that every layer shares: that there was no memory.
//!
//! Its type is one for the whole repository, so that a crate above several others joins their refusals with `?`. Beside
//! it stands the relation by which contracts say of a call: it has answered what a definition gives, or there was no
//! memory for it. The crate stands on std alone and has no other value.
#![tactic(auto)]

mod memory;

pub use memory::NoMemory;
