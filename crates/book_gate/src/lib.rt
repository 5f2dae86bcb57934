//! One lock round a state, through which threads make calls one at a time. Each thread has a pass, which knows a
//! beginning of the one legal history of all calls: the entries of other passes that it has met, and every entry of its
//! own.
//!
//! It stands on `atomic_table`, as a ticket lock of three words (tickets taken, turns served, entries counted) and one
//! slot, and on `answers` for want of memory. It doesn't say that a thread gets its turn, in which order threads get
//! it, or when.
#![tactic(auto)]

mod gate;
mod glimpse;
mod held;
mod name;
mod pass;
mod steps;
mod view;

pub use answers::NoMemory;
pub use gate::{Gate, Opened};
pub use glimpse::Glimpse;
pub use held::{Call, Held};
pub use name::GateName;
pub use pass::Pass;
pub use view::Signed;
