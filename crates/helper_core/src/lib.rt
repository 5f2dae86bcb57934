//! A slot for a helper: whether its process runs, which of its incarnations it is, the replies that wait for it, and
//! when it may be started again.
//!
//! Only `Slot::new` takes memory. The crate stands on ack_queue (the replies) and respawn_window (the starts of late).
//! It reads no clock, starts no process and reads no pipe: its caller does, and says what came of it.
#![tactic(auto)]

mod slot;
mod state;

pub use ack_queue::{AckQueue, NoMemory, Reply};
pub use slot::Slot;
pub use state::{Start, State};

#[cfg(test)]
mod tests;
