//! The replies that wait to be written to a helper, and their texts.
//!
//! A queue has room for 1,024 replies from its making on, and never drops one of them to make room. The crate stands on
//! route_values (keys), text_forms (how addresses and prefixes are printed), circular_buffer and arrayvec. It doesn't
//! know which line a reply is to, and writes to no pipe.
#![tactic(auto)]

mod printing;
mod queue;
mod reply;

pub use answers::NoMemory;
pub use printing::{MAX_REPLY_TEXT, REPLY_ROOM, put_reply};
pub use queue::{AckQueue, MAX_QUEUED, MAX_TAKEN};
pub use reply::{Reply, Shown};

#[cfg(test)]
mod tests;
