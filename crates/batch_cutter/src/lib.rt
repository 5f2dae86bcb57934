//! Packs keys into UPDATE messages: `Packer` fills one message with keys of one kind, as many as fit, and `fill` makes
//! the next message of a batch from what is left of it.
//!
//! RFC 4271, sections 4.1 and 4.3; RFC 4760 (IPv6); RFC 8654 (messages of up to 65,535 bytes); RFC 4724, section 2
//! (End-of-RIB). The bytes are those that `update_grammar` defines, written by `update_codec`. What a batch owes, and
//! in which order, is the matter of who implements `Batch`; nothing here takes memory, reads or sends.
#![tactic(auto)]

mod batch;
mod filling;
mod group;
mod head;
mod key;
mod kind;
mod opening;
mod packer;
#[cfg(test)]
mod tests;

pub use batch::{Batch, Due};
pub use filling::fill;
pub use head::Head;
pub use packer::Packer;
