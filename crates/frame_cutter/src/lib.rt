//! Cuts a stream of bytes into BGP messages, under any chunking: RFC 4271, sections 4.1 to 4.5 and 6.1 (the header, its
//! faults, and the data of their NOTIFICATION); RFC 2918 (ROUTE-REFRESH); RFC 8654 (long messages).
//!
//! Each call but `FrameCutter::new` works in memory that is already there. The crate stands on `answers`, and on
//! `arrayvec` for the data of a refusal. It reads no body, writes no message and knows no session.
#![tactic(auto)]

pub mod codes;
mod cutter;
mod header;
pub mod kinds;
mod laws;
mod next;
mod pending;
mod refusal;

pub use cutter::FrameCutter;
pub use laws::{any_chunking, frames_are_texts};
pub use next::Next;
pub use refusal::Refusal;

#[cfg(test)]
mod tests;
