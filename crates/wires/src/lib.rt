//! What the standard library lacks for children and links to peers: a TCP connection from a stated
//! local address, a bell that ends a wait at a descriptor, plain writes, and whether a child ended.
//!
//! Stands on the kit's `libc` and `os`. Proved is that each call is safe, that an address becomes
//! the bytes that C reads, and that counts are within their buffers. No clause says what the system
//! does, that a ring arrives or how long a call takes.
#![tactic(auto)]

mod address;
mod bell;
mod dialing;
mod process;
mod system;
#[cfg(test)]
mod tests;

pub use bell::{Bell, Woken};
pub use dialing::dial;
pub use process::Watch;
pub use system::{PlainWriter, unblock};
