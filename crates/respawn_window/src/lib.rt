//! How often a helper may be started: at most five times in any 60,000 milliseconds.
//!
//! The crate stands on `arrayvec`, and takes no memory. It reads no clock: moments come in as values. What a start is,
//! and what becomes of a helper that may not start, is its caller's.
#![tactic(auto)]

mod window;

pub use window::Window;

#[cfg(test)]
mod tests;
