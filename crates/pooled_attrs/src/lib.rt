//! Attributes as the values of a pool: with a test of equality that tells them apart, and a hash.
//!
//! `Written` and `Wire` hold attributes, and `WrittenRef` and `WireRef` look them up without a copy. The laws say that
//! the tests, and the derived one of keys, are true exactly where the values are equal in contracts. The crate stands
//! on `route_values`, and on `indexmap` for its trait of look-ups. It keeps no table.
#![tactic(auto)]

mod feed;
mod laws;
mod same;
mod wire;
mod written;

pub use laws::tests_decide;
pub use wire::{Wire, WireRef};
pub use written::{Written, WrittenRef};
