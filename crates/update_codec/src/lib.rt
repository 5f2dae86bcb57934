//! UPDATE messages as bytes: announcements, withdrawals and End-of-RIB markers are written, with their headers, and
//! bodies are read into their effects.
//!
//! RFC 4271, sections 4.1, 4.3 and 6.3; RFC 4760 (IPv6); RFC 7911, section 3 (path identifiers); RFC 4724, section 2
//! (End-of-RIB). The bytes are those that `update_grammar` defines, in the buffer of `attr_codec`; the limits are those
//! of `route_values`. Writing takes no memory. No header is read here, and no message is sent.
#![tactic(auto)]

mod effects;
mod limits;
mod reading;
#[cfg(test)]
mod tests;
mod writing;

pub use effects::{Announced, Effects, Parts};
pub use limits::limits_fit;
pub use reading::read_update;
pub use update_grammar::{Effect, UpdateFault};
pub use writing::{open_gone, open_here, put_end_of_rib, put_nlri, put_reach, put_unreach};
