//! The messages of a session but UPDATE: OPEN, NOTIFICATION, KEEPALIVE and ROUTE-REFRESH are written and read, and what
//! two OPENs agree on is found.
//!
//! RFC 4271, sections 4.2, 4.4, 4.5 and 6.2; RFC 5492 (capabilities); RFC 4760, section 8; RFC 7911, section 4;
//! RFC 6793 (four bytes an AS number); RFC 2918; RFC 8654; RFC 4486 (subcodes of Cease). Messages are written into the
//! buffer of `attr_codec`, and refusals are those of `frame_cutter`. No call takes memory. No header is read here, no
//! message is sent, and no state of a session is kept.
#![tactic(auto)]

pub mod codes;
mod laws;
mod negotiation;
mod notification;
mod offer;
mod reading;
mod writing;

pub use frame_cutter::Refusal;
pub use laws::written_is_read;
pub use negotiation::{Agreed, negotiate};
pub use notification::{Notification, read_notification};
pub use offer::{Open, Path};
pub use reading::{read_open, read_refresh};
pub use writing::{put_keepalive, put_notification, put_open, put_refresh};

#[cfg(test)]
mod tests;
