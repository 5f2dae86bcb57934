//! What an UPDATE message says: the grammar of its body, how a body is read and which fault it has first, the one text
//! of each message that is written, and what the effects of messages leave at each key.
//!
//! RFC 4271, sections 4.3, 5 and 6.3; RFC 4760, sections 3, 4 and 7; RFC 7911, section 3; RFC 6793 (four bytes an AS
//! number); RFC 1997, RFC 4360, RFC 4456 and RFC 8092 (attributes). Nothing here reads or writes a byte: the crate has
//! the types, the definitions that other crates' contracts cite, and the laws between them. It stands on
//! `route_values` and `answers`.
#![tactic(auto)]

mod effect;
mod fault;
mod laws;

pub use effect::{Attr, Effect, Reached};
pub use fault::{AttrFault, UpdateFault};
pub use laws::{reading_is_spelling, written_is_spelled};
