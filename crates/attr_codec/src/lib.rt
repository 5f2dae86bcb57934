//! Path attributes and prefixes as bytes: the buffer that a message is written into, numbers in network order, the
//! attributes of an announcement, and reading.
//!
//! RFC 4271, sections 4.3, 5 and 6.3; RFC 4760, sections 3, 4 and 7; RFC 7911, section 3 (path identifiers); RFC 6793
//! (four bytes an AS number); RFC 1997, RFC 4360, RFC 4456 and RFC 8092 (lists of communities and clusters). The bytes
//! are those that `update_grammar` defines, and the values are those of `route_values`. No prefix is written here. A
//! buffer takes its memory when it is made; writing takes none.
#![tactic(auto)]

pub mod codes;
mod fault;
mod message;
pub mod numbers;
mod reading;
#[cfg(test)]
mod tests;
mod writing;

pub use fault::KeysFault;
pub use message::Message;
pub use reading::{AttrList, read_attrs, read_keys};
pub use update_grammar::{Attr, AttrFault, Reached};
pub use writing::{append_attrs, append_unreach, attrs_len, put_attrs};
