//! The values that routes are made of: addresses, prefixes, keys, path attributes as they are written in a
//! command and as they are sent, how long their lists may be, and what a session's settings say of them.
//!
//! Path attributes are those of RFC 4271, RFC 1997, RFC 4360, RFC 4456 and RFC 8092; path identifiers are those of
//! RFC 7911. Nothing here reads or writes a message or a text. The crate stands on `answers` alone.
#![tactic(auto)]

mod addr;
mod attrs;
mod caps;
mod copying;
mod items;
mod key;
mod limits;
mod path;
mod pick;
mod prefix;
mod sending;
mod settings;

pub use addr::{Addr, Family};
pub use answers::NoMemory;
pub use attrs::{Aggregator, Attrs, Exts, Hop, Large, Larges, Origin, WireAttrs};
pub use caps::{Caps, visible};
pub use items::Items;
pub use key::{Key, Keys, keys_are_ordered};
pub use limits::{MAX_AS_NUMBERS, MAX_CLUSTERS, MAX_COMMUNITIES, MAX_EXTENDED, MAX_LARGE};
pub use path::{AsPath, Segment, U32s};
pub use pick::{Pick, Selector, is_picked};
pub use prefix::Prefix;
pub use sending::wire;
pub use settings::{Settings, Side};

#[cfg(test)]
mod tests;
