//! The items that say what a route is announced with: attributes, next hop and path identifier.
//!
//! The definitions of grammars stand here too: what a production is, which tokens begin a reading, and where the first
//! fault of tokens is. They, and the lemmas that join productions, serve every grammar of tokens. The crate stands on
//! `token_reader`, `text_forms`, `route_values` and `answers`. It knows no command, no file and no prefix.
#![tactic(auto)]

mod communities;
mod extended;
mod fault;
mod item_words;
mod items;
mod kind;
mod lists;
mod operands;
mod path;
mod reading;
mod spellings;
mod values;
mod words;

pub use fault::{LineFault, ReadFault};
pub use items::Items;
pub use lists::{no_room, read_list};
pub use reading::read_items;
pub use spellings::{Asn, Ipv4, Number};
pub use words::{Spelling, bad_token, front_value, is_mark, read_word, too_many};

#[cfg(test)]
mod tests;
