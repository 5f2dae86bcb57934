//! Texts that the grammars share: the lines of a stream of bytes, the words of a line, and how decimal numbers,
//! AS numbers (RFC 5396, section 2: plain and with a dot), addresses (IPv6: RFC 4291, section 2.2) and prefixes are
//! spelled and printed.
//!
//! Each reader takes a whole text and answers what it spells, or None where it spells nothing of the kind. What is
//! printed goes into a buffer of the caller's. The crate stands on route_values (prefixes), itoa and arrayvec. It keeps
//! no stream, makes no tokens out of brackets and knows no grammar.
#![tactic(auto)]

mod addresses;
mod asns;
mod cutting;
mod decimals;
mod families;
mod groups;
mod ipv6_texts;
mod lines;
mod printing;
mod word;

pub use addresses::{ipv4, ipv4_prefix};
pub use asns::asn;
pub use cutting::cut;
pub use decimals::{half, number, octet};
pub use families::{addr, prefix, printed_is_spelled};
pub use ipv6_texts::ipv6;
pub use lines::{Line, first_line};
pub use printing::{
    MAX_IPV4_TEXT, MAX_IPV6_TEXT, MAX_PREFIX_TEXT, MAX_U32_TEXT, MAX_U64_TEXT, put_addr, put_ipv4,
    put_ipv6, put_prefix, put_u32, put_u64,
};
pub use word::{first_word, is_blank, words};

#[cfg(test)]
mod tests;
