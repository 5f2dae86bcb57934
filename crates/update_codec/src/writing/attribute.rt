//! One more prefix at the end of an attribute's value.
//!
//! ```text
//! +-------+------+---------+-------------------------+
//! | flags | code | length  | value                   |
//! | 1     | 1    | 1, or 2 | family, .., prefixes    |
//! +-------+------+---------+-------------------------+
//! ```
ghost use Rattle.std.specs.Prelude.{ℕ, ◌≡◌, ◌+◌, ◌-◌, ◌<◌, ◌≤◌, ◌∷◌, ◌++◌, List, length};
ghost use Rattle.update_grammar.specs.Attributes.{Raw, IsRaw, raw_head, raw_text, optional};
ghost use Rattle.update_grammar.specs.Prefixes.{key_text};
ghost use Rattle.update_grammar.specs.Written.{flags_for, raw};
ghost use Rattle.attr_codec.specs.Buffer.{HasRoom, max_message};
ghost use Rattle.attr_codec.specs.Sizes.{short_head, long_head, head_size};
ghost use Rattle.update_codec.specs.Sizes.{longest_key, passes, short_attribute, attribute_growth};

use super::key::{insert_key, key_len};
use attr_codec::Message;
use attr_codec::codes::{
    EXTENDED_HEAD_LEN, EXTENDED_LENGTH, HEAD_LEN, LEN_OFFSET, OPTIONAL, SHORT_MAX,
};
use attr_codec::numbers::{read_u16, u16_bytes};
use route_values::Key;

// Where the flags of an attribute stand (RFC 4271, section 4.3).
const FLAGS: usize = 0;

/// Where the code of an attribute stands, from its flags on (RFC 4271, section 4.3).
pub const CODE: usize = 1;

// How many bytes an attribute has whose value has 255 bytes, the longest with a length of one byte.
const SHORT_END: usize = HEAD_LEN + SHORT_MAX;

/// Where an attribute stands, in bytes from the front of its message.
#[derive(Clone, Copy)]
pub struct Place {
    /// Where its flags stand.
    pub start: usize,
    /// Where the byte behind its value stands.
    pub end: usize,
}

/// How many bytes the attribute at the front has with its flags, its code and its length.
pub fn attribute_len(bytes: &[u8]) -> usize
    requires { long_head ≤ length bytes.now }
    ensures value { (a : Raw) → (rest : List ℕ) → IsRaw a → bytes.now ≡ raw_text a ++ rest
        → result ≡ length (raw_text a) }
    ensures some { short_head ≤ result }
{
    if bytes[FLAGS] & EXTENDED_LENGTH == 0 {
        HEAD_LEN + usize::from(bytes[LEN_OFFSET])
    } else {
        EXTENDED_HEAD_LEN + usize::from(read_u16(&bytes[LEN_OFFSET..]))
    }
}

/// By how many bytes an attribute of so many grows with a prefix of so many.
pub fn growth(len: usize, more: usize) -> usize
    requires small { len ≤ max_message }
    requires short { more ≤ longest_key }
    ensures { result ≡ attribute_growth len more }
{
    if outgrows(len, more) { more + 1 } else { more }
}

/// Puts a prefix at the end of an optional attribute, and makes its length right: this has two bytes exactly where the
/// value passes 255 bytes. The lengths in front of the attributes stay as they are.
pub fn put_last(out: &mut Message, place: Place, code: u8, key: &Key, path: bool)
    requires some { place.start + short_head ≤ place.end }
    requires within { place.end ≤ length out.old.bytes }
    requires room { out.old.room ≤ max_message }
    requires fits { HasRoom out.old
        (attribute_growth (place.end - place.start) (length (key_text path key.now))) }
    ensures bytes { (before value after : List ℕ) → length before ≡ place.start
        → place.end ≡ place.start + length (raw_text (raw optional code value))
        → out.old.bytes ≡ before ++ (raw_text (raw optional code value) ++ after)
        → out.new.bytes
        ≡ before ++ (raw_text (raw optional code (value ++ key_text path key.now)) ++ after) }
    ensures len { length out.new.bytes ≡ length out.old.bytes
        + attribute_growth (place.end - place.start) (length (key_text path key.now)) }
    ensures room { out.new.room ≡ out.old.room }
{
    let len = place.end - place.start;
    let more = key_len(key, path);
    insert_key(out, place.end, key, path);
    if outgrows(len, more) {
        widen(out, place.start);
    }
    put_head(out, place.start, code, len + growth(len, more));
}

// Whether the value of an attribute of so many bytes passes 255 bytes with a prefix of so many.
fn outgrows(len: usize, more: usize) -> bool
    requires small { len ≤ max_message }
    requires short { more ≤ longest_key }
    ensures { result ≡ passes short_attribute len more }
{
    len <= SHORT_END && len + more > SHORT_END
}

// Makes place for the second byte of an attribute's length.
fn widen(out: &mut Message, start: usize)
    requires within { start ≤ length out.old.bytes }
    requires fits { HasRoom out.old 1 }
    ensures bytes { (before after : List ℕ) → length before ≡ start
        → out.old.bytes ≡ before ++ after → out.new.bytes ≡ before ++ (0 ∷ after) }
    ensures len { length out.new.bytes ≡ length out.old.bytes + 1 }
    ensures room { out.new.room ≡ out.old.room }
{
    out.append(&[0]);
    out.move_last(start, 1);
}

// Writes flags, code and length of an attribute that has so many bytes with them.
fn put_head(out: &mut Message, start: usize, code: u8, len: usize)
    requires some { short_head ≤ len }
    requires within { start + len ≤ length out.old.bytes }
    requires small { length out.old.bytes ≤ max_message }
    ensures bytes { (before head rest : List ℕ) → (value_len : ℕ) → length before ≡ start
        → length head ≡ head_size value_len → len ≡ head_size value_len + value_len
        → out.old.bytes ≡ before ++ (head ++ rest)
        → out.new.bytes
        ≡ before ++ (raw_head (flags_for optional value_len) code value_len ++ rest) }
    ensures len { length out.new.bytes ≡ length out.old.bytes }
    ensures room { out.new.room ≡ out.old.room }
{
    if len > SHORT_END {
        let value_len = (len - EXTENDED_HEAD_LEN) as u16;
        out.overwrite(start, &[OPTIONAL + EXTENDED_LENGTH, code]);
        out.overwrite(start + LEN_OFFSET, &u16_bytes(value_len));
    } else {
        out.overwrite(start, &[OPTIONAL, code, (len - HEAD_LEN) as u8]);
    }
}
