//! The words of values.
ghost use Rattle.std.specs.Prelude.{◌≡◌, ℕ, List, decimal};
ghost use Rattle.hex.specs.Hex.{encode_lower};
ghost use Rattle.text_forms.specs.Printed.{addr_text, prefix_text};
ghost use Rattle.text_printer.specs.Items.{aggregator_text, community_text, extended_text};
ghost use Rattle.text_printer.specs.Items.{large_text, origin_text};

use arrayvec::ArrayVec;
use hex::encode_to_slice;
use route_values::{Addr, Aggregator, Large, Origin, Prefix};
use text_forms::{MAX_PREFIX_TEXT, put_addr, put_ipv4, put_prefix, put_u32};

// What stands between the numbers of a word.
const COLON: u8 = b':';

// How many values the lower half of a community has (RFC 1997, "Community").
const HALF_VALUES: u32 = 65_536;

// How many digits an extended community has: two for each of its eight bytes (RFC 4360, section 2).
const EXTENDED_DIGITS: usize = 16;

/// The bytes of a word. None is longer than a prefix of IPv6.
pub type Bytes = ArrayVec<u8, MAX_PREFIX_TEXT>;

/// A kind of value of which each is written as one word.
pub trait Wording {
    /// What is written.
    type Value;

    /// The word of a value.
    ghost word_of: { Self → Self.Value → List ℕ };

    /// Writes a value.
    fn word(&self, value: &Self::Value) -> Bytes
        ensures { result.items ≡ word_of self.now value.now };
}

/// A number, as an AS number.
pub struct Number;

impl Wording for Number {
    ghost use Rattle.std.specs.Prelude.{decimal};

    type Value = u32;

    ghost word_of = { λ kind value. decimal value };

    fn word(&self, value: &u32) -> Bytes {
        number_word(*value)
    }
}

/// An IPv4 address, as a cluster identifier.
pub struct Ipv4;

impl Wording for Ipv4 {
    ghost use Rattle.text_forms.specs.Printed.{ipv4_text};

    type Value = u32;

    ghost word_of = { λ kind value. ipv4_text value };

    fn word(&self, value: &u32) -> Bytes {
        addr_word(Addr::V4(*value))
    }
}

/// A community.
pub struct Community;

impl Wording for Community {
    ghost use Rattle.text_printer.specs.Items.{community_text};

    type Value = u32;

    ghost word_of = { λ kind value. community_text value };

    fn word(&self, value: &u32) -> Bytes {
        community_word(*value)
    }
}

/// An extended community.
pub struct Extended;

impl Wording for Extended {
    ghost use Rattle.text_printer.specs.Items.{extended_text};

    type Value = [u8; 8];

    ghost word_of = { λ kind value. extended_text value };

    fn word(&self, value: &[u8; 8]) -> Bytes {
        extended_word(value)
    }
}

/// A large community.
pub struct LargeCommunity;

impl Wording for LargeCommunity {
    ghost use Rattle.text_printer.specs.Items.{large_text};

    type Value = Large;

    ghost word_of = { λ kind value. large_text value };

    fn word(&self, value: &Large) -> Bytes {
        large_word(value)
    }
}

/// An aggregator.
pub struct FormedBy;

impl Wording for FormedBy {
    ghost use Rattle.text_printer.specs.Items.{aggregator_text};

    type Value = Aggregator;

    ghost word_of = { λ kind value. aggregator_text value };

    fn word(&self, value: &Aggregator) -> Bytes {
        aggregator_word(value)
    }
}

/// A number in decimal digits.
pub fn number_word(number: u32) -> Bytes
    ensures { result.items ≡ decimal number }
{
    let mut word: Bytes = ArrayVec::new();
    put_u32(number, &mut word);
    word
}

/// An address of either family.
pub fn addr_word(addr: Addr) -> Bytes
    ensures { result.items ≡ addr_text addr }
{
    let mut word: Bytes = ArrayVec::new();
    put_addr(addr, &mut word);
    word
}

/// A prefix with its number of bits, also where these are all.
pub fn prefix_word(prefix: &Prefix) -> Bytes
    ensures { result.items ≡ prefix_text prefix.now }
{
    let mut word: Bytes = ArrayVec::new();
    put_prefix(prefix, &mut word);
    word
}

/// The word of an origin.
pub fn origin_word(origin: Origin) -> &'static [u8]
    ensures { result.now ≡ origin_text origin }
{
    match origin {
        Origin::Igp => b"igp",
        Origin::Egp => b"egp",
        Origin::Incomplete => b"incomplete",
    }
}

// The two halves of a community.
fn community_word(number: u32) -> Bytes
    ensures { result.items ≡ community_text number }
{
    let mut word: Bytes = ArrayVec::new();
    put_u32(number / HALF_VALUES, &mut word);
    word.push(COLON);
    put_u32(number % HALF_VALUES, &mut word);
    word
}

// The eight bytes of an extended community in lower-case digits.
fn extended_word(bytes: &[u8; 8]) -> Bytes
    ensures { result.items ≡ extended_text bytes.now }
{
    let mut digits = [0; EXTENDED_DIGITS];
    let _ = encode_to_slice(bytes, &mut digits);
    let mut word: Bytes = ArrayVec::new();
    let _ = word.try_extend_from_slice(b"0x");
    let _ = word.try_extend_from_slice(&digits);
    word
}

// The three numbers of a large community.
fn large_word(large: &Large) -> Bytes
    ensures { result.items ≡ large_text large.now }
{
    let mut word: Bytes = ArrayVec::new();
    put_u32(large.global, &mut word);
    word.push(COLON);
    put_u32(large.first, &mut word);
    word.push(COLON);
    put_u32(large.second, &mut word);
    word
}

// The AS number and the address of an aggregator.
fn aggregator_word(by: &Aggregator) -> Bytes
    ensures { result.items ≡ aggregator_text by.now }
{
    let mut word: Bytes = ArrayVec::new();
    put_u32(by.asn, &mut word);
    word.push(COLON);
    put_ipv4(by.addr, &mut word);
    word
}
