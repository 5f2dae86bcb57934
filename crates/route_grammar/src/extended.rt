//! Extended communities (RFC 4360), each in one word.
ghost use Rattle.std.specs.Prelude.{◌≡◌, ◌≢◌, ◌<◌, ◌≤◌, ◌++◌, ◌∷◌, ℕ, List, decimal, length};
ghost use Rattle.std.specs.Prelude.{IfSome, IfNone};
ghost use Rattle.std.specs.Char.{digit_value};
ghost use Rattle.std.specs.Int.{w16, w32, to_be_bytes};
ghost use Rattle.std.specs.Option.{SomeIff};
ghost use Rattle.std.specs.Str.Parse.{AllDigits, digits_value};
ghost use Rattle.text_forms.specs.Addresses.{IsIpv4};
ghost use Rattle.route_grammar.specs.Communities.{IsHexadecimal, IsSort, IsParts, IsSorted};
ghost use Rattle.route_grammar.specs.Communities.{IsExtended};

use crate::communities::COLON;
use crate::kind::is;
use text_forms::{cut, ipv4, number};

// What a community in digits begins with.
const IN_DIGITS: &[u8] = b"0x";

// How many digits stand behind that.
const DIGITS: usize = 16;

// How many values a digit has, and a number of 16 bits.
const DIGIT_VALUES: u64 = 16;

const HALF_VALUES: u32 = 65_536;

// The first bytes, by what the community's first part is (RFC 4360, sections 3.1 and 3.2; RFC 5668, section 2).
const OF_HALF: u8 = 0;

const OF_ADDRESS: u8 = 1;

const OF_NUMBER: u8 = 2;

// The second bytes (RFC 4360, sections 4 and 5).
const TARGET: u8 = 2;

const ORIGIN: u8 = 3;

/// The extended community that a word spells: 16 hexadecimal digits behind `0x`, or `target` or `origin` and two
/// parts, joined by `:`.
pub fn extended_of(word: &[u8]) -> Option<[u8; 8]>
    ensures found { IfSome result (λ bytes. IsExtended word.now bytes) }
    ensures none { IfNone result ((other : List ℕ) → IsExtended word.now other → ⊥) }
{
    match cut(word, COLON) {
        Some((name, parts)) => sorted(name, parts),
        None => hexadecimal(word),
    }
}

// The community of digits of either case.
fn hexadecimal(word: &[u8]) -> Option<[u8; 8]>
    ensures found { IfSome result (λ bytes. IsHexadecimal word.now bytes) }
    ensures none { IfNone result ((other : List ℕ) → IsHexadecimal word.now other → ⊥) }
{
    let digits = word.strip_prefix(IN_DIGITS)?;
    if digits.len() != DIGITS {
        return None;
    }
    let number = number_of(digits)?;
    Some(number.to_be_bytes())
}

// The number of sixteen hexadecimal digits.
fn number_of(digits: &[u8]) -> Option<u64>
    requires { length digits.now ≡ 16 }
    ensures { SomeIff result (AllDigits 16 digits.now) (digits_value 16 digits.now) }
{
    let mut number = 0;
    for (i, byte) in digits.iter().enumerate() {
        let Some(digit) = digit(*byte) else {
            return None;
        };
        number = number * DIGIT_VALUES + u64::from(digit);
    }
    Some(number)
}

// The value of a hexadecimal digit of either case.
fn digit(byte: u8) -> Option<u32>
    ensures { SomeIff result (digit_value byte < 16) (digit_value byte) }
{
    char::from(byte).to_digit(DIGIT_VALUES as u32)
}

// The community of a name and two parts.
fn sorted(name: &[u8], parts: &[u8]) -> Option<[u8; 8]>
    ensures found { IfSome result (λ bytes. IsSorted (name.now ++ 58 ∷ parts.now) bytes) }
    ensures none { IfNone result ((sort : ℕ) (text : List ℕ) (low : ℕ) (bytes : List ℕ)
        → IsSort name.now sort → IsParts text sort low bytes
        → parts.now ≢ text ++ 58 ∷ decimal low) }
{
    let sort = sort_of(name)?;
    let (text, rest) = cut(parts, COLON)?;
    let low = number(rest)?;
    bytes_of(text, sort, low)
}

// The second byte that a name stands for.
fn sort_of(name: &[u8]) -> Option<u8>
    ensures found { IfSome result (λ sort. IsSort name.now sort) }
    ensures none { IfNone result ((other : ℕ) → IsSort name.now other → ⊥) }
{
    if is(name, b"target") {
        return Some(TARGET);
    }
    if is(name, b"origin") {
        return Some(ORIGIN);
    }
    None
}

// The community of a first part, an address or a number, and a second one.
fn bytes_of(text: &[u8], sort: u8, low: u32) -> Option<[u8; 8]>
    ensures found { IfSome result (λ bytes. IsParts text.now sort low bytes) }
    ensures none { IfNone result ((bytes : List ℕ) → IsParts text.now sort low bytes → ⊥) }
{
    match ipv4(text) {
        Some(addr) => with_half(OF_ADDRESS, sort, addr, low),
        None => numbered(text, sort, low),
    }
}

// The community whose first part is a number.
fn numbered(text: &[u8], sort: u8, low: u32) -> Option<[u8; 8]>
    requires { (addr : ℕ) → IsIpv4 text.now addr → ⊥ }
    ensures found { IfSome result (λ bytes. IsParts text.now sort low bytes) }
    ensures none { IfNone result ((bytes : List ℕ) → IsParts text.now sort low bytes → ⊥) }
{
    let high = number(text)?;
    if high >= HALF_VALUES {
        return with_half(OF_NUMBER, sort, high, low);
    }
    let [a, b] = (high as u16).to_be_bytes();
    let [c, d, e, f] = low.to_be_bytes();
    Some([OF_HALF, sort, a, b, c, d, e, f])
}

// The community of a part of four bytes and one of two, where that has room.
fn with_half(first: u8, sort: u8, high: u32, low: u32) -> Option<[u8; 8]>
    ensures found { IfSome result (λ bytes. (low < 65536)
        × (bytes ≡ first ∷ sort ∷ (to_be_bytes w32 high ++ to_be_bytes w16 low))) }
    ensures none { IfNone result (65536 ≤ low) }
{
    if low >= HALF_VALUES {
        return None;
    }
    let [a, b, c, d] = high.to_be_bytes();
    let [e, f] = (low as u16).to_be_bytes();
    Some([first, sort, a, b, c, d, e, f])
}
