//! Communities (RFC 1997), large communities (RFC 8092) and aggregators, each in one word.
ghost use Rattle.std.specs.Prelude.{◌≡◌, ◌≢◌, ◌<◌, ◌^◌, ◌++◌, ◌∷◌, ℕ, List, decimal, IfSome};
ghost use Rattle.std.specs.Prelude.{IfNone};
ghost use Rattle.route_values.specs.declared.attrs.Aggregator.{Aggregator as AnyAggregator};
ghost use Rattle.route_values.specs.declared.attrs.Large.{Large as AnyLarge};
ghost use Rattle.text_forms.specs.Addresses.{IsIpv4};
ghost use Rattle.text_forms.specs.Numbers.{IsAsn};
ghost use Rattle.route_grammar.specs.Communities.{IsJoined, IsNamed, IsCommunity, IsLarge};
ghost use Rattle.route_grammar.specs.Communities.{IsAggregator};

use crate::kind::is;
use route_values::{Aggregator, Large};
use text_forms::{asn, cut, half, ipv4, number};

/// What stands between the parts of such a word.
pub const COLON: u8 = b':';

// The communities that have a name (RFC 1997, "Well-known Communities"; RFC 7999, section 5).
const NO_EXPORT: u32 = 0xFFFF_FF01;

const NO_ADVERTISE: u32 = 0xFFFF_FF02;

const NO_EXPORT_SUBCONFED: u32 = 0xFFFF_FF03;

const BLACKHOLE: u32 = 0xFFFF_029A;

// How many values a half of a community has.
const HALF_VALUES: u32 = 65_536;

/// The community that a word spells: two numbers of 16 bits joined by `:`, or a name.
pub fn community_of(word: &[u8]) -> Option<u32>
    ensures found { IfSome result (λ number. IsCommunity word.now number) }
    ensures none { IfNone result ((other : ℕ) → IsCommunity word.now other → ⊥) }
{
    match cut(word, COLON) {
        Some((high, low)) => joined(high, low),
        None => named(word),
    }
}

// The community of two halves.
fn joined(high: &[u8], low: &[u8]) -> Option<u32>
    ensures found { IfSome result (λ number. IsJoined (high.now ++ 58 ∷ low.now) number) }
    ensures none { IfNone result ((upper lower : ℕ) → upper < 65536 → lower < 65536
        → high.now ≡ decimal upper → low.now ≢ decimal lower) }
{
    let high = half(high)?;
    let low = half(low)?;
    Some(u32::from(high) * HALF_VALUES + u32::from(low))
}

// The community of a name.
fn named(word: &[u8]) -> Option<u32>
    ensures found { IfSome result (λ number. IsNamed word.now number) }
    ensures none { IfNone result ((other : ℕ) → IsNamed word.now other → ⊥) }
{
    if is(word, b"no-export") {
        return Some(NO_EXPORT);
    }
    if is(word, b"no-advertise") {
        return Some(NO_ADVERTISE);
    }
    if is(word, b"no-export-subconfed") {
        return Some(NO_EXPORT_SUBCONFED);
    }
    if is(word, b"blackhole") {
        return Some(BLACKHOLE);
    }
    None
}

/// The large community that a word spells: three numbers of 32 bits joined by `:`.
pub fn large_of(word: &[u8]) -> Option<Large>
    ensures found { IfSome result (λ large. IsLarge word.now large) }
    ensures none { IfNone result ((other : AnyLarge) → IsLarge word.now other → ⊥) }
{
    let (global, parts) = leading(word)?;
    let (first, rest) = leading(parts)?;
    let second = number(rest)?;
    Some(Large {
        global,
        first,
        second,
    })
}

// The number before the first `:`, and what follows that.
fn leading(text: &[u8]) -> Option<(u32, &[u8])>
    ensures found { IfSome result (λ parts. text.now ≡ decimal parts.0 ++ 58 ∷ parts.1.now) }
    ensures only { IfSome result (λ parts. (number : ℕ) (tail : List ℕ) → number < 2 ^ 32
        → text.now ≡ decimal number ++ 58 ∷ tail → tail ≡ parts.1.now) }
    ensures none { IfNone result ((number : ℕ) (tail : List ℕ) → number < 2 ^ 32
        → text.now ≢ decimal number ++ 58 ∷ tail) }
{
    let (front, rest) = cut(text, COLON)?;
    let number = number(front)?;
    Some((number, rest))
}

/// The aggregator that a word spells: an AS number and an IPv4 address joined by `:`.
pub fn aggregator_of(word: &[u8]) -> Option<Aggregator>
    ensures found { IfSome result (λ aggregator. IsAggregator word.now aggregator) }
    ensures none { IfNone result ((other : AnyAggregator) → IsAggregator word.now other → ⊥) }
{
    match cut(word, COLON) {
        Some((number, address)) => paired(number, address),
        None => None,
    }
}

// The aggregator of an AS number and an address.
fn paired(number: &[u8], address: &[u8]) -> Option<Aggregator>
    ensures found { IfSome result
        (λ aggregator. IsAggregator (number.now ++ 58 ∷ address.now) aggregator) }
    ensures none { IfNone result
        ((asn addr : ℕ) → IsAsn number.now asn → IsIpv4 address.now addr → ⊥) }
{
    let asn = asn(number)?;
    let addr = ipv4(address)?;
    Some(Aggregator { asn, addr })
}
