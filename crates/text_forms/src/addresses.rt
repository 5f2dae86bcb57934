//! IPv4 addresses and prefixes as texts.
ghost use Rattle.std.specs.Prelude.{◌≡◌, ◌≢◌, ◌<◌, ◌++◌, ◌∷◌, ℕ, List, decimal, IfSome, IfNone};
ghost use Rattle.route_values.specs.declared.addr.Addr.TheVariants.{V4};
ghost use Rattle.route_values.specs.Prefix.{Block, IsPrefix};
ghost use Rattle.text_forms.specs.Addresses.{IsIpv4, IsPrefixText};

use crate::cutting::cut;
use crate::decimals::octet;
use route_values::{Addr, Prefix};

// How many bits an IPv4 address has.
const WIDTH: u8 = 32;

/// The IPv4 address that a text spells: four numbers up to 255 joined by dots, the highest byte first.
pub fn ipv4(text: &[u8]) -> Option<u32>
    ensures found { IfSome result (λ number. IsIpv4 text.now number) }
    ensures only { IfSome result (λ number. (other : ℕ) → IsIpv4 text.now other → other ≡ number) }
    ensures none { IfNone result ((other : ℕ) → IsIpv4 text.now other → ⊥) }
{
    let (a, after_a) = leading_octet(text)?;
    let (b, after_b) = leading_octet(after_a)?;
    let (c, after_c) = leading_octet(after_b)?;
    let d = octet(after_c)?;
    Some(u32::from_be_bytes([a, b, c, d]))
}

/// The IPv4 prefix that a text spells: an address, `/` and a number of bits up to 32 past which no bit is set,
/// or an address alone for all its 32 bits.
pub fn ipv4_prefix(text: &[u8]) -> Option<Prefix>
    ensures found { IfSome result (λ prefix. IsPrefixText text.now prefix) }
    ensures only { IfSome result
        (λ prefix. (other : Block) → IsPrefixText text.now other → other ≡ prefix) }
    ensures none { IfNone result ((other : Block) → IsPrefixText text.now other → ⊥) }
{
    match cut(text, b'/') {
        Some((addr, len)) => masked(addr, len),
        None => whole(text),
    }
}

// The number up to 255 before the first dot, and what follows that dot.
fn leading_octet(text: &[u8]) -> Option<(u8, &[u8])>
    ensures found { IfSome result (λ parts. text.now ≡ decimal parts.0 ++ 46 ∷ parts.1.now) }
    ensures only { IfSome result (λ parts. (number : ℕ) (tail : List ℕ) → number < 256
        → text.now ≡ decimal number ++ 46 ∷ tail → (number ≡ parts.0) × (tail ≡ parts.1.now)) }
    ensures none { IfNone result ((number : ℕ) (tail : List ℕ) → number < 256
        → text.now ≢ decimal number ++ 46 ∷ tail) }
{
    let (front, rest) = cut(text, b'.')?;
    let number = octet(front)?;
    Some((number, rest))
}

// The prefix of an address and a number of bits.
fn masked(addr: &[u8], len: &[u8]) -> Option<Prefix>
    ensures found { IfSome result (λ prefix. IsPrefixText (addr.now ++ 47 ∷ len.now) prefix) }
    ensures none { IfNone result ((number bits : ℕ) → IsIpv4 addr.now number
        → len.now ≡ decimal bits → IsPrefix (V4 number) bits → ⊥) }
{
    let number = ipv4(addr)?;
    let len = octet(len)?;
    Prefix::new(Addr::V4(number), len)
}

// The prefix of an address alone.
fn whole(text: &[u8]) -> Option<Prefix>
    ensures found { IfSome result (λ prefix. IsPrefixText text.now prefix) }
    ensures none { IfNone result
        ((number : ℕ) → IsIpv4 text.now number → IsPrefix (V4 number) 32 → ⊥) }
{
    let number = ipv4(text)?;
    Prefix::new(Addr::V4(number), WIDTH)
}
