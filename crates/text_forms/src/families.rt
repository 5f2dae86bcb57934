//! Addresses and prefixes of either family as texts.
ghost use Rattle.std.specs.Prelude.{◌≡◌, ◌≢◌, ◌<◌, ◌^◌, ◌++◌, ◌∷◌, ℕ, List, decimal, IfSome};
ghost use Rattle.std.specs.Prelude.{IfNone};
ghost use Rattle.route_values.specs.declared.addr.Addr.{Addr as Address};
ghost use Rattle.route_values.specs.Addr.{number_of, width_of};
ghost use Rattle.route_values.specs.Prefix.{Block, IsPrefix};
ghost use Rattle.text_forms.specs.Addresses.{IsIpv4};
ghost use Rattle.text_forms.specs.Families.{IsAddrText, IsBlockText};
ghost use Rattle.text_forms.specs.Ipv6.{IsIpv6};
ghost use Rattle.text_forms.specs.Printed.{addr_text, prefix_text};

use crate::addresses::ipv4;
use crate::cutting::cut;
use crate::decimals::octet;
use crate::ipv6_texts::ipv6;
use route_values::{Addr, Prefix};

// How many bits an address of each family has.
const IPV4_BITS: u8 = 32;

const IPV6_BITS: u8 = 128;

/// The address that a text spells, as `ipv4` or as `ipv6` reads it. No text spells one of each family.
pub fn addr(text: &[u8]) -> Option<Addr>
    ensures found { IfSome result (λ addr. IsAddrText text.now addr) }
    ensures only { IfSome result (λ addr. (other : Address) → IsAddrText text.now other
        → other ≡ addr) }
    ensures none { IfNone result ((other : Address) → IsAddrText text.now other → ⊥) }
{
    match ipv4(text) {
        Some(number) => Some(Addr::V4(number)),
        None => addr6(text),
    }
}

/// The prefix of either family that a text spells: an address, `/` and a number of bits past which no bit is set, or
/// an address alone for all its bits.
pub fn prefix(text: &[u8]) -> Option<Prefix>
    ensures found { IfSome result (λ prefix. IsBlockText text.now prefix) }
    ensures only { IfSome result
        (λ prefix. (other : Block) → IsBlockText text.now other → other ≡ prefix) }
    ensures none { IfNone result ((other : Block) → IsBlockText text.now other → ⊥) }
{
    match cut(text, b'/') {
        Some((front, len)) => masked(front, len),
        None => whole(text),
    }
}

/// What is printed of an address or a prefix spells it. So the readers give the printed value back, as a text spells
/// one value at most.
pub fn printed_is_spelled()
    ensures addr { (addr : Address) → number_of addr < 2 ^ width_of addr
        → IsAddrText (addr_text addr) addr }
    ensures prefix { (block : Block) → IsPrefix block.addr block.len
        → IsBlockText (prefix_text block) block }
{}

// The IPv6 address that a text spells.
fn addr6(text: &[u8]) -> Option<Addr>
    ensures found { IfSome result (λ addr. IsAddrText text.now addr) }
    ensures none { IfNone result ((other : ℕ) → IsIpv6 text.now other → ⊥) }
{
    let number = ipv6(text)?;
    Some(Addr::V6(number))
}

// The prefix of an address and a number of bits.
fn masked(front: &[u8], len: &[u8]) -> Option<Prefix>
    ensures found { IfSome result (λ prefix. IsBlockText (front.now ++ 47 ∷ len.now) prefix) }
    ensures none { IfNone result ((addr : Address) (bits : ℕ) → IsAddrText front.now addr
        → len.now ≡ decimal bits → IsPrefix addr bits → ⊥) }
{
    let addr = addr(front)?;
    let len = octet(len)?;
    Prefix::new(addr, len)
}

// The prefix of an address alone.
fn whole(text: &[u8]) -> Option<Prefix>
    ensures found { IfSome result (λ prefix. IsBlockText text.now prefix) }
    ensures none { IfNone result
        ((addr : Address) → IsAddrText text.now addr → IsPrefix addr (width_of addr) → ⊥) }
{
    let addr = addr(text)?;
    Prefix::new(addr, width(addr))
}

// How many bits an address has.
fn width(addr: Addr) -> u8
    ensures { result ≡ width_of addr }
{
    match addr {
        Addr::V4(_) => IPV4_BITS,
        Addr::V6(_) => IPV6_BITS,
    }
}
