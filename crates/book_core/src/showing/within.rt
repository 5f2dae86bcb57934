//! Whether a key's prefix lies within another.
ghost use Rattle.std.specs.Prelude.{◌≡◌, ◌≤◌, ◌/◌, ◌^◌};
ghost use Rattle.book_history.specs.Shows.{first_bits, is_within, lies_in};

use route_values::{Addr, Key, Prefix};

// How many bits an address of each family has.
const IPV4_BITS: u8 = 32;

const IPV6_BITS: u8 = 128;

/// Whether a key is to be shown: each is where no prefix is given, else those whose own prefix lies within it.
pub fn is_within(within: &Option<Prefix>, key: &Key) -> bool
    ensures { result ≡ is_within within.now key.now }
{
    match within {
        Some(outer) => lies_in(outer, &key.prefix),
        None => true,
    }
}

// Whether a prefix lies within another of its family.
fn lies_in(outer: &Prefix, inner: &Prefix) -> bool
    ensures { result ≡ lies_in outer.now inner.now }
{
    if outer.family() != inner.family() {
        return false;
    }
    if inner.len() < outer.len() {
        return false;
    }
    first_bits(outer.len(), inner) == first_bits(outer.len(), outer)
}

// The first bits of a prefix's address, as a number.
fn first_bits(len: u8, prefix: &Prefix) -> u128
    ensures { result ≡ first_bits len prefix.now }
{
    match prefix.addr() {
        Addr::V4(number) => without_last(u128::from(number), IPV4_BITS.saturating_sub(len)),
        Addr::V6(number) => without_last(number, IPV6_BITS.saturating_sub(len)),
    }
}

// A number without its last bits.
fn without_last(number: u128, bits: u8) -> u128
    requires { bits ≤ 128 }
    ensures { result ≡ number / 2 ^ bits }
{
    if bits == IPV6_BITS {
        return 0;
    }
    number >> bits
}
