//! Address prefixes.
ghost use Rattle.std.specs.Prelude.{◌≡◌, ◌≤◌, ◌%◌, ◌^◌, ◌↔◌, IsTrue};
ghost use Rattle.std.specs.Option.{SomeIff};
ghost use Rattle.route_values.specs.Octets.{addr_held, octets_of};
ghost use Rattle.route_values.specs.Prefix.{IsPrefix};

use crate::addr::{Addr, Family};
use std::marker::Model;

// How many bits an address of each family has.
const IPV4_BITS: u8 = 32;

const IPV6_BITS: u8 = 128;

/// The addresses that begin with the first `len` bits of an address (RFC 4271, section 4.3).
/// The address's other bits are zero.
///
/// # Order
/// By family, IPv4 first, then by address as a number, then by length.
#[derive(Clone, Copy, Debug, PartialEq, Eq, PartialOrd, Ord, Hash)]
pub struct Prefix {
    family: Family,
    // The address in network order. Behind the four bytes of an IPv4 address stand zeros.
    bytes: [u8; 16],
    len: u8,
}

impl Model for Prefix {
    ghost use Rattle.route_values.specs.Octets.{addr_held, octets_of, family_held};
    ghost use Rattle.route_values.specs.Addr.{family_of};
    ghost use Rattle.route_values.specs.Prefix.{Block, IsStored};

    ghost Value = { Block };

    ghost view = { λ p. record { addr = addr_held p.family p.bytes; len = p.len } };

    ghost invariant = { λ p. IsStored p.family p.bytes p.len };

    ghost inverse = { λ b. record {
      family = family_of b.addr;
      bytes = octets_of b.addr;
      len = b.len;
    } };

    ghost inverse_ok = { λ p h i. record {
      family = family_held p.family p.bytes i;
      bytes = h.held i;
      len = p.len;
    } };
}

impl Prefix {
    ghost use Rattle.route_values.specs.Addr.{family_of};
    ghost use Rattle.route_values.specs.Prefix.{Block, IsPrefix};

    /// The prefix of so many bits, or None where the length passes 32 (IPv4) or 128 (IPv6) or a bit past it is set.
    pub fn new(addr: Addr, len: u8) -> Option<Prefix>
        ensures { SomeIff result (IsPrefix addr len) (record { addr = addr; len = len }) }
    {
        if is_prefix(addr, len) {
            Some(Prefix {
                family: addr.family(),
                bytes: octets_of(addr),
                len,
            })
        } else {
            None
        }
    }

    /// The family of the address.
    pub fn family(&self) -> Family
        ensures { result ≡ family_of self.now.addr }
    {
        self.family
    }

    /// The address, whose bits past the length are zero.
    pub fn addr(&self) -> Addr
        ensures { result ≡ self.now.addr }
    {
        addr_held(self.family, self.bytes)
    }

    /// The number of bits: at most 32 for IPv4 and 128 for IPv6.
    pub fn len(&self) -> u8
        ensures value { result ≡ self.now.len }
        ensures canonical { IsPrefix self.now.addr self.now.len }
    {
        self.len
    }
}

// The address that sixteen bytes hold.
fn addr_held(family: Family, bytes: [u8; 16]) -> Addr
    ensures { result ≡ addr_held family bytes }
{
    match family {
        Family::Ipv4 => Addr::V4(u32::from_be_bytes([bytes[0], bytes[1], bytes[2], bytes[3]])),
        Family::Ipv6 => Addr::V6(u128::from_be_bytes(bytes)),
    }
}

// The sixteen bytes that hold an address.
fn octets_of(addr: Addr) -> [u8; 16]
    ensures { result ≡ octets_of addr }
{
    match addr {
        Addr::V4(number) => {
            let [a, b, c, d] = number.to_be_bytes();
            [a, b, c, d, 0, 0, 0, 0, 0, 0, 0, 0, 0, 0, 0, 0]
        }
        Addr::V6(number) => number.to_be_bytes(),
    }
}

// Whether an address has no bit set past a length that it can have.
fn is_prefix(addr: Addr, len: u8) -> bool
    ensures { IsTrue result ↔ IsPrefix addr len }
{
    let (number, width) = match addr {
        Addr::V4(number) => (u128::from(number), IPV4_BITS),
        Addr::V6(number) => (number, IPV6_BITS),
    };
    len <= width && ends_in_zeros(number, width - len)
}

// Whether the last bits of a number are zero.
fn ends_in_zeros(number: u128, bits: u8) -> bool
    requires { bits ≤ 128 }
    ensures { IsTrue result ↔ (number % 2 ^ bits ≡ 0) }
{
    if bits == IPV6_BITS {
        number == 0
    } else {
        number % (1 << bits) == 0
    }
}
