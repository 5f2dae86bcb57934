//! The kinds of words that every grammar has.
ghost use Rattle.std.proofs.Common.{decimal, ◌∷◌, ◌++◌, arith, refl, inl};

use crate::words::Spelling;
use text_forms::{asn, ipv4, number};

/// An AS number (RFC 5396, section 2: plain or with a dot).
pub struct Asn;

impl Spelling for Asn {
    ghost use Rattle.text_forms.specs.Numbers.{IsAsn};

    type Value = u32;

    ghost spells = { λ kind word value. IsAsn word value };

    fn read(&self, word: &[u8]) -> Option<u32> {
        asn(word)
    }

    ghost is_some = { λ kind. (decimal 1, 1, (Prim.omega arith, Prim.omega arith, inl refl)) };
}

/// A number of 32 bits.
pub struct Number;

impl Spelling for Number {
    ghost use Rattle.route_grammar.specs.Numbers.{IsNumber};

    type Value = u32;

    ghost spells = { λ kind word value. IsNumber word value };

    fn read(&self, word: &[u8]) -> Option<u32> {
        number(word)
    }

    ghost is_some = { λ kind. (decimal 0, 0, (Prim.omega arith, refl)) };
}

/// An IPv4 address.
pub struct Ipv4;

impl Spelling for Ipv4 {
    ghost use Rattle.text_forms.specs.Addresses.{IsIpv4};

    type Value = u32;

    ghost spells = { λ kind word value. IsIpv4 word value };

    fn read(&self, word: &[u8]) -> Option<u32> {
        ipv4(word)
    }

    ghost is_some = { λ kind. (
      decimal 0 ++ 46 ∷ (decimal 0 ++ 46 ∷ (decimal 0 ++ 46 ∷ decimal 0)),
      0,
      record {
        first = 0;
        second = 0;
        third = 0;
        fourth = 0;
        first_small = Prim.omega arith;
        second_small = Prim.omega arith;
        third_small = Prim.omega arith;
        fourth_small = Prim.omega arith;
        text_is = refl;
        value = refl;
      },
    ) };
}
