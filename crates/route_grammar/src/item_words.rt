//! The kinds of words that items alone have.
ghost use Rattle.std.proofs.Common.{decimal, codes, ◌∷◌, ◌++◌, arith, refl, inl, inr};
ghost use Rattle.std.specs.Int.{w16, w32, to_be_bytes};
ghost use Rattle.route_values.specs.declared.attrs.Hop.TheVariants.{Own};
ghost use Rattle.route_values.specs.declared.attrs.Origin.TheVariants.{Igp};
ghost use Rattle.route_grammar.specs.declared.kind.Kind.TheVariants.{Med};

use crate::communities::{aggregator_of, community_of, large_of};
use crate::extended::extended_of;
use crate::kind::{Kind, kind_of};
use crate::values::{hop_of, origin_of, path_id_of};
use crate::words::Spelling;
use route_values::{Aggregator, Family, Hop, Large, Origin};

/// The word that an item begins with.
pub struct KindWord;

impl Spelling for KindWord {
    ghost use Rattle.route_grammar.specs.Items.{IsKeyword};

    type Value = Kind;

    ghost spells = { λ kind word value. IsKeyword word value };

    fn read(&self, word: &[u8]) -> Option<Kind> {
        kind_of(word)
    }

    ghost is_some = { λ kind. (codes "med", Med, refl) };
}

/// A next hop, of the family where one is wanted.
#[derive(Drop)]
pub struct HopWord {
    pub family: Option<Family>,
}

impl Spelling for HopWord {
    ghost use Rattle.route_grammar.specs.Numbers.{IsHop};

    type Value = Hop;

    ghost spells = { λ kind word value. IsHop kind.family word value };

    fn read(&self, word: &[u8]) -> Option<Hop> {
        hop_of(word, self.family)
    }

    ghost is_some = { λ kind. (codes "self", Own, refl) };
}

/// An origin.
pub struct OriginWord;

impl Spelling for OriginWord {
    ghost use Rattle.route_grammar.specs.Numbers.{IsOrigin};

    type Value = Origin;

    ghost spells = { λ kind word value. IsOrigin word value };

    fn read(&self, word: &[u8]) -> Option<Origin> {
        origin_of(word)
    }

    ghost is_some = { λ kind. (codes "igp", Igp, inl refl) };
}

/// A path identifier.
pub struct PathIdWord;

impl Spelling for PathIdWord {
    ghost use Rattle.route_grammar.specs.Numbers.{IsPathId};

    type Value = u32;

    ghost spells = { λ kind word value. IsPathId word value };

    fn read(&self, word: &[u8]) -> Option<u32> {
        path_id_of(word)
    }

    ghost is_some = { λ kind. (decimal 0, 0, inl (Prim.omega arith, refl)) };
}

/// A community.
pub struct CommunityWord;

impl Spelling for CommunityWord {
    ghost use Rattle.route_grammar.specs.Communities.{IsCommunity};

    type Value = u32;

    ghost spells = { λ kind word value. IsCommunity word value };

    fn read(&self, word: &[u8]) -> Option<u32> {
        community_of(word)
    }

    ghost is_some = { λ kind. (codes "blackhole", 4294902426, inr (inr (inr (inr (refl, refl))))) };
}

/// An extended community.
pub struct ExtendedWord;

impl Spelling for ExtendedWord {
    ghost use Rattle.route_grammar.specs.Communities.{IsExtended};

    type Value = [u8; 8];

    ghost spells = { λ kind word value. IsExtended word value };

    fn read(&self, word: &[u8]) -> Option<[u8; 8]> {
        extended_of(word)
    }

    ghost is_some = { λ kind. (
      codes "target" ++ 58 ∷ (decimal 0 ++ 58 ∷ decimal 0),
      0 ∷ 2 ∷ (to_be_bytes w16 0 ++ to_be_bytes w32 0),
      inr (record {
        name = codes "target";
        sort = 2;
        text = decimal 0;
        low = 0;
        sort_is = inl (refl, refl);
        parts = inr (inl (0, Prim.omega arith, refl, Prim.omega arith, refl));
        word_is = refl;
      }),
    ) };
}

/// A large community.
pub struct LargeWord;

impl Spelling for LargeWord {
    ghost use Rattle.route_grammar.specs.Communities.{IsLarge};

    type Value = Large;

    ghost spells = { λ kind word value. IsLarge word value };

    fn read(&self, word: &[u8]) -> Option<Large> {
        large_of(word)
    }

    ghost is_some = { λ kind. (
      decimal 0 ++ 58 ∷ (decimal 0 ++ 58 ∷ decimal 0),
      record { global = 0; first = 0; second = 0 },
      record {
        global_small = Prim.omega arith;
        first_small = Prim.omega arith;
        second_small = Prim.omega arith;
        word_is = refl;
      },
    ) };
}

/// An aggregator.
pub struct AggregatorWord;

impl Spelling for AggregatorWord {
    ghost use Rattle.route_grammar.specs.Communities.{IsAggregator};

    type Value = Aggregator;

    ghost spells = { λ kind word value. IsAggregator word value };

    fn read(&self, word: &[u8]) -> Option<Aggregator> {
        aggregator_of(word)
    }

    ghost is_some = { λ kind. (
      decimal 1 ++ 58 ∷ (decimal 0 ++ 46 ∷ (decimal 0 ++ 46 ∷ (decimal 0 ++ 46 ∷ decimal 0))),
      record { asn = 1; addr = 0 },
      record {
        asn = decimal 1;
        addr = decimal 0 ++ 46 ∷ (decimal 0 ++ 46 ∷ (decimal 0 ++ 46 ∷ decimal 0));
        asn_is = (Prim.omega arith, Prim.omega arith, inl refl);
        addr_is = record {
          first = 0;
          second = 0;
          third = 0;
          fourth = 0;
          first_small = Prim.omega arith;
          second_small = Prim.omega arith;
          third_small = Prim.omega arith;
          fourth_small = Prim.omega arith;
          text_is = refl;
          value = refl;
        };
        word_is = refl;
      },
    ) };
}
