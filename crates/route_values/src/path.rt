//! Paths of AS numbers.
ghost use Rattle.std.specs.Prelude.{◌≡◌};

use crate::items::Items;
use std::marker::Model;

/// Numbers of 32 bits: AS numbers, communities (RFC 1997), or cluster identifiers (RFC 4456).
pub type U32s = Items<u32>;

/// One part of an AS path (RFC 4271, section 4.3): AS numbers in order (AS_SEQUENCE), or as a set (AS_SET).
#[derive(Debug, Drop)]
pub struct Segment {
    pub set: bool,
    pub numbers: U32s,
}

/// An AS path: segments, each with at least one number.
#[derive(Debug, Drop)]
pub struct AsPath {
    segments: Vec<Segment>,
}

impl Model for AsPath {
    ghost use Rattle.std.specs.Prelude.{List};
    ghost use Rattle.route_values.specs.declared.path.Segment.{Segment};

    ghost Value = { List Segment };

    ghost use Rattle.route_values.specs.Path.{AllFilled};

    ghost view = { λ path. path.segments.items };

    ghost invariant = { λ path. AllFilled path.segments.items };
}

impl AsPath {
    ghost use Rattle.route_values.specs.Path.{AllFilled};

    /// The path of these segments.
    pub fn from_segments(segments: Vec<Segment>) -> AsPath
        requires { AllFilled segments.items }
        ensures { result ≡ segments.items }
    {
        AsPath { segments }
    }

    /// The segments in order.
    pub fn segments(&self) -> &[Segment]
        ensures value { result.now ≡ self.now }
        ensures filled { AllFilled self.now }
    {
        self.segments.as_slice()
    }
}
