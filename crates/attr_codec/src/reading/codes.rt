//! What the code of an attribute says of it, and the codes that stood before.
ghost use Rattle.std.specs.Prelude.{◌≡◌, ◌==◌, [], ◌∷◌, List, ℕ, option_map};
ghost use Rattle.std.specs.List.{list_any};
ghost use Rattle.update_grammar.specs.Attributes.{kind};
ghost use Rattle.update_grammar.specs.ReadAttributes.{flags_of_code, has_flags};
ghost use Rattle.attr_codec.specs.Kind.{flags_of};
ghost use Rattle.attr_codec.specs.Marks.{HasCodes};

use crate::codes::{
    AGGREGATOR, AS_PATH, ATOMIC_AGGREGATE, CLUSTER_LIST, COMMUNITIES, EXTENDED_COMMUNITIES,
    KIND_SHIFT, Kind, LARGE_COMMUNITY, LOCAL_PREF, MP_REACH_NLRI, MP_UNREACH_NLRI, MULTI_EXIT_DISC,
    NEXT_HOP, OPTIONAL, ORIGIN, ORIGINATOR_ID,
};

// How many codes there are.
const CODES: usize = 256;

/// A set of codes. Each call but the first takes the same time, whatever the codes.
#[derive(Drop)]
pub struct Codes {
    marks: [bool; CODES],
}

impl Codes {
    /// No code.
    pub fn new() -> Codes
        ensures { HasCodes result [] }
    {
        Codes {
            marks: [false; CODES],
        }
    }

    /// Whether a code is among them.
    pub fn has(&self, code: u8) -> bool
        ensures { (codes : List ℕ) → HasCodes self.now codes
            → result ≡ list_any (λ other. other == code) codes }
    {
        self.marks[usize::from(code)]
    }

    /// Takes a code in.
    pub fn add(&mut self, code: u8)
        ensures { (codes : List ℕ) → HasCodes self.old codes → HasCodes self.new (code ∷ codes) }
    {
        self.marks[usize::from(code)] = true;
    }
}

/// Whether an attribute of a code may have these flags: one of a known code has its optional and transitive bits,
/// and one of an unknown code is optional (RFC 4271, section 6.3).
pub fn has_flags(code: u8, flags: u8) -> bool
    ensures { result ≡ has_flags (flags_of_code code) flags }
{
    match kind_of(code) {
        Some(kind) => flags >> KIND_SHIFT == kind.flags() >> KIND_SHIFT,
        None => flags >= OPTIONAL,
    }
}

// The kind of a known code.
fn kind_of(code: u8) -> Option<Kind>
    ensures { option_map flags_of result ≡ flags_of_code code }
{
    match code {
        ORIGIN | AS_PATH | NEXT_HOP | LOCAL_PREF | ATOMIC_AGGREGATE => Some(Kind::WellKnown),
        MULTI_EXIT_DISC | ORIGINATOR_ID | CLUSTER_LIST | MP_REACH_NLRI | MP_UNREACH_NLRI => {
            Some(Kind::Optional)
        }
        AGGREGATOR | COMMUNITIES | EXTENDED_COMMUNITIES | LARGE_COMMUNITY => {
            Some(Kind::OptionalTransitive)
        }
        _ => None,
    }
}
