//! Cuts parameters and capabilities off the front of bytes (RFC 4271, section 4.2; RFC 5492, section 4).
ghost use Rattle.std.specs.Prelude.{◌≡◌, ◌≤◌, length, option_map};
ghost use Rattle.update_grammar.specs.ReadFamilies.{family_of_numbers};
ghost use Rattle.session_codec.specs.Found.{is_cap, family_in};
ghost use Rattle.session_codec.specs.ReadOpen.{field_at};
ghost use Rattle.session_codec.specs.Said.{field_of};

use attr_codec::codes::{AFI_IPV4, AFI_IPV6, UNICAST};
use attr_codec::numbers::read_u16;
use route_values::Family;

// Where SAFI stands behind AFI and a reserved byte (RFC 4760, section 8).
const SAFI_AT: usize = 3;

/// A parameter or a capability whose value isn't looked at yet.
#[derive(Clone, Copy, Debug)]
pub struct RawField<'a> {
    pub code: u8,
    pub value: &'a [u8],
}

impl RawField<'_> {
    /// Whether it has this code, and a value of so many bytes.
    pub fn is(&self, code: u8, len: usize) -> bool
        ensures { result ≡ is_cap code len (field_of self.now) }
    {
        self.code == code && self.value.len() == len
    }
}

/// The parameter or capability at the front and the bytes behind it, or None where it is cut.
#[tactic(auto, unfolding(crate::specs::ReadOpen::field_at))]
pub fn field_at(bytes: &[u8]) -> Option<(RawField<'_>, &[u8])>
    ensures { option_map (λ one. (field_of one.0, one.1.now)) result ≡ field_at bytes.now }
{
    let [code, len, rest @ ..] = bytes else {
        return None;
    };
    let len = usize::from(*len);
    if rest.len() < len {
        return None;
    }
    let (value, rest) = rest.split_at(len);
    let field = RawField { code: *code, value };
    Some((field, rest))
}

/// The family of an AFI and a SAFI with a byte between them that isn't looked at.
pub fn family_in(value: &[u8]) -> Option<Family>
    requires { 4 ≤ length value.now }
    ensures { result ≡ family_in value.now }
{
    family_of(read_u16(value), value[SAFI_AT])
}

/// The family of these numbers.
pub fn family_of(afi: u16, safi: u8) -> Option<Family>
    ensures { result ≡ family_of_numbers afi safi }
{
    match (afi, safi) {
        (AFI_IPV4, UNICAST) => Some(Family::Ipv4),
        (AFI_IPV6, UNICAST) => Some(Family::Ipv6),
        _ => None,
    }
}
