//! What capabilities say, gathered from the front (RFC 5492, section 4).
ghost use Rattle.std.specs.Prelude.{◌≡◌, []};
ghost use Rattle.session_codec.specs.Found.{as_said, has_said, entries_said};
ghost use Rattle.session_codec.specs.Said.{field_of, ways_by, said_by, said_of, said_then};

use super::field::{RawField, family_in};
use super::ways::{Ways, is_family, ways_in};
use crate::codes::{ADD_PATH, EXTENDED_MESSAGE, FOUR_BYTE_AS, MULTIPROTOCOL, ROUTE_REFRESH};
use attr_codec::numbers::read_u32;
use route_values::Family;

// How many bytes a family has (RFC 4760, section 8).
const FAMILY_LEN: usize = 4;

/// How many bytes the number of an AS has (RFC 6793, section 3).
pub const AS_LEN: usize = 4;

/// What capabilities say.
#[derive(Clone, Copy, Debug)]
pub struct Said {
    /// The first number of an AS.
    pub asn: Option<u32>,
    /// Whether there is a family at all, also one that isn't known here.
    pub families: bool,
    pub ipv4: bool,
    pub ipv6: bool,
    pub refresh: bool,
    pub extended: bool,
    pub ways: Ways,
}

impl Said {
    /// What no capability says.
    pub fn nothing() -> Said
        ensures { result ≡ said_by [] }
    {
        Said {
            asn: None,
            families: false,
            ipv4: false,
            ipv6: false,
            refresh: false,
            extended: false,
            ways: Ways::none(),
        }
    }

    /// This, and then what capabilities behind say.
    pub fn followed_by(self, next: Said) -> Said
        ensures { result ≡ said_then self next }
    {
        Said {
            asn: self.asn.or(next.asn),
            families: self.families || next.families,
            ipv4: self.ipv4 || next.ipv4,
            ipv6: self.ipv6 || next.ipv6,
            refresh: self.refresh || next.refresh,
            extended: self.extended || next.extended,
            ways: self.ways.followed_by(next.ways),
        }
    }
}

/// What a capability says.
pub fn said_of(cap: &RawField<'_>) -> Said
    ensures { result ≡ said_of (field_of cap.now) }
{
    Said {
        asn: as_said(cap),
        families: cap.is(MULTIPROTOCOL, FAMILY_LEN),
        ipv4: has_said(cap, Family::Ipv4),
        ipv6: has_said(cap, Family::Ipv6),
        refresh: cap.is(ROUTE_REFRESH, 0),
        extended: cap.is(EXTENDED_MESSAGE, 0),
        ways: ways_said(cap),
    }
}

fn as_said(cap: &RawField<'_>) -> Option<u32>
    ensures { result ≡ as_said (field_of cap.now) }
{
    if cap.is(FOUR_BYTE_AS, AS_LEN) {
        Some(read_u32(cap.value))
    } else {
        None
    }
}

fn has_said(cap: &RawField<'_>, family: Family) -> bool
    ensures { result ≡ has_said family (field_of cap.now) }
{
    cap.is(MULTIPROTOCOL, FAMILY_LEN) && is_family(family, family_in(cap.value))
}

fn ways_said(cap: &RawField<'_>) -> Ways
    ensures { result ≡ ways_by (entries_said (field_of cap.now)) }
{
    if cap.code == ADD_PATH {
        ways_in(cap.value)
    } else {
        Ways::none()
    }
}
