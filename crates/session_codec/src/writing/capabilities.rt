//! Writes the optional parameter with the capabilities that settings offer (RFC 5492, section 4).
//!
//! ```text
//! +------+--------+------+--------+-------+--
//! | type | length | code | length | value | ..
//! | 1    | 1      | 1    | 1      | length|
//! +------+--------+------+--------+-------+--
//! ```
ghost use Rattle.std.specs.Prelude.{◌≡◌, ◌+◌, ◌≤◌, ◌++◌, length};
ghost use Rattle.std.specs.List.{flat_map};
ghost use Rattle.session_codec.specs.Written.{field_text, family_field, entry_text, entries_text};
ghost use Rattle.session_codec.specs.Written.{way_of, way_offered, field_when, afi_of};
ghost use Rattle.session_codec.specs.Written.{offered, parameter_text};

use crate::codes::{
    ADD_PATH, BOTH, CAPABILITIES, EXTENDED_MESSAGE, FOUR_BYTE_AS, MULTIPROTOCOL, RECEIVE, RESERVED,
    ROUTE_REFRESH, SEND,
};
use crate::offer::Path;
use arrayvec::ArrayVec;
use attr_codec::codes::{AFI_IPV4, AFI_IPV6, UNICAST};
use attr_codec::numbers::{u16_bytes, u32_bytes};
use route_values::{Family, Settings};

// How many bytes all capabilities have at most: two families of 6, two without a value, the AS number with 6, and
// ADD-PATH with two entries.
const CAPS_MAX: usize = 32;

// How many bytes the parameter has at most.
const PARAMETER_MAX: usize = 34;

// How many bytes the entries of ADD-PATH have at most: four for each family (RFC 7911, section 4).
const ENTRIES_MAX: usize = 8;

/// The parameter with what the settings offer.
pub fn parameter_of(own: &Settings) -> ArrayVec<u8, PARAMETER_MAX>
    ensures text { result.items ≡ parameter_text own.now }
    ensures fits { length result.items ≤ 34 }
{
    let caps = caps_of(own);
    let mut parameter = ArrayVec::new();
    let _ = parameter.try_extend_from_slice(&[CAPABILITIES, caps.len() as u8]);
    let _ = parameter.try_extend_from_slice(&caps);
    parameter
}

/// AFI, a reserved byte, and SAFI (RFC 4760, section 8; RFC 2918, section 3).
pub fn family_field(family: Family) -> [u8; 4]
    ensures { result ≡ family_field family }
{
    let [high, low] = u16_bytes(afi_of(family));
    [high, low, RESERVED, UNICAST]
}

fn afi_of(family: Family) -> u16
    ensures { result ≡ afi_of family }
{
    match family {
        Family::Ipv4 => AFI_IPV4,
        Family::Ipv6 => AFI_IPV6,
    }
}

// The capabilities that the settings offer, in rising order of their codes.
fn caps_of(own: &Settings) -> ArrayVec<u8, CAPS_MAX>
    ensures text { result.items ≡ flat_map field_text (offered own.now) }
    ensures fits { length result.items ≤ 32 }
{
    let entries = entries_of(own);
    let mut caps = ArrayVec::new();
    put_when(
        &mut caps,
        own.ipv4,
        MULTIPROTOCOL,
        &family_field(Family::Ipv4),
    );
    put_when(
        &mut caps,
        own.ipv6,
        MULTIPROTOCOL,
        &family_field(Family::Ipv6),
    );
    put_when(&mut caps, own.refresh, ROUTE_REFRESH, &[]);
    put_when(&mut caps, own.extended, EXTENDED_MESSAGE, &[]);
    put_when(&mut caps, true, FOUR_BYTE_AS, &u32_bytes(own.local_as));
    put_when(&mut caps, !entries.is_empty(), ADD_PATH, &entries);
    caps
}

// Puts a capability, where it stands.
fn put_when(caps: &mut ArrayVec<u8, CAPS_MAX>, stands: bool, code: u8, value: &[u8])
    requires { length caps.old.items + 2 + length value.now ≤ 32 }
    ensures text { caps.new.items
        ≡ caps.old.items ++ flat_map field_text (field_when stands code value.now) }
    ensures len { length caps.new.items ≤ length caps.old.items + 2 + length value.now }
{
    if stands {
        let _ = caps.try_extend_from_slice(&[code, value.len() as u8]);
        let _ = caps.try_extend_from_slice(value);
    }
}

// The entries of ADD-PATH.
fn entries_of(own: &Settings) -> ArrayVec<u8, ENTRIES_MAX>
    ensures text { result.items ≡ entries_text own.now }
    ensures fits { length result.items ≤ 8 }
{
    let mut entries = ArrayVec::new();
    put_entry(&mut entries, Family::Ipv4, way_offered(own, Family::Ipv4));
    put_entry(&mut entries, Family::Ipv6, way_offered(own, Family::Ipv6));
    entries
}

// Puts the entry of a family, where it has one.
fn put_entry(entries: &mut ArrayVec<u8, ENTRIES_MAX>, family: Family, way: Path)
    requires { length entries.old.items ≤ 4 }
    ensures text { entries.new.items ≡ entries.old.items ++ entry_text family way }
    ensures len { length entries.new.items ≤ length entries.old.items + 4 }
{
    let number = match way {
        Path::None => return,
        Path::Receive => RECEIVE,
        Path::Send => SEND,
        Path::Both => BOTH,
    };
    let [high, low] = u16_bytes(afi_of(family));
    let _ = entries.try_extend_from_slice(&[high, low, UNICAST, number]);
}

// Which way the settings offer path identifiers for a family that they have.
fn way_offered(own: &Settings, family: Family) -> Path
    ensures { result ≡ way_offered own.now family }
{
    match family {
        Family::Ipv4 if own.ipv4 => way_of(own.ipv4_receive, own.ipv4_send),
        Family::Ipv6 if own.ipv6 => way_of(own.ipv6_receive, own.ipv6_send),
        _ => Path::None,
    }
}

fn way_of(receives: bool, sends: bool) -> Path
    ensures { result ≡ way_of receives sends }
{
    match (receives, sends) {
        (false, false) => Path::None,
        (true, false) => Path::Receive,
        (false, true) => Path::Send,
        (true, true) => Path::Both,
    }
}
