//! How many bytes path attributes take, before any is written.
ghost use Rattle.std.specs.Prelude.{◌≡◌, ◌+◌, ◌*◌, ◌-◌, ◌^◌, ◌<◌, ◌≤◌, [], min, is_some, length};
ghost use Rattle.update_grammar.specs.Codes.{short_max, ext_len};
ghost use Rattle.update_grammar.specs.Values.{exts_text};
ghost use Rattle.update_grammar.specs.Written.{attributes_text};
ghost use Rattle.attr_codec.specs.Sizes.{IsShort, attr_size, size_if, list_size, segment_size};
ghost use Rattle.attr_codec.specs.Sizes.{path_size, fixed_size, attributes_size, hop_size};

use crate::codes::{
    AGGREGATOR_LEN, EXT_LEN, EXTENDED_HEAD_LEN, HEAD_LEN, IPV6_HOP_LEN, LARGE_LEN, NUMBER_LEN,
    REACH_FIXED, SEGMENT_HEAD, SHORT_MAX,
};
use route_values::{Addr, AsPath, Family, Segment, WireAttrs};

// ORIGIN, whose value is one byte.
const ORIGIN_LEN: usize = HEAD_LEN + 1;

/// The length of the attributes of an announcement, without prefixes of IPv6, in bytes: 2^64 - 1 stands for any
/// greater length. `attributes_size` says it by parts.
pub fn attrs_len(attrs: &WireAttrs, family: Family) -> usize
    ensures size { result ≡ min (attributes_size family attrs.now) (2 ^ 64 - 1) }
    ensures value { result ≡ min (length (attributes_text family attrs.now [])) (2 ^ 64 - 1) }
{
    fixed_len(attrs, family)
        .saturating_add(path_attr_len(&attrs.path))
        .saturating_add(list_len(attrs.communities.len(), NUMBER_LEN))
        .saturating_add(list_len(attrs.clusters.len(), NUMBER_LEN))
        .saturating_add(exts_len(attrs.extended.as_slice()))
        .saturating_add(list_len(attrs.large.len(), LARGE_LEN))
}

/// The length of the segments of a path, as far as 64 bits can tell.
pub fn path_len(path: &AsPath) -> usize
    ensures { result ≡ min (path_size path.now) (2 ^ 64 - 1) }
{
    let mut total = 0usize;
    for segment in path.segments() {
        total = total.saturating_add(segment_len(segment));
    }
    total
}

fn segment_len(segment: &Segment) -> usize
    ensures { result ≡ min (segment_size segment.now) (2 ^ 64 - 1) }
{
    segment
        .numbers
        .len()
        .saturating_mul(NUMBER_LEN)
        .saturating_add(SEGMENT_HEAD)
}

// The attributes whose values have a fixed length.
fn fixed_len(attrs: &WireAttrs, family: Family) -> usize
    ensures { result ≡ fixed_size family attrs.now }
{
    ORIGIN_LEN
        + hop_len(family, attrs.hop)
        + len_if(attrs.med.is_some(), NUMBER_LEN)
        + len_if(attrs.local_pref.is_some(), NUMBER_LEN)
        + len_if(attrs.atomic, 0)
        + len_if(attrs.aggregator.is_some(), AGGREGATOR_LEN)
        + len_if(attrs.originator.is_some(), NUMBER_LEN)
}

// NEXT_HOP, or MP_REACH_NLRI with an empty list of prefixes.
fn hop_len(family: Family, hop: Addr) -> usize
    ensures { result ≡ hop_size family hop }
{
    let addr = match hop {
        Addr::V4(_) => NUMBER_LEN,
        Addr::V6(_) => IPV6_HOP_LEN,
    };
    match family {
        Family::Ipv4 => HEAD_LEN + addr,
        Family::Ipv6 => HEAD_LEN + REACH_FIXED + addr,
    }
}

// An attribute whose value has so many bytes, where it stands.
fn len_if(stands: bool, len: usize) -> usize
    requires { len ≤ short_max }
    ensures { result ≡ size_if stands len }
{
    if stands { HEAD_LEN + len } else { 0 }
}

// AS_PATH.
fn path_attr_len(path: &AsPath) -> usize
    ensures { result ≡ min (attr_size (path_size path.now)) (2 ^ 64 - 1) }
{
    attr_len(path_len(path))
}

// EXTENDED COMMUNITIES. Each of them has eight bytes.
fn exts_len(exts: &[[u8; 8]]) -> usize
    ensures value { result ≡ min (list_size (length exts.now) ext_len) (2 ^ 64 - 1) }
    ensures eight { length (exts_text exts.now) ≡ length exts.now * ext_len }
{
    list_len(exts.len(), EXT_LEN)
}

// An attribute with a list of so many values of so many bytes each.
fn list_len(count: usize, width: usize) -> usize
    ensures { result ≡ min (list_size count width) (2 ^ 64 - 1) }
{
    if count == 0 {
        return 0;
    }
    attr_len(count.saturating_mul(width))
}

// An attribute whose value has so many bytes.
fn attr_len(len: usize) -> usize
    ensures { result ≡ min (attr_size len) (2 ^ 64 - 1) }
{
    len.saturating_add(if len > SHORT_MAX {
        EXTENDED_HEAD_LEN
    } else {
        HEAD_LEN
    })
}
