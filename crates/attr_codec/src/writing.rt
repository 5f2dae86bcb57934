//! Writes path attributes.
ghost use Rattle.std.specs.Prelude.{◌≡◌, ◌+◌, ◌≤◌, ◌↔◌, [], All, length, IsTrue};
ghost use Rattle.std.specs.Bool.{OnTrue, OnFalse};
ghost use Rattle.route_values.specs.Addr.{family_of};
ghost use Rattle.update_grammar.specs.Codes.{code_atomic, code_aggregator};
ghost use Rattle.update_grammar.specs.Written.{attributes_text, unreach_text, raw_when, raw_if};
ghost use Rattle.update_grammar.specs.Attributes.{transitive, optional_transitive};
ghost use Rattle.update_grammar.specs.Values.{origin_number, aggregator_text};
ghost use Rattle.attr_codec.specs.Buffer.{HasRoom, Appended, max_message};
ghost use Rattle.attr_codec.specs.Groups.{first_text, second_text, third_text, last_text};
ghost use Rattle.attr_codec.specs.Groups.{atomic_attr, aggregator_attr};
ghost use Rattle.attr_codec.specs.Sizes.{IsShort, unreach_size};

mod head;
mod hop;
mod lengths;
mod lists;
mod path;

use crate::codes::{
    AGGREGATOR, AGGREGATOR_LEN, ATOMIC_AGGREGATE, CLUSTER_LIST, COMMUNITIES, EGP,
    EXTENDED_COMMUNITIES, IGP, INCOMPLETE, IPV6_UNICAST, Kind, LARGE_COMMUNITY, LOCAL_PREF,
    MP_UNREACH_NLRI, MULTI_EXIT_DISC, ORIGIN, ORIGINATOR_ID,
};
use crate::message::Message;
use head::{put_head, put_number, put_plain};
use hop::{put_next_hop, put_reach_head};
pub use lengths::attrs_len;
use lists::{put_exts, put_larges, put_u32s};
use path::put_path;
use route_values::{Aggregator, Family, Origin, WireAttrs};

/// Puts the attributes of an announcement at the end, in rising order of their codes (RFC 4271, section 5), where
/// they fit. An extended length is used exactly where a value passes 255 bytes. For IPv6 the
/// MP_REACH_NLRI is among them, without prefixes (RFC 4760, section 3), and there is no NEXT_HOP. Answers false, with
/// `out` as it was, exactly where they don't fit.
pub fn put_attrs(out: &mut Message, attrs: &WireAttrs, family: Family) -> bool
    requires hop { family_of attrs.now.hop ≡ family }
    requires short { All IsShort attrs.now.path }
    ensures fits { IsTrue result ↔ HasRoom out.old (length (attributes_text family attrs.now [])) }
    ensures ok { OnTrue result (Appended out.old out.new (attributes_text family attrs.now [])) }
    ensures refused { OnFalse result (out.new ≡ out.old) }
{
    if attrs_len(attrs, family) > out.spare() {
        return false;
    }
    append_attrs(out, attrs, family);
    true
}

/// Puts the attributes of an announcement at the end, as [`put_attrs`] does, where the caller knows that they fit.
pub fn append_attrs(out: &mut Message, attrs: &WireAttrs, family: Family)
    requires hop { family_of attrs.now.hop ≡ family }
    requires short { All IsShort attrs.now.path }
    requires room { out.old.room ≤ max_message }
    requires fits { HasRoom out.old (length (attributes_text family attrs.now [])) }
    ensures { Appended out.old out.new (attributes_text family attrs.now []) }
{
    put_first(out, attrs);
    put_second(out, attrs);
    put_third(out, attrs);
    put_last(out, attrs);
}

/// Puts an MP_UNREACH_NLRI of IPv6 without prefixes at the end (RFC 4760, section 4).
pub fn append_unreach(out: &mut Message)
    requires { HasRoom out.old unreach_size }
    ensures { Appended out.old out.new (unreach_text []) }
{
    put_plain(out, Kind::Optional, MP_UNREACH_NLRI, &IPV6_UNICAST);
}

// ORIGIN, AS_PATH and NEXT_HOP.
fn put_first(out: &mut Message, attrs: &WireAttrs)
    requires short { All IsShort attrs.now.path }
    requires room { out.old.room ≤ max_message }
    requires fits { HasRoom out.old (length (first_text (family_of attrs.now.hop) attrs.now)) }
    ensures { Appended out.old out.new (first_text (family_of attrs.now.hop) attrs.now) }
{
    put_plain(out, Kind::WellKnown, ORIGIN, &[origin_byte(attrs.origin)]);
    put_path(out, &attrs.path);
    put_next_hop(out, attrs.hop);
}

// MULTI_EXIT_DISC, LOCAL_PREF, ATOMIC_AGGREGATE and AGGREGATOR.
fn put_second(out: &mut Message, attrs: &WireAttrs)
    requires { HasRoom out.old (length (second_text attrs.now)) }
    ensures { Appended out.old out.new (second_text attrs.now) }
{
    put_number(out, Kind::Optional, MULTI_EXIT_DISC, attrs.med);
    put_number(out, Kind::WellKnown, LOCAL_PREF, attrs.local_pref);
    put_atomic(out, attrs.atomic);
    put_aggregator(out, attrs.aggregator);
}

// COMMUNITIES, ORIGINATOR_ID and CLUSTER_LIST.
fn put_third(out: &mut Message, attrs: &WireAttrs)
    requires room { out.old.room ≤ max_message }
    requires fits { HasRoom out.old (length (third_text attrs.now)) }
    ensures { Appended out.old out.new (third_text attrs.now) }
{
    let communities = attrs.communities.as_slice();
    put_u32s(out, Kind::OptionalTransitive, COMMUNITIES, communities);
    put_number(out, Kind::Optional, ORIGINATOR_ID, attrs.originator);
    put_u32s(out, Kind::Optional, CLUSTER_LIST, attrs.clusters.as_slice());
}

// MP_REACH_NLRI, EXTENDED COMMUNITIES and LARGE_COMMUNITY.
fn put_last(out: &mut Message, attrs: &WireAttrs)
    requires room { out.old.room ≤ max_message }
    requires fits { HasRoom out.old (length (last_text (family_of attrs.now.hop) attrs.now)) }
    ensures { Appended out.old out.new (last_text (family_of attrs.now.hop) attrs.now) }
{
    put_reach_head(out, attrs.hop);
    put_exts(out, attrs.extended.as_slice());
    put_larges(out, attrs.large.as_slice());
}

fn put_atomic(out: &mut Message, atomic: bool)
    requires { HasRoom out.old (length (atomic_attr atomic)) }
    ensures { Appended out.old out.new (atomic_attr atomic) }
{
    if atomic {
        put_plain(out, Kind::WellKnown, ATOMIC_AGGREGATE, &[]);
    }
}

fn put_aggregator(out: &mut Message, aggregator: Option<Aggregator>)
    requires { HasRoom out.old (length (aggregator_attr aggregator)) }
    ensures { Appended out.old out.new (aggregator_attr aggregator) }
{
    if let Some(aggregator) = aggregator {
        put_head(out, Kind::OptionalTransitive, AGGREGATOR, AGGREGATOR_LEN);
        out.append_u32(aggregator.asn);
        out.append_u32(aggregator.addr);
    }
}

fn origin_byte(origin: Origin) -> u8
    ensures { result ≡ origin_number origin }
{
    match origin {
        Origin::Igp => IGP,
        Origin::Egp => EGP,
        Origin::Incomplete => INCOMPLETE,
    }
}
