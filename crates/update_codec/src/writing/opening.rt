//! Messages without prefixes: those that prefixes are then put into, and End-of-RIB markers.
ghost use Rattle.std.specs.Prelude.{◌≡◌, ◌+◌, ◌≤◌, ◌↔◌, [], All, length, IsTrue};
ghost use Rattle.std.specs.Bool.{OnTrue, OnFalse};
ghost use Rattle.route_values.specs.Caps.{Caps};
ghost use Rattle.route_values.specs.Addr.{family_of};
ghost use Rattle.route_values.specs.Limits.{counts_sent, IsWithinLimits};
ghost use Rattle.update_grammar.specs.Head as head;
ghost use Rattle.update_grammar.specs.Written.{written, IsSendable};
ghost use Rattle.attr_codec.specs.Buffer.{HasRoom, Appended};
ghost use Rattle.attr_codec.specs.Sizes.{IsShort, attributes_size};
ghost use Rattle.update_codec.specs.Open.{IsOpenHere, IsOpenGone};
ghost use Rattle.update_codec.specs.Sizes.{least_room, frame_len, empty_size};

use super::frame::{FRAME_LEN, put_frame};
use attr_codec::{Message, append_attrs, append_unreach, attrs_len};
use route_values::{Family, WireAttrs};

// How many bytes an MP_UNREACH_NLRI without prefixes has: flags, code, length and family (RFC 4760, section 4).
const UNREACH_LEN: usize = 6;

/// Writes an announcement without prefixes: header, attributes, and all lengths. Prefixes of the family may follow,
/// for IPv4 behind the attributes. Answers false, with `out` as it was, exactly where it doesn't fit.
pub fn open_here(out: &mut Message, attrs: &WireAttrs, family: Family) -> bool
    requires empty { out.old.bytes ≡ [] }
    requires room { least_room ≤ out.old.room }
    requires hop { family_of attrs.now.hop ≡ family }
    requires short { All IsShort attrs.now.path }

    // It fits exactly where the message has no more bytes than the room, so it does within the limits of a route.
    ensures fits { (caps : Caps) →
        IsTrue result ↔ (length (written caps (head.Here family attrs.now) []) ≤ out.old.room) }
    ensures size { IsTrue result ↔ (frame_len + attributes_size family attrs.now ≤ out.old.room) }
    ensures within { IsSendable family attrs.now → IsWithinLimits (counts_sent attrs.now)
        → IsTrue result }

    // What is left where it fits, and where it doesn't.
    ensures len { OnTrue result
        (length out.new.bytes ≡ frame_len + attributes_size family attrs.now) }
    ensures ok { (caps : Caps) →
        OnTrue result (Appended out.old out.new (written caps (head.Here family attrs.now) [])) }
    ensures open { (caps : Caps) → OnTrue result (IsOpenHere caps family out.new.bytes) }
    ensures refused { OnFalse result (out.new ≡ out.old) }
{
    let len = attrs_len(attrs, family);
    if len > out.spare() - FRAME_LEN {
        return false;
    }
    put_frame(out, len);
    append_attrs(out, attrs, family);
    true
}

/// Writes a withdrawal without prefixes: header and all lengths, and for IPv6 an MP_UNREACH_NLRI. Prefixes of the
/// family may follow.
pub fn open_gone(out: &mut Message, family: Family)
    requires empty { out.old.bytes ≡ [] }
    requires room { least_room ≤ out.old.room }
    ensures ok { (caps : Caps) → Appended out.old out.new (written caps (head.Gone family) []) }
    ensures open { (caps : Caps) → IsOpenGone caps family out.new.bytes }
{
    put_empty(out, family);
}

/// Writes the End-of-RIB marker of a family (RFC 4724, section 2): an UPDATE of 23 bytes for IPv4, and for IPv6 one
/// whose only attribute is an MP_UNREACH_NLRI without prefixes. Answers false, with `out` as it was, exactly where it
/// doesn't fit.
pub fn put_end_of_rib(out: &mut Message, family: Family) -> bool
    requires empty { out.old.bytes ≡ [] }
    ensures fits { (caps : Caps) →
        IsTrue result ↔ HasRoom out.old (length (written caps (head.End family) [])) }
    ensures ok { (caps : Caps) →
        OnTrue result (Appended out.old out.new (written caps (head.End family) [])) }
    ensures refused { OnFalse result (out.new ≡ out.old) }
{
    if out.spare() < empty_len(family) {
        return false;
    }
    put_empty(out, family);
    true
}

fn empty_len(family: Family) -> usize
    ensures { result ≡ empty_size family }
{
    match family {
        Family::Ipv4 => FRAME_LEN,
        Family::Ipv6 => FRAME_LEN + UNREACH_LEN,
    }
}

// A message without announcement and without prefixes.
fn put_empty(out: &mut Message, family: Family)
    requires { HasRoom out.old (empty_size family) }
    ensures { (caps : Caps) → Appended out.old out.new (written caps (head.End family) []) }
{
    match family {
        Family::Ipv4 => put_frame(out, 0),
        Family::Ipv6 => {
            put_frame(out, UNREACH_LEN);
            append_unreach(out);
        }
    }
}
