//! Prefixes of an open announcement of IPv6, which stand at the end of its MP_REACH_NLRI (RFC 4760, section 3).
//!
//! ```text
//! +--------+-----------+------------+------------+---------------+------------+
//! | header | withdrawn | attributes | attributes | MP_REACH_NLRI | attributes |
//! | 19     | length: 2 | length: 2  |            |               |            |
//! +--------+-----------+------------+------------+---------------+------------+
//! ```
ghost use Rattle.std.specs.Prelude.{ℕ, ◌≡◌, ◌+◌, ◌<◌, ◌≤◌, ◌++◌, List, length, drop, IsTrue};
ghost use Rattle.std.specs.Bool.{OnTrue, OnFalse};
ghost use Rattle.route_values.specs.declared.addr.Family.TheVariants.{Ipv6};
ghost use Rattle.route_values.specs.Key.{family_of_key};
ghost use Rattle.update_grammar.specs.Attributes.{Raw, IsRaw, raw_text, optional};
ghost use Rattle.update_grammar.specs.Codes.{code_reach};
ghost use Rattle.update_grammar.specs.Prefixes.{key_text};
ghost use Rattle.update_grammar.specs.Written.{raw};
ghost use Rattle.attr_codec.specs.Buffer.{HasRoom};
ghost use Rattle.attr_codec.specs.Groups.{raws_text};
ghost use Rattle.attr_codec.specs.Sizes.{short_head};
ghost use Rattle.update_codec.specs.Open.{IsOpenHere, AddsHere, TellsHereFits};
ghost use Rattle.update_codec.specs.Reach.{HasReach};
ghost use Rattle.update_codec.specs.Sizes.{frame_len};

use super::attribute::{CODE, Place, attribute_len, growth, put_last};
use super::frame::{FRAME_LEN, close_attributes};
use super::key::key_len;
use attr_codec::Message;
use attr_codec::codes::MP_REACH_NLRI;
use route_values::{Caps, Family, Key};

/// Puts one more IPv6 prefix into the MP_REACH_NLRI of an announcement, and makes all lengths right. It has its
/// identifier exactly where the session has path identifiers for IPv6. The length of the MP_REACH_NLRI has two bytes
/// exactly where its value passes 255 bytes. Answers false, with `out` as it was, exactly where it doesn't fit: it does
/// where there is room for the prefix and one byte more.
pub fn put_reach(out: &mut Message, caps: &Caps, key: &Key) -> bool
    requires family { family_of_key key.now ≡ Ipv6 }
    requires open { IsOpenHere caps.now Ipv6 out.old.bytes }

    // It fits exactly where the message with the prefix has no more bytes than the room.
    ensures fits { TellsHereFits caps.now Ipv6 key.now out.old result }
    ensures enough { HasRoom out.old (length (key_text caps.now.ipv6_path key.now) + 1)
        → IsTrue result }

    // What is left where it fits, and where it doesn't.
    ensures ok { OnTrue result (AddsHere caps.now Ipv6 key.now out.old.bytes out.new.bytes) }
    ensures least { OnTrue result (length out.old.bytes
        + length (key_text caps.now.ipv6_path key.now) ≤ length out.new.bytes) }
    ensures most { OnTrue result (length out.new.bytes
        ≤ length out.old.bytes + length (key_text caps.now.ipv6_path key.now) + 1) }
    ensures still_open { IsOpenHere caps.now Ipv6 out.new.bytes }
    ensures room { out.new.room ≡ out.old.room }
    ensures refused { OnFalse result (out.new ≡ out.old) }
{
    let path = caps.path(Family::Ipv6);
    let place = reach_place(out.bytes());
    if out.spare() < growth(place.end - place.start, key_len(key, path)) {
        return false;
    }
    put_last(out, place, MP_REACH_NLRI, key, path);
    close_attributes(out);
    true
}

// Where the MP_REACH_NLRI of a message stands.
fn reach_place(bytes: &[u8]) -> Place
    requires { HasReach (drop frame_len bytes.now) }
    ensures start { (has : HasReach (drop frame_len bytes.now))
        → result.start ≡ frame_len + length (raws_text has.raws) }
    ensures end { (has : HasReach (drop frame_len bytes.now))
        → result.end ≡ result.start + length (raw_text (raw optional code_reach has.value)) }
    ensures some { result.start + short_head ≤ result.end }
    ensures within { result.end ≤ length bytes.now }
{
    let (_, mut rest) = bytes.split_at(FRAME_LEN);
    while rest[CODE] != MP_REACH_NLRI {
        rest = behind_attribute(rest);
    }
    let start = bytes.len() - rest.len();
    Place {
        start,
        end: start + attribute_len(rest),
    }
}

// What stands behind the attribute at the front.
fn behind_attribute(bytes: &[u8]) -> &[u8]
    requires { HasReach bytes.now }
    ensures rest { (a : Raw) → (rest : List ℕ) → IsRaw a → bytes.now ≡ raw_text a ++ rest
        → result.now ≡ rest }
    ensures shorter { length result.now < length bytes.now }
{
    let (_, rest) = bytes.split_at(attribute_len(bytes));
    rest
}
