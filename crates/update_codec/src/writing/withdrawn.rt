//! Prefixes of an open withdrawal.
//!
//! Those of IPv4 stand in the field of withdrawn routes, between its length and that of the attributes, which is 0.
//! Those of IPv6 stand at the end of the one attribute, an MP_UNREACH_NLRI.
//!
//! ```text
//! +--------+-----------+------------+-------+------+-----------+-------------+----------+
//! | header | withdrawn | attributes | flags | code | length    | AFI, SAFI   | prefixes |
//! | 19     | length: 2 | length: 2  | 1     | 1    | 1, or 2   | 3           |          |
//! +--------+-----------+------------+-------+------+-----------+-------------+----------+
//! ```
ghost use Rattle.std.specs.Prelude.{ℕ, ◌≡◌, ◌+◌, ◌≤◌, ◌↔◌, [], ◌++◌, List, length, IsTrue};
ghost use Rattle.std.specs.Bool.{OnTrue, OnFalse};
ghost use Rattle.route_values.specs.declared.addr.Family.TheVariants.{Ipv4, Ipv6};
ghost use Rattle.route_values.specs.Key.{family_of_key};
ghost use Rattle.update_grammar.specs.Codes.{update_type};
ghost use Rattle.update_grammar.specs.Prefixes.{key_text};
ghost use Rattle.update_grammar.specs.Update.{body};
ghost use Rattle.update_grammar.specs.Written.{message, unreach_text};
ghost use Rattle.attr_codec.specs.Buffer.{HasRoom, max_message};
ghost use Rattle.update_codec.specs.Open.{IsOpenGone, AddsGone, TellsGoneFits};
ghost use Rattle.update_codec.specs.Sizes.{frame_len, empty_size, longest_key, key_size};
ghost use Rattle.update_codec.specs.Sizes.{unreach_growth};

use super::attribute::{Place, growth, put_last};
use super::frame::{FRAME_LEN, LEN_LEN, close_attributes};
use super::key::{insert_key, key_len};
use attr_codec::Message;
use attr_codec::codes::MP_UNREACH_NLRI;
use attr_codec::numbers::u16_bytes;
use route_values::{Caps, Family, Key};

// Where the length of the withdrawn routes stands (RFC 4271, section 4.3).
const WITHDRAWN_LEN: usize = 19;

/// Puts one more prefix into a withdrawal of its family, and makes all lengths right. It has its identifier exactly
/// where the session has path identifiers for the family. The length of an MP_UNREACH_NLRI has two bytes exactly where
/// its value passes 255 bytes. Answers false, with `out` as it was, exactly where it doesn't fit.
pub fn put_unreach(out: &mut Message, caps: &Caps, key: &Key) -> bool
    requires open { IsOpenGone caps.now (family_of_key key.now) out.old.bytes }

    // It fits exactly where the message with the prefix has no more bytes than the room.
    ensures fits { TellsGoneFits caps.now (family_of_key key.now) key.now out.old result }
    ensures size { IsTrue result ↔ HasRoom out.old (unreach_growth (family_of_key key.now)
        (length out.old.bytes) (key_size caps.now key.now)) }

    // What is left where it fits, and where it doesn't.
    ensures ok { OnTrue result
        (AddsGone caps.now (family_of_key key.now) key.now out.old.bytes out.new.bytes) }
    ensures len { OnTrue result (length out.new.bytes ≡ length out.old.bytes
        + unreach_growth (family_of_key key.now) (length out.old.bytes)
        (key_size caps.now key.now)) }
    ensures still_open { IsOpenGone caps.now (family_of_key key.now) out.new.bytes }
    ensures room { out.new.room ≡ out.old.room }
    ensures refused { OnFalse result (out.new ≡ out.old) }
{
    let family = key.family();
    let path = caps.path(family);
    if out.spare() < withdrawal_growth(family, out.bytes().len(), key_len(key, path)) {
        return false;
    }
    match family {
        Family::Ipv4 => put_withdrawn(out, key, path),
        Family::Ipv6 => put_unreached(out, key, path),
    }
    true
}

// By how much a withdrawal of so many bytes grows with a prefix of so many.
fn withdrawal_growth(family: Family, len: usize, more: usize) -> usize
    requires open { frame_len ≤ len }
    requires small { len ≤ max_message }
    requires short { more ≤ longest_key }
    ensures { result ≡ unreach_growth family len more }
{
    match family {
        Family::Ipv4 => more,
        Family::Ipv6 => growth(len - FRAME_LEN, more),
    }
}

fn put_withdrawn(out: &mut Message, key: &Key, path: bool)
    requires open { frame_len ≤ length out.old.bytes }
    requires fits { HasRoom out.old (length (key_text path key.now)) }
    ensures bytes { (prefixes : List ℕ) → out.old.bytes ≡ message update_type (body prefixes [] [])
        → out.new.bytes ≡ message update_type (body (prefixes ++ key_text path key.now) [] []) }
    ensures len { length out.new.bytes ≡ length out.old.bytes + length (key_text path key.now) }
    ensures room { out.new.room ≡ out.old.room }
{
    let end = out.bytes().len();
    insert_key(out, end - LEN_LEN, key, path);
    let len = out.bytes().len();
    out.overwrite(WITHDRAWN_LEN, &u16_bytes((len - FRAME_LEN) as u16));
    out.seal();
}

fn put_unreached(out: &mut Message, key: &Key, path: bool)
    requires open { empty_size Ipv6 ≤ length out.old.bytes }
    requires fits { HasRoom out.old
        (unreach_growth Ipv6 (length out.old.bytes) (length (key_text path key.now))) }
    ensures bytes { (prefixes : List ℕ)
        → out.old.bytes ≡ message update_type (body [] (unreach_text prefixes) [])
        → out.new.bytes
        ≡ message update_type (body [] (unreach_text (prefixes ++ key_text path key.now)) []) }
    ensures len { length out.new.bytes ≡ length out.old.bytes
        + unreach_growth Ipv6 (length out.old.bytes) (length (key_text path key.now)) }
    ensures room { out.new.room ≡ out.old.room }
{
    let place = Place {
        start: FRAME_LEN,
        end: out.bytes().len(),
    };
    put_last(out, place, MP_UNREACH_NLRI, key, path);
    close_attributes(out);
}
