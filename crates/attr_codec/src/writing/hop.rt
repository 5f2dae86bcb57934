//! The next hop: NEXT_HOP for IPv4, and MP_REACH_NLRI for IPv6.
ghost use Rattle.std.specs.Prelude.{◌≡◌, ◌+◌, [], length};
ghost use Rattle.route_values.specs.Addr.{family_of};
ghost use Rattle.update_grammar.specs.Written.{hop_raws, reach_raws};
ghost use Rattle.attr_codec.specs.Buffer.{HasRoom, Appended};
ghost use Rattle.attr_codec.specs.Groups.{raws_text};

use super::head::{put_head, put_plain};
use crate::codes::{
    IPV6_HOP_LEN, IPV6_UNICAST, Kind, MP_REACH_NLRI, NEXT_HOP, REACH_LEN, RESERVED,
};
use crate::message::Message;
use crate::numbers::u32_bytes;
use route_values::Addr;

/// Puts NEXT_HOP, which goes with IPv4 alone.
pub fn put_next_hop(out: &mut Message, hop: Addr)
    requires { HasRoom out.old (length (raws_text (hop_raws (family_of hop) hop))) }
    ensures { Appended out.old out.new (raws_text (hop_raws (family_of hop) hop)) }
{
    if let Addr::V4(number) = hop {
        put_plain(out, Kind::WellKnown, NEXT_HOP, &u32_bytes(number));
    }
}

/// Puts an MP_REACH_NLRI without prefixes, which goes with IPv6 alone.
pub fn put_reach_head(out: &mut Message, hop: Addr)
    requires { HasRoom out.old (length (raws_text (reach_raws (family_of hop) hop []))) }
    ensures { Appended out.old out.new (raws_text (reach_raws (family_of hop) hop [])) }
{
    if let Addr::V6(number) = hop {
        put_head(out, Kind::Optional, MP_REACH_NLRI, REACH_LEN);
        out.append(&IPV6_UNICAST);
        out.append(&[IPV6_HOP_LEN as u8]);
        out.append_u128(number);
        out.append(&[RESERVED]);
    }
}
