//! Writes messages.
//!
//! ```text
//! +--------+--------+------+---------+----+-----------+------------+--------+------------+
//! | marker | length | type | version | AS | hold time | identifier | length | parameters |
//! | 16     | 2      | 1    | 1       | 2  | 2         | 4          | 1      | length     |
//! +--------+--------+------+---------+----+-----------+------------+--------+------------+
//! ```
//! That is an OPEN (RFC 4271, section 4.2). Behind the type a NOTIFICATION has a code, a subcode and data (RFC 4271,
//! section 4.5), a KEEPALIVE has nothing (section 4.4), and a ROUTE-REFRESH has AFI, a reserved byte and SAFI
//! (RFC 2918, section 3).
ghost use Rattle.std.specs.Prelude.{◌≡◌, ◌+◌, ◌≤◌, [], length};
ghost use Rattle.update_grammar.specs.Written.{header, message};
ghost use Rattle.attr_codec.specs.Buffer.{HasRoom, Appended};
ghost use Rattle.session_codec.specs.Numbers.{open_type, notification_type, keepalive_type};
ghost use Rattle.session_codec.specs.Numbers.{refresh_type, least_room, version};
ghost use Rattle.session_codec.specs.Written.{as_field, open_body, notification_body, family_field};

mod capabilities;

use crate::codes::{AS_TRANS, VERSION};
use attr_codec::Message;
use capabilities::{family_field, parameter_of};
use frame_cutter::Refusal;
use frame_cutter::kinds::{HEADER_LEN, KEEPALIVE, NOTIFICATION, OPEN, ROUTE_REFRESH};
use route_values::{Family, Settings};

// The marker at the front of each message (RFC 4271, section 4.1).
const MARKER: [u8; 16] = [0xFF; 16];

// How many bytes an OPEN has before its optional parameters (RFC 4271, section 4.2).
const FIXED_LEN: usize = 10;

// How many bytes a NOTIFICATION has before its data (RFC 4271, section 4.5).
const CODES_LEN: usize = 2;

/// Puts an OPEN with what the settings offer.
#[tactic(auto, unfolding(crate::specs::Written::open_body))]
pub fn put_open(out: &mut Message, own: &Settings)
    requires empty { out.old.bytes ≡ [] }
    requires room { least_room ≤ out.old.room }
    ensures { out.new ≡ record out.old { bytes = message open_type (open_body own.now) } }
{
    let parameter = parameter_of(own);
    put_header(out, OPEN, FIXED_LEN + parameter.len());
    out.append(&[VERSION]);
    out.append_u16(as_field(own.local_as));
    out.append_u16(own.hold);
    out.append_u32(own.router_id);
    out.append(&[parameter.len() as u8]);
    out.append(&parameter);
}

/// Puts a NOTIFICATION that says why a message is refused.
pub fn put_notification(out: &mut Message, refusal: &Refusal)
    requires empty { out.old.bytes ≡ [] }
    requires room { least_room ≤ out.old.room }
    ensures { out.new ≡
        record out.old { bytes = message notification_type (notification_body refusal.now) } }
{
    put_header(out, NOTIFICATION, CODES_LEN + refusal.detail.len());
    out.append(&[refusal.code, refusal.sub]);
    out.append(&refusal.detail);
}

/// Puts a KEEPALIVE.
pub fn put_keepalive(out: &mut Message)
    requires empty { out.old.bytes ≡ [] }
    requires room { least_room ≤ out.old.room }
    ensures { out.new ≡ record out.old { bytes = message keepalive_type [] } }
{
    put_header(out, KEEPALIVE, 0);
}

/// Puts a ROUTE-REFRESH that asks for all routes of a family.
pub fn put_refresh(out: &mut Message, family: Family)
    requires empty { out.old.bytes ≡ [] }
    requires room { least_room ≤ out.old.room }
    ensures { out.new ≡ record out.old { bytes = message refresh_type (family_field family) } }
{
    let field = family_field(family);
    put_header(out, ROUTE_REFRESH, field.len());
    out.append(&field);
}

// Puts the header of a message whose body has so many bytes.
fn put_header(out: &mut Message, kind: u8, len: usize)
    requires small { 19 + len ≤ 65535 }
    requires fits { HasRoom out.old 19 }
    ensures { Appended out.old out.new (header (19 + len) kind) }
{
    out.append(&MARKER);
    out.append_u16((HEADER_LEN + len) as u16);
    out.append(&[kind]);
}

// The number of an AS in two bytes, or what stands for one that needs four (RFC 6793, section 4.1).
fn as_field(asn: u32) -> u16
    ensures { result ≡ as_field asn }
{
    if asn > u16::MAX as u32 {
        AS_TRANS
    } else {
        asn as u16
    }
}
