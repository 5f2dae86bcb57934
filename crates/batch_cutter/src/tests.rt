ghost use Rattle.std.specs.Prelude.{◌≡◌, ◌≤◌};

mod plain;
mod values;

use super::*;
use attr_codec::Message;
use plain::Plain;
use route_values::{Caps, Family};
use std::test::Fail;
use values::{ipv4_route, ipv6_net, ipv6_route, net, nets};

// How many bytes a buffer has room for that serves every session.
const ROOM: usize = 65_535;

// A session of both families, with long messages or without.
fn session(extended: bool) -> Caps {
    let both = Caps::none()
        .with(Family::Ipv4, false)
        .with(Family::Ipv6, false);
    if extended { both.with_extended() } else { both }
}

struct Row {
    shows: &'static str,
    extended: bool,
    // How many prefixes of 24 bits, which take four bytes each.
    count: u16,
    // How many bytes the messages have that announce them, with 43 beside the prefixes, and the marker.
    lens: &'static [usize],
}

const ROWS: &[Row] = &[
    Row {
        shows: "one message, and the marker",
        extended: false,
        count: 1013,
        lens: &[0x0FFF, 23],
    },
    Row {
        shows: "a prefix more than a message holds",
        extended: false,
        count: 1014,
        lens: &[0x0FFF, 0x002F, 23],
    },
    Row {
        shows: "a long message",
        extended: true,
        count: 1014,
        lens: &[0x1003, 23],
    },
    Row {
        shows: "more prefixes than a long message holds",
        extended: true,
        count: 16_384,
        lens: &[0xFFFF, 0x0057, 23],
    },
    Row {
        shows: "no prefix",
        extended: false,
        count: 0,
        lens: &[23],
    },
];

// How many bytes the next message of a batch has; None where nothing is left.
fn next_len(plain: &mut Plain<'_>, caps: Caps, out: &mut Message) -> Option<usize>
    requires { 65535 ≤ out.old.room }
    ensures { out.new.room ≡ out.old.room }
{
    out.clear();
    // For the proof: what is left may be announced.
    let _left = plain.len();
    if fill(plain, caps, out) {
        Some(out.bytes().len())
    } else {
        None
    }
}

#[test]
fn messages_of_a_batch_hold_as_many_prefixes_as_fit(rt: HostRuntime) -> Result<(), Fail> {
    let alloc = rt.alloc();
    let attrs = ipv4_route(alloc)?;
    let mut out = Message::new(alloc, ROOM)?;
    for row in ROWS {
        let keys = nets(alloc, row.count)?;
        let caps = session(row.extended);
        let mut plain = Plain::new(&attrs, keys.as_slice());
        for len in row.lens {
            let found = next_len(&mut plain, caps, &mut out);
            assert_eq!(rt; found, Some(*len), "{}", row.shows);
        }
        assert_eq!(rt; next_len(&mut plain, caps, &mut out), None, "{}", row.shows);
    }
    Ok(())
}

// The withdrawal of 2001:db8::/32.
const WITHDRAWN: &[u8] = &[
    0xFF, 0xFF, 0xFF, 0xFF, 0xFF, 0xFF, 0xFF, 0xFF, // marker
    0xFF, 0xFF, 0xFF, 0xFF, 0xFF, 0xFF, 0xFF, 0xFF, //
    0x00, 0x22, // length
    0x02, // UPDATE
    0x00, 0x00, // no withdrawn prefixes of IPv4
    0x00, 0x0B, // length of the attributes
    0x80, 0x0F, 0x08, // MP_UNREACH_NLRI
    0x00, 0x02, 0x01, // IPv6 unicast
    0x20, 0x20, 0x01, 0x0D, 0xB8, // 2001:db8::/32
];

#[test]
fn a_withdrawal_of_ipv6_stands_in_an_attribute(rt: HostRuntime) -> Result<(), Fail> {
    let mut out = Message::new(rt.alloc(), ROOM)?;
    let key = ipv6_net()?;
    let mut packer = Packer::begin(&mut out, session(false), Head::Gone(Family::Ipv6));
    assert!(rt; packer.add(&mut out, &key));
    packer.finish(&mut out);
    assert_eq!(rt; out.bytes(), WITHDRAWN);
    Ok(())
}

// The announcement of 2001:db8::/32 with the next hop 2001:db8::1.
const ANNOUNCED: &[u8] = &[
    0xFF, 0xFF, 0xFF, 0xFF, 0xFF, 0xFF, 0xFF, 0xFF, // marker
    0xFF, 0xFF, 0xFF, 0xFF, 0xFF, 0xFF, 0xFF, 0xFF, //
    0x00, 0x41, // length
    0x02, // UPDATE
    0x00, 0x00, // no withdrawn prefixes of IPv4
    0x00, 0x2A, // length of the attributes
    0x40, 0x01, 0x01, 0x00, // ORIGIN IGP
    0x40, 0x02, 0x06, 0x02, 0x01, 0x00, 0x00, 0xFD, 0xE9, // AS_PATH 65001
    0x80, 0x0E, 0x1A, // MP_REACH_NLRI
    0x00, 0x02, 0x01, // IPv6 unicast
    0x10, // length of the next hop
    0x20, 0x01, 0x0D, 0xB8, 0x00, 0x00, 0x00, 0x00, // next hop
    0x00, 0x00, 0x00, 0x00, 0x00, 0x00, 0x00, 0x01, //
    0x00, // reserved
    0x20, 0x20, 0x01, 0x0D, 0xB8, // 2001:db8::/32
];

#[test]
fn an_announcement_of_ipv6_stands_in_an_attribute(rt: HostRuntime) -> Result<(), Fail> {
    let mut out = Message::new(rt.alloc(), ROOM)?;
    let attrs = ipv6_route(rt.alloc())?;
    let key = ipv6_net()?;
    let mut packer = Packer::begin(&mut out, session(false), Head::Here(Family::Ipv6, &attrs));
    assert!(rt; packer.add(&mut out, &key));
    packer.finish(&mut out);
    assert_eq!(rt; out.bytes(), ANNOUNCED);
    Ok(())
}

// The withdrawal of 10.0.0.0/24.
const WITHDRAWN_IPV4: &[u8] = &[
    0xFF, 0xFF, 0xFF, 0xFF, 0xFF, 0xFF, 0xFF, 0xFF, // marker
    0xFF, 0xFF, 0xFF, 0xFF, 0xFF, 0xFF, 0xFF, 0xFF, //
    0x00, 0x1B, // length
    0x02, // UPDATE
    0x00, 0x04, // length of the withdrawn prefixes
    0x18, 0x0A, 0x00, 0x00, // 10.0.0.0/24
    0x00, 0x00, // no attributes
];

#[test]
fn a_withdrawal_of_ipv4_stands_in_a_field_of_its_own(rt: HostRuntime) -> Result<(), Fail> {
    let mut out = Message::new(rt.alloc(), ROOM)?;
    let key = net(0)?;
    let mut packer = Packer::begin(&mut out, session(false), Head::Gone(Family::Ipv4));
    assert!(rt; packer.add(&mut out, &key));
    packer.finish(&mut out);
    assert_eq!(rt; out.bytes(), WITHDRAWN_IPV4);
    Ok(())
}
