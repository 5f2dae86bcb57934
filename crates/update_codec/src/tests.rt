ghost use Rattle.std.specs.Prelude.{◌≡◌, All, IfOk};
ghost use Rattle.route_values.specs.declared.addr.Family.TheVariants.{Ipv4};
ghost use Rattle.route_values.specs.Addr.{family_of};
ghost use Rattle.attr_codec.specs.Sizes.{IsShort};

mod bodies;
mod faults;
mod fronts;
mod long_bodies;
mod messages;
mod opened;
mod reached;
mod values;
mod vectors;

use super::*;
use attr_codec::Message;
use fronts::{LONG_FRONT, SHORT_FRONT};
use opened::{announce, withdraw_within};
use route_values::{
    Addr, Aggregator, AsPath, Caps, Family, Items, Key, Keys, Large, NoMemory, Origin, Prefix,
    Segment, U32s, WireAttrs,
};
use std::alloc::Global;
use std::test::Fail;
use values::{Carried, IPV4_HOP, IPV6_HOP, IPV6_NET, Said, attrs, key, longest};
use vectors::{IPV4_MARKER, IPV6_MARKER};

fn with_communities(alloc: Global, count: usize) -> Result<WireAttrs, NoMemory>
    ensures hop { IfOk result (λ w. family_of w.hop ≡ Ipv4) }
    ensures short { IfOk result (λ w. All IsShort w.path) }
{
    let mut attrs = attrs(alloc, Said::Least, IPV4_HOP)?;
    attrs.communities = Items::from_vec(vec![in alloc; 1; count]?);
    Ok(attrs)
}

#[test]
fn an_opened_withdrawal_is_a_marker(rt: HostRuntime) -> Result<(), Fail> {
    for (family, wanted) in [(Family::Ipv4, IPV4_MARKER), (Family::Ipv6, IPV6_MARKER)] {
        let mut out = Message::new(rt.alloc(), 4096)?;
        open_gone(&mut out, family);
        assert_eq!(rt; out.bytes(), wanted, "a withdrawal of {family:?}");
    }
    Ok(())
}

#[test]
fn attributes_at_all_limits_leave_room_for_a_prefix(rt: HostRuntime) -> Result<(), Fail> {
    let alloc = rt.alloc();
    let ipv4 = (IPV4_HOP, (Addr::V4(0x0A00_0001), 32, 1), 3835);
    let ipv6 = (IPV6_HOP, (Addr::V6(0x2001_0DB8 << 96), 128, 1), 3864);
    for (hop, whole, len) in [ipv4, ipv6] {
        let mut out = Message::new(rt.alloc(), 4096)?;
        let attrs = longest(alloc, hop)?;
        let family = hop.family();
        let count = announce(
            &mut out,
            &attrs,
            family,
            &Carried::Identified.caps(),
            &[key(whole)?],
        );
        assert_eq!(rt; (count, out.bytes().len()), (1, len), "{family:?}");
    }
    Ok(())
}

#[test]
fn what_does_not_fit_leaves_the_buffer(rt: HostRuntime) -> Result<(), Fail> {
    let keys = [
        key((Addr::V4(0x0A00_0000), 8, 0))?,
        key((Addr::V4(0), 0, 0))?,
    ];
    for (communities, some, fits, len) in [
        (1013, 2, 0, 0),
        (1012, 1, 0, 4095),
        (1012, 2, 1, 4096),
    ] {
        let attrs = with_communities(rt.alloc(), communities)?;
        let mut out = Message::new(rt.alloc(), 4096)?;
        let count = announce(
            &mut out,
            &attrs,
            Family::Ipv4,
            &Carried::Both.caps(),
            &keys[..some],
        );
        assert_eq!(rt;
            (count, out.bytes().len()),
            (fits, len),
            "{communities}, {some}"
        );
    }
    Ok(())
}

#[test]
fn an_attribute_of_256_bytes_has_a_length_of_two(rt: HostRuntime) -> Result<(), Fail> {
    let mut keys = [key(IPV6_NET)?; 52];
    keys[50] = key((Addr::V6(0x20 << 120), 8, 0))?;
    keys[51] = key((Addr::V6(0), 0, 0))?;
    for (room, fits, front) in [(282, 51, SHORT_FRONT), (283, 52, LONG_FRONT)] {
        let mut out = Message::new(rt.alloc(), room)?;
        let count = withdraw_within(&mut out, Family::Ipv6, &Carried::Both.caps(), &keys);
        assert_eq!(rt; count, fits, "a room of {room}");
        assert!(rt; out.bytes().starts_with(front), "a room of {room}");
    }
    Ok(())
}
