//! Announcements of IPv6, whose prefixes stand in an attribute.
ghost use Rattle.std.specs.Prelude.{◌≡◌, All, IfOk};
ghost use Rattle.route_values.specs.declared.addr.Family.TheVariants.{Ipv6};
ghost use Rattle.route_values.specs.Addr.{family_of};
ghost use Rattle.attr_codec.specs.Sizes.{IsShort};

use super::fronts::{REACHED_LONG_FRONT, REACHED_SHORT_FRONT, TARGET};
use super::*;

// One AS, communities, and the attributes whose length never changes, where these are wanted.
fn with_more(alloc: Global, communities: usize, fixed: bool) -> Result<WireAttrs, NoMemory>
    ensures hop { IfOk result (λ w. family_of w.hop ≡ Ipv6) }
    ensures short { IfOk result (λ w. All IsShort w.path) }
{
    let mut attrs = attrs(alloc, Said::Least, IPV6_HOP)?;
    attrs.communities = Items::from_vec(vec![in alloc; 1; communities]?);
    attrs.atomic = fixed;
    if fixed {
        attrs.med = Some(1);
        attrs.local_pref = Some(1);
    }
    Ok(attrs)
}

// Prefixes of which the first 47 make a value of 255 bytes, and then one of one byte and one of two.
fn filling() -> Result<[Key; 49], Fail> {
    let mut keys = [key(IPV6_NET)?; 49];
    keys[46] = key((Addr::V6(0x20_0000 << 104), 24, 0))?;
    keys[47] = key((Addr::V6(0), 0, 0))?;
    keys[48] = key((Addr::V6(0x20 << 120), 8, 0))?;
    Ok(keys)
}

#[test]
fn a_value_of_256_bytes_has_a_length_of_two(rt: HostRuntime) -> Result<(), Fail> {
    let mut attrs = attrs(rt.alloc(), Said::Least, IPV6_HOP)?;
    attrs.extended = Items::from_vec(vec![in rt.alloc(); [1; 8]]?);
    for (count, front) in [(47, REACHED_SHORT_FRONT), (48, REACHED_LONG_FRONT)] {
        let mut out = Message::new(rt.alloc(), 4096)?;
        let put = announce(
            &mut out,
            &attrs,
            Family::Ipv6,
            &Carried::Both.caps(),
            &filling()?[..count],
        );
        assert_eq!(rt; put, count);
        assert!(rt; out.bytes().starts_with(front), "{count} prefixes");
        assert!(rt; out.bytes().ends_with(TARGET), "{count} prefixes");
    }
    Ok(())
}

#[test]
fn the_second_byte_of_a_length_wants_room(rt: HostRuntime) -> Result<(), Fail> {
    for (communities, fixed, count, len) in [(949, false, 48, 4096), (945, true, 47, 4095)] {
        let attrs = with_more(rt.alloc(), communities, fixed)?;
        let mut out = Message::new(rt.alloc(), 4096)?;
        let put = announce(
            &mut out,
            &attrs,
            Family::Ipv6,
            &Carried::Both.caps(),
            &filling()?,
        );
        assert_eq!(rt;
            (put, out.bytes().len()),
            (count, len),
            "{communities} communities"
        );
    }
    Ok(())
}
