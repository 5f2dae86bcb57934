//! Messages as they are written and read.
mod opens;

use crate::codes::{OPEN_ERROR, UNSUPPORTED_VERSION};
use crate::{
    Agreed, Notification, Open, Path, Refusal, negotiate, put_keepalive, put_notification,
    put_open, put_refresh, read_notification, read_open, read_refresh,
};
use attr_codec::Message;
use frame_cutter::kinds::HEADER_LEN;
use opens::{
    IPV6_REFRESH, KEEPALIVE, OPEN_OF_TWO_FAMILIES, OPEN_WITH_LONG_MESSAGES, TRANSIT, UNSUPPORTED,
};
use route_values::{Caps, Family, Settings};
use std::test::Fail;

#[test]
fn an_open_offers_what_the_settings_have(rt: HostRuntime) -> Result<(), Fail> {
    for (extended, wanted) in [
        (false, OPEN_OF_TWO_FAMILIES),
        (true, OPEN_WITH_LONG_MESSAGES),
    ] {
        let mut out = Message::new(rt.alloc(), 4096)?;
        let own = Settings {
            extended,
            ..TRANSIT
        };
        put_open(&mut out, &own);
        assert_eq!(rt; out.bytes(), wanted, "extended messages: {extended}");
    }
    Ok(())
}

#[test]
fn an_open_is_read_by_a_neighbour_of_its_as(rt: HostRuntime) -> Result<(), Fail> {
    let own = Settings {
        peer_as: 65001,
        ..TRANSIT
    };
    let wanted = Open {
        asn: 65001,
        hold: 180,
        id: 0xC000_0209,
        ipv4: true,
        ipv6: true,
        refresh: true,
        extended: false,
        ipv4_path: Path::None,
        ipv6_path: Path::None,
    };
    assert!(rt; read_open(&OPEN_OF_TWO_FAMILIES[HEADER_LEN..], &own) == Ok(wanted));
    Ok(())
}

#[test]
fn a_keepalive_is_a_header_alone(rt: HostRuntime) -> Result<(), Fail> {
    let mut out = Message::new(rt.alloc(), 4096)?;
    put_keepalive(&mut out);
    assert_eq!(rt; out.bytes(), KEEPALIVE);
    Ok(())
}

#[test]
fn a_refresh_names_a_family(rt: HostRuntime) -> Result<(), Fail> {
    let mut out = Message::new(rt.alloc(), 4096)?;
    put_refresh(&mut out, Family::Ipv6);
    assert_eq!(rt; out.bytes(), IPV6_REFRESH);
    assert!(rt;
        read_refresh(&[0, 2, 7, 1]) == Some(Family::Ipv6),
        "the reserved byte is 7"
    );
    assert!(rt;
        read_refresh(&[0, 1, 0, 2]).is_none(),
        "the SAFI of multicast"
    );
    Ok(())
}

#[test]
fn a_notification_has_two_codes_and_data(rt: HostRuntime) -> Result<(), Fail> {
    let mut out = Message::new(rt.alloc(), 4096)?;
    let refusal = Refusal::new(OPEN_ERROR, UNSUPPORTED_VERSION, &[0, 4]);
    put_notification(&mut out, &refusal);
    assert_eq!(rt; out.bytes(), UNSUPPORTED);
    let wanted = Notification {
        code: OPEN_ERROR,
        sub: UNSUPPORTED_VERSION,
        detail: &[0, 4],
    };
    assert!(rt; read_notification(&UNSUPPORTED[HEADER_LEN..]) == wanted);
    Ok(())
}

#[test]
fn identifiers_go_where_one_side_sends_and_the_other_takes_them(
    rt: HostRuntime,
) -> Result<(), Fail> {
    let own = Settings {
        ipv4_send: true,
        ipv4_receive: true,
        ipv6_send: true,
        ..TRANSIT
    };
    let theirs = Open {
        asn: 65002,
        hold: 90,
        id: 0xC000_0202,
        ipv4: true,
        ipv6: false,
        refresh: true,
        extended: true,
        ipv4_path: Path::Receive,
        ipv6_path: Path::Both,
    };
    let wanted = Agreed {
        to_peer: Caps::none().with(Family::Ipv4, true),
        from_peer: Caps::none().with(Family::Ipv4, false),
        hold: 90,
        refresh: true,
    };
    assert!(rt; negotiate(&own, &theirs) == wanted);
    Ok(())
}
