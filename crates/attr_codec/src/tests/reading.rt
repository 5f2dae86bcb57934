use super::super::*;
use route_values::{Addr, Caps, Family, Key, Prefix};
use std::alloc::Global;
use std::test::Fail;

// Both families, with path identifiers for IPv6.
fn both() -> Caps {
    Caps::none()
        .with(Family::Ipv4, false)
        .with(Family::Ipv6, true)
}

const PLAIN: &[u8] = &[
    0x18, 0xC0, 0x00, 0x02, // 192.0.2.0/24
    0x09, 0x0A, 0xFF, // 10.128.0.0/9, with bits past the ninth
    0x00, // 0.0.0.0/0
];

#[test]
fn prefixes_are_read_without_the_bits_past_their_count(rt: HostRuntime) -> Result<(), Fail> {
    let keys = read_keys(rt.alloc(), PLAIN, Family::Ipv4, false)?;
    let expected = [(0xC000_0200, 24), (0x0A80_0000, 9), (0, 0)];
    assert_eq!(rt; keys.len(), expected.len());
    for (key, (addr, len)) in keys.as_slice().iter().zip(expected) {
        let prefix = Prefix::new(Addr::V4(addr), len).ok_or("a prefix")?;
        assert_eq!(rt; *key, Key { prefix, id: 0 });
    }
    Ok(())
}

const WITH_PATH: &[u8] = &[
    0x00, 0x00, 0x00, 0x07, // identifier 7
    0x20, 0x20, 0x01, 0x0D, 0xB8, // 2001:db8::/32
];

#[test]
fn an_identifier_is_read_before_a_prefix(rt: HostRuntime) -> Result<(), Fail> {
    let keys = read_keys(rt.alloc(), WITH_PATH, Family::Ipv6, true)?;
    let prefix = Prefix::new(Addr::V6(0x2001_0DB8 << 96), 32).ok_or("a prefix")?;
    assert_eq!(rt; keys.as_slice(), [Key { prefix, id: 7 }].as_slice());
    Ok(())
}

// The attributes of one code each, and what they say.
const SAID: &[(&[u8], &str)] = &[
    (&[0x40, 0x01, 0x01, 0x01], "Origin(Egp)"),
    (
        &[0x50, 0x02, 0x00, 0x06, 0x01, 0x01, 0x00, 0x00, 0xFD, 0xE9],
        "Path(AsPath { segments: [Segment { set: true, numbers: Items { items: [65001] } }] })",
    ),
    (&[0x40, 0x03, 0x04, 0x00, 0x00, 0x00, 0x01], "NextHop(1)"),
    (&[0x80, 0x04, 0x04, 0x00, 0x00, 0x00, 0x02], "Med(2)"),
    (&[0x40, 0x05, 0x04, 0x00, 0x00, 0x00, 0x03], "LocalPref(3)"),
    (&[0x40, 0x06, 0x00], "Atomic"),
    (
        &[
            0xC0, 0x07, 0x08, 0x00, 0x00, 0x00, 0x04, 0x00, 0x00, 0x00, 0x05,
        ],
        "Aggregator(Aggregator { asn: 4, addr: 5 })",
    ),
    (
        &[0xC0, 0x08, 0x04, 0x00, 0x00, 0x00, 0x06],
        "Communities(Items { items: [6] })",
    ),
    (&[0x80, 0x09, 0x04, 0x00, 0x00, 0x00, 0x07], "Originator(7)"),
    (&[0x80, 0x0A, 0x00], "Clusters(Items { items: [] })"),
    (
        &[
            0x80, 0x0E, 0x09, 0x00, 0x01, 0x01, 0x04, 0x00, 0x00, 0x00, 0x08, 0x00,
        ],
        "Reach(Some(Reached { hop: V4(8), keys: Items { items: [] } }))",
    ),
    (&[0x80, 0x0E, 0x03, 0x00, 0x01, 0x02], "Reach(None)"),
    (
        &[0x80, 0x0F, 0x03, 0x00, 0x02, 0x01],
        "Unreach(Some(Items { items: [] }))",
    ),
    (
        &[
            0xC0, 0x10, 0x08, 0x00, 0x02, 0x00, 0x00, 0x00, 0x00, 0x00, 0x09,
        ],
        "Extended(Items { items: [[0, 2, 0, 0, 0, 0, 0, 9]] })",
    ),
    (
        &[
            0xC0, 0x20, 0x0C, 0x00, 0x00, 0x00, 0x01, 0x00, 0x00, 0x00, 0x02, 0x00, 0x00, 0x00,
            0x03,
        ],
        "Large(Items { items: [Large { global: 1, first: 2, second: 3 }] })",
    ),
];

#[test]
fn each_attribute_says_what_its_value_means(rt: HostRuntime) -> Result<(), Fail> {
    let alloc = rt.alloc();
    for (bytes, text) in SAID {
        let said = read_attrs(alloc, bytes, &both())?;
        let [attr] = said.as_slice() else {
            return Err("one attribute".into());
        };
        assert_eq!(rt; format!(in alloc; "{attr:?}")?.as_str(), *text);
    }
    Ok(())
}

const PASSED_OVER: &[u8] = &[
    0x40, 0x01, 0x01, 0x00, // ORIGIN IGP
    0xC0, 0x63, 0x02, 0x01, 0x02, // an optional attribute of the unknown code 99
    0x40, 0x06, 0x00, // ATOMIC_AGGREGATE
];

#[test]
fn an_unknown_attribute_says_nothing(rt: HostRuntime) -> Result<(), Fail> {
    let said = read_attrs(rt.alloc(), PASSED_OVER, &both())?;
    assert_eq!(rt; said.len(), 2);
    Ok(())
}
