//! Texts that are read and refused, and the lines and words of some bytes.
use crate::{
    Line, MAX_IPV6_TEXT, MAX_PREFIX_TEXT, MAX_U64_TEXT, addr, asn, cut, first_line, first_word,
    half, ipv4, ipv4_prefix, ipv6, is_blank, number, octet, prefix, put_addr, put_prefix, put_u32,
    put_u64, words,
};
use arrayvec::ArrayVec;
use route_values::{Addr, Prefix};
use std::test::Fail;

const NUMBERS: [(&str, Option<u32>); 14] = [
    ("0", Some(0)),
    ("7", Some(7)),
    ("10", Some(10)),
    ("4294967295", Some(4_294_967_295)),
    ("4294967296", None),
    ("99999999999999999999999999", None),
    ("00", None),
    ("01", None),
    ("+1", None),
    ("-1", None),
    ("", None),
    (" 1", None),
    ("1a", None),
    ("0x1", None),
];

#[test]
fn a_number_has_digits_alone_and_no_leading_zero(rt: HostRuntime) {
    for (text, value) in NUMBERS {
        assert_eq!(rt; number(text.as_bytes()), value, "{text}");
    }
    assert_eq!(rt; number(b"\xff"), None);
}

#[test]
fn an_octet_ends_at_255_and_a_half_at_65535(rt: HostRuntime) {
    assert_eq!(rt; octet(b"0"), Some(0));
    assert_eq!(rt; octet(b"255"), Some(255));
    assert_eq!(rt; octet(b"256"), None);
    assert_eq!(rt; octet(b"007"), None);
    assert_eq!(rt; half(b"65535"), Some(65_535));
    assert_eq!(rt; half(b"65536"), None);
    assert_eq!(rt; half(b"x"), None);
}

const ASNS: [(&str, Option<u32>); 18] = [
    ("1", Some(1)),
    ("65001", Some(65_001)),
    ("4294967295", Some(4_294_967_295)),
    ("4294967296", None),
    ("0", None),
    ("01", None),
    ("+1", None),
    ("1.10", Some(65_546)),
    ("0.1", Some(1)),
    ("1.0", Some(65_536)),
    ("65535.65535", Some(4_294_967_295)),
    ("0.0", None),
    ("65536.1", None),
    ("1.65536", None),
    ("1.01", None),
    ("1.", None),
    (".1", None),
    ("1.2.3", None),
];

#[test]
fn an_as_number_is_plain_or_two_halves_and_never_zero(rt: HostRuntime) {
    for (text, value) in ASNS {
        assert_eq!(rt; asn(text.as_bytes()), value, "{text}");
    }
}

const ADDRESSES: [(&str, Option<u32>); 13] = [
    ("0.0.0.0", Some(0)),
    ("192.0.2.1", Some(0xc000_0201)),
    ("255.255.255.255", Some(0xffff_ffff)),
    ("256.0.0.0", None),
    ("0.0.0.256", None),
    ("1.2.3", None),
    ("1.2.3.", None),
    ("1.2.3.4.5", None),
    ("01.2.3.4", None),
    ("1..2.3", None),
    ("1.2.3.4 ", None),
    ("16909060", None),
    ("", None),
];

#[test]
fn an_address_is_four_octets(rt: HostRuntime) {
    for (text, value) in ADDRESSES {
        assert_eq!(rt; ipv4(text.as_bytes()), value, "{text}");
    }
}

// The texts of RFC 4291, section 2.2, and what stands at the edges of its rules.
const IPV6_ADDRESSES: [(&str, Option<u128>); 34] = [
    (
        "ABCD:EF01:2345:6789:ABCD:EF01:2345:6789",
        Some(0xabcd_ef01_2345_6789_abcd_ef01_2345_6789),
    ),
    (
        "2001:DB8:0:0:8:800:200C:417A",
        Some(0x2001_0db8_0000_0000_0008_0800_200c_417a),
    ),
    (
        "2001:DB8::8:800:200C:417A",
        Some(0x2001_0db8_0000_0000_0008_0800_200c_417a),
    ),
    (
        "FF01:0:0:0:0:0:0:101",
        Some(0xff01_0000_0000_0000_0000_0000_0000_0101),
    ),
    ("FF01::101", Some(0xff01_0000_0000_0000_0000_0000_0000_0101)),
    ("0:0:0:0:0:0:0:1", Some(1)),
    ("::1", Some(1)),
    ("0:0:0:0:0:0:0:0", Some(0)),
    ("::", Some(0)),
    ("0:0:0:0:0:0:13.1.68.3", Some(0x0d01_4403)),
    ("::13.1.68.3", Some(0x0d01_4403)),
    ("0:0:0:0:0:FFFF:129.144.52.38", Some(0xffff_8190_3426)),
    ("::FFFF:129.144.52.38", Some(0xffff_8190_3426)),
    ("1::", Some(0x0001_0000_0000_0000_0000_0000_0000_0000)),
    (
        "1::1.2.3.4",
        Some(0x0001_0000_0000_0000_0000_0000_0102_0304),
    ),
    (
        "1:2:3:4:5:6:7::",
        Some(0x0001_0002_0003_0004_0005_0006_0007_0000),
    ),
    (
        "::2:3:4:5:6:7:8",
        Some(0x0000_0002_0003_0004_0005_0006_0007_0008),
    ),
    (
        "aBcD::0001",
        Some(0xabcd_0000_0000_0000_0000_0000_0000_0001),
    ),
    ("", None),
    (":", None),
    (":::", None),
    ("::1::", None),
    ("1::2::3", None),
    ("1:2:3:4::5:6:7:8", None),
    ("1:2:3:4:5:6:7", None),
    ("1:2:3:4:5:6:7:8:9", None),
    ("1:2:3:4:5:6:7:", None),
    (":2:3:4:5:6:7:8", None),
    ("12345::", None),
    ("g::", None),
    ("1.2.3.4::", None),
    ("::1.2.3.4:5", None),
    ("1:2:3:4:5:6:7:1.2.3.4", None),
    ("::1%1", None),
];

#[test]
fn an_ipv6_address_is_eight_groups_with_colons_for_zeros_once(rt: HostRuntime) {
    for (text, value) in IPV6_ADDRESSES {
        assert_eq!(rt; ipv6(text.as_bytes()), value, "{text}");
    }
}

const PREFIXES: [(&str, Option<(u32, u8)>); 14] = [
    ("10.0.0.0/24", Some((0x0a00_0000, 24))),
    ("10.0.0.0/7", Some((0x0a00_0000, 7))),
    ("10.0.0.0/6", None),
    ("10.0.0.1/24", None),
    ("10.0.0.1/32", Some((0x0a00_0001, 32))),
    ("10.0.0.1", Some((0x0a00_0001, 32))),
    ("0.0.0.0/0", Some((0, 0))),
    ("10.0.0.0/33", None),
    ("10.0.0.0/08", None),
    ("10.0.0.0/", None),
    ("10.0.0/24", None),
    ("10.0.0.0/24/24", None),
    ("/24", None),
    ("2001:db8::/32", None),
];

#[test]
fn a_prefix_has_no_bit_past_its_length(rt: HostRuntime) {
    for (text, value) in PREFIXES {
        let prefix = value.and_then(|(number, len)| Prefix::new(Addr::V4(number), len));
        assert_eq!(rt; prefix.is_some(), value.is_some(), "{text}");
        assert_eq!(rt; ipv4_prefix(text.as_bytes()), prefix, "{text}");
    }
}

// Addresses of RFC 4291, section 2.2, and of RFC 5737, with all that their texts show of leading zeros.
const PRINTED: [(Addr, &str); 7] = [
    (Addr::V4(0), "0.0.0.0"),
    (Addr::V4(0xc000_0201), "192.0.2.1"),
    (Addr::V4(0xffff_ffff), "255.255.255.255"),
    (Addr::V6(0), "0:0:0:0:0:0:0:0"),
    (Addr::V6(1), "0:0:0:0:0:0:0:1"),
    (
        Addr::V6(0x2001_0db8_0000_0000_0008_0800_200c_417a),
        "2001:db8:0:0:8:800:200c:417a",
    ),
    (
        Addr::V6(0xabcd_ef01_2345_6789_abcd_ef01_2345_6789),
        "abcd:ef01:2345:6789:abcd:ef01:2345:6789",
    ),
];

#[test]
fn an_address_is_printed_in_lower_case_without_leading_zeros(rt: HostRuntime) {
    for (addr, text) in PRINTED {
        let mut out = ArrayVec::<u8, MAX_IPV6_TEXT>::new();
        put_addr(addr, &mut out);
        assert_eq!(rt; out.as_slice(), text.as_bytes());
    }
}

#[test]
fn what_is_printed_stands_behind_what_the_buffer_holds(rt: HostRuntime) {
    let mut out = ArrayVec::<u8, 256>::new();
    put_u32(4_294_967_295, &mut out);
    out.push(b' ');
    put_u32(0, &mut out);
    out.push(b' ');
    if let Some(prefix) = Prefix::new(Addr::V4(0x0a00_0001), 32) {
        put_prefix(&prefix, &mut out);
    }
    assert_eq!(rt; out.as_slice(), b"4294967295 0 10.0.0.1/32".as_slice());
    let mut longest = ArrayVec::<u8, MAX_U64_TEXT>::new();
    put_u64(18_446_744_073_709_551_615, &mut longest);
    assert_eq!(rt; longest.as_slice(), b"18446744073709551615".as_slice());
    let mut default_route = ArrayVec::<u8, MAX_PREFIX_TEXT>::new();
    if let Some(prefix) = Prefix::new(Addr::V6(0), 0) {
        put_prefix(&prefix, &mut default_route);
    }
    assert_eq!(rt; default_route.as_slice(), b"0:0:0:0:0:0:0:0/0".as_slice());
}

const PREFIXES_OF_BOTH: [(&str, Option<(Addr, u8)>); 9] = [
    ("10.0.0.0/24", Some((Addr::V4(0x0a00_0000), 24))),
    ("10.0.0.1", Some((Addr::V4(0x0a00_0001), 32))),
    (
        "2001:DB8::/32",
        Some((Addr::V6(0x2001_0db8_0000_0000_0000_0000_0000_0000), 32)),
    ),
    ("::/0", Some((Addr::V6(0), 0))),
    ("::1", Some((Addr::V6(1), 128))),
    ("::1/128", Some((Addr::V6(1), 128))),
    ("::1/127", None),
    ("::/129", None),
    ("10.0.0.0/33", None),
];

#[test]
fn an_address_and_a_prefix_are_of_either_family(rt: HostRuntime) {
    assert_eq!(rt; addr(b"192.0.2.1"), Some(Addr::V4(0xc000_0201)));
    assert_eq!(rt; addr(b"::1"), Some(Addr::V6(1)));
    assert_eq!(rt; addr(b"1"), None);
    for (text, value) in PREFIXES_OF_BOTH {
        let wanted = value.and_then(|(addr, len)| Prefix::new(addr, len));
        assert_eq!(rt; wanted.is_some(), value.is_some(), "{text}");
        assert_eq!(rt; prefix(text.as_bytes()), wanted, "{text}");
    }
}

#[test]
fn a_text_is_cut_at_the_first_such_byte(rt: HostRuntime) {
    assert!(rt; cut(b"1:2:3", b':') == Some((b"1".as_slice(), b"2:3".as_slice())));
    assert!(rt; cut(b":", b':') == Some((b"".as_slice(), b"".as_slice())));
    assert!(rt; cut(b"123", b':') == None);
}

#[test]
fn blanks_part_words(rt: HostRuntime) -> Result<(), Fail> {
    assert!(rt; is_blank(b' ') && is_blank(b'\t') && !is_blank(b'\r') && !is_blank(b'\n'));
    let line = b" announce\t\troute  10.0.0.0/24 [a\rb ".as_slice();
    let found = words(rt.alloc(), line)?;
    let wanted = [b"announce".as_slice(), b"route", b"10.0.0.0/24", b"[a\rb"];
    assert!(rt; found.as_slice() == wanted.as_slice());
    assert!(rt; words(rt.alloc(), b" \t")?.is_empty());
    assert!(rt; first_word(b"\tone two") == Some((b"one".as_slice(), b" two".as_slice())));
    assert!(rt; first_word(b"") == None);
    Ok(())
}

#[test]
fn lines_end_with_a_line_feed_and_blank_ones_are_passed_over(rt: HostRuntime) {
    let bytes = b"one\r\n\n \t \r\n\r\r\n two \ntwo\r\r\nthree".as_slice();
    let wanted = [b"one".as_slice(), b"\r", b" two ", b"two\r"];
    let mut rest = bytes;
    for text in wanted {
        let found = first_line(rest);
        assert!(rt; found.is_some_and(|(line, _)| line == Line::Text(text)));
        rest = found.map_or(rest, |(_, after)| after);
    }
    assert_eq!(rt; rest, b"three".as_slice());
    assert!(rt; first_line(rest) == None);
}

#[test]
fn a_line_has_65535_bytes_at_most_with_its_carriage_return(rt: HostRuntime) -> Result<(), Fail> {
    let cases = [
        (65_535, b"\n".as_slice(), true),
        (65_536, b"\n", false),
        (65_534, b"\r\n", true),
        (65_535, b"\r\n", false),
    ];
    for (count, end, fits) in cases {
        let text = vec![in rt.alloc(); b'x'; count]?;
        let mut bytes = text.as_slice().to_vec(rt.alloc())?;
        bytes.extend_from_slice(end)?;
        let line = if fits {
            Line::Text(text.as_slice())
        } else {
            Line::TooLong
        };
        assert!(rt;
            first_line(&bytes) == Some((line, b"".as_slice())),
            "{count}"
        );
    }
    Ok(())
}

#[test]
fn a_blank_line_is_passed_over_at_any_length(rt: HostRuntime) -> Result<(), Fail> {
    let mut bytes = vec![in rt.alloc(); b'\t'; 65_536]?;
    bytes.extend_from_slice(b"\nx\n")?;
    assert!(rt; first_line(&bytes) == Some((Line::Text(b"x".as_slice()), b"".as_slice())));
    Ok(())
}
