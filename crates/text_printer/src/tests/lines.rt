//! Lines of messages, and what is printed for them. The bytes are those of RFC 4271, section 4, field by field.
use super::Carried;

/// All attributes, a withdrawn prefix and an announced one, each with an identifier.
pub const FULL: &str = "update 0 last FFFFFFFFFFFFFFFFFFFFFFFFFFFFFFFF009402\
     0008\
     00000009180A0001\
     006D\
     40010102\
     40021002010000FDE901020000FDE70000FDEA\
     400304C0000201\
     80040400000032\
     400504000000C8\
     400600\
     C007080000FDE9C0000209\
     C00808FDE90001FFFFFF01\
     800904C0000203\
     800A04C0000204\
     C010080002FDE900000064\
     C0200C0000FDE90000000100000002\
     00000007180A0000";

/// What a session carries, the line of a message, and the lines of its effects.
pub const MESSAGES: [(Carried, &str, &str); 8] = [
    (
        Carried::Ipv4,
        "FFFFFFFFFFFFFFFFFFFFFFFFFFFFFFFF002F02\
         0000\
         0014\
         40010100\
         40020602010000FDE9\
         400304C0000201\
         180A0000",
        "announce route 10.0.0.0/24 next-hop 192.0.2.1 origin igp as-path [ 65001 ]\n",
    ),
    // As other commands print it, in lower case and with a carriage return.
    (
        Carried::Both,
        "update 63 more ffffffffffffffffffffffffffffffff004102\
         0000\
         0026\
         40010100\
         40020602010000fde9\
         400304c0000209\
         80040400000032\
         c00808fde90001fde90002\
         18cb0071\r",
        "announce route 203.0.113.0/24 next-hop 192.0.2.9 origin igp as-path [ 65001 ] med 50 \
         community [ 65001:1 65001:2 ]\n",
    ),
    (
        Carried::Both,
        "FFFFFFFFFFFFFFFFFFFFFFFFFFFFFFFF004302\
         0000\
         002C\
         40010100\
         40020602010000FDE9\
         800E1C0002011020010DB80000000000000000000000090030\
         20010DB80001",
        "announce route 2001:db8:1:0:0:0:0:0/48 next-hop 2001:db8:0:0:0:0:0:9 origin igp \
         as-path [ 65001 ]\n",
    ),
    (
        Carried::Ipv4,
        "FFFFFFFFFFFFFFFFFFFFFFFFFFFFFFFF001B02\
         0004\
         180A0000\
         0000",
        "withdraw route 10.0.0.0/24\n",
    ),
    // A marker says nothing.
    (
        Carried::Ipv4,
        "update 0 last FFFFFFFFFFFFFFFFFFFFFFFFFFFFFFFF00170200000000",
        "",
    ),
    (
        Carried::Identified,
        FULL,
        "withdraw route 10.0.1.0/24 path-information 9\n\
         announce route 10.0.0.0/24 path-information 7 next-hop 192.0.2.1 origin incomplete \
         as-path [ 65001 ( 64999 65002 ) ] med 50 local-preference 200 atomic-aggregate \
         aggregator 65001:192.0.2.9 community [ 65001:1 65535:65281 ] originator-id 192.0.2.3 \
         cluster-list [ 192.0.2.4 ] extended-community [ 0x0002fde900000064 ] \
         large-community [ 65001:1:2 ]\n",
    ),
    // Two sequences are written as one.
    (
        Carried::Ipv4,
        "FFFFFFFFFFFFFFFFFFFFFFFFFFFFFFFF003502\
         0000\
         001A\
         40010100\
         40020C02010000FDE902010000FDEA\
         400304C0000201\
         180A0000",
        "announce route 10.0.0.0/24 next-hop 192.0.2.1 origin igp as-path [ 65001 65002 ]\n",
    ),
    // The path has the AS number 0.
    (
        Carried::Ipv4,
        "FFFFFFFFFFFFFFFFFFFFFFFFFFFFFFFF002F02\
         0000\
         0014\
         40010100\
         400206020100000000\
         400304C0000201\
         180A0000",
        "# unprintable\n",
    ),
];

/// Lines that tell nothing in a session of IPv4, and the remark on each.
pub const REFUSED: [(&str, &str); 12] = [
    // No digits.
    ("update 0 more ", "# refused 3 hex\n"),
    // An odd number of them.
    ("update 0 more FFF", "# refused 3 hex\n"),
    // A letter that is no digit.
    ("FG", "# refused 3 hex\n"),
    // A neighbour's number too great, and one with a leading zero.
    ("update 64 more FF", "# refused 3 hex\n"),
    ("update 00 more FF", "# refused 3 hex\n"),
    // Another word.
    ("update 0 next FF", "# refused 3 hex\n"),
    // Two spaces.
    ("update 0  more FF", "# refused 3 hex\n"),
    // The last byte is missing.
    (
        "FFFFFFFFFFFFFFFFFFFFFFFFFFFFFFFF002F02\
         0000\
         0014\
         40010100\
         40020602010000FDE9\
         400304C0000201\
         180A00",
        "# refused 3 frame\n",
    ),
    // A KEEPALIVE.
    (
        "FFFFFFFFFFFFFFFFFFFFFFFFFFFFFFFF001304",
        "# refused 3 frame\n",
    ),
    // A byte more.
    (
        "FFFFFFFFFFFFFFFFFFFFFFFFFFFFFFFF0017020000000000",
        "# refused 3 frame\n",
    ),
    // No such origin.
    (
        "FFFFFFFFFFFFFFFFFFFFFFFFFFFFFFFF001B02\
         0000\
         0004\
         40010103",
        "# refused 3 update 4 7\n",
    ),
    // AS_PATH is missing.
    (
        "FFFFFFFFFFFFFFFFFFFFFFFFFFFFFFFF001F02\
         0000\
         0004\
         40010100\
         180A0000",
        "# refused 3 update 9 2\n",
    ),
];
