//! The numbers of path attributes (RFC 4271, section 4.3).
//!
//! ```text
//! +-------+------+--------------+---------+
//! | flags | code | length       | value   |
//! | 1     | 1    | 1, or 2 bytes| length  |
//! +-------+------+--------------+---------+
//! ```
ghost use Rattle.std.specs.Prelude.{◌≡◌};
ghost use Rattle.attr_codec.specs.Kind.{flags_of};

/// The bit of the flags that says that the length has two bytes (RFC 4271, section 4.3).
pub const EXTENDED_LENGTH: u8 = 0x10;

/// The bit of the flags that says that the attribute is transitive (RFC 4271, section 4.3).
pub const TRANSITIVE: u8 = 0x40;

/// The bit of the flags that says that the attribute is optional (RFC 4271, section 4.3).
pub const OPTIONAL: u8 = 0x80;

/// How many bits of the flags stand behind optional and transitive.
pub const KIND_SHIFT: u32 = 6;

/// The greatest length that is written in one byte.
pub const SHORT_MAX: usize = 255;

/// Where the length of an attribute stands in it (RFC 4271, section 4.3).
pub const LEN_OFFSET: usize = 2;

/// How many bytes stand before a value: flags, code, and a length of one byte.
pub const HEAD_LEN: usize = 3;

/// How many bytes stand before a value with a length of two bytes.
pub const EXTENDED_HEAD_LEN: usize = 4;

/// ORIGIN (RFC 4271, section 5.1.1).
pub const ORIGIN: u8 = 1;
/// AS_PATH (RFC 4271, section 5.1.2).
pub const AS_PATH: u8 = 2;
/// NEXT_HOP (RFC 4271, section 5.1.3).
pub const NEXT_HOP: u8 = 3;
/// MULTI_EXIT_DISC (RFC 4271, section 5.1.4).
pub const MULTI_EXIT_DISC: u8 = 4;
/// LOCAL_PREF (RFC 4271, section 5.1.5).
pub const LOCAL_PREF: u8 = 5;
/// ATOMIC_AGGREGATE (RFC 4271, section 5.1.6).
pub const ATOMIC_AGGREGATE: u8 = 6;
/// AGGREGATOR (RFC 4271, section 5.1.7).
pub const AGGREGATOR: u8 = 7;
/// COMMUNITIES (RFC 1997).
pub const COMMUNITIES: u8 = 8;
/// ORIGINATOR_ID (RFC 4456, section 8).
pub const ORIGINATOR_ID: u8 = 9;
/// CLUSTER_LIST (RFC 4456, section 8).
pub const CLUSTER_LIST: u8 = 10;
/// MP_REACH_NLRI (RFC 4760, section 3).
pub const MP_REACH_NLRI: u8 = 14;
/// MP_UNREACH_NLRI (RFC 4760, section 4).
pub const MP_UNREACH_NLRI: u8 = 15;
/// EXTENDED COMMUNITIES (RFC 4360, section 2).
pub const EXTENDED_COMMUNITIES: u8 = 16;
/// LARGE_COMMUNITY (RFC 8092, section 3).
pub const LARGE_COMMUNITY: u8 = 32;

/// The origin IGP: interior to the originating AS (RFC 4271, section 4.3).
pub const IGP: u8 = 0;

/// The origin EGP: learned by the protocol of that name (RFC 4271, section 4.3).
pub const EGP: u8 = 1;

/// The origin INCOMPLETE: learned by some other means (RFC 4271, section 4.3).
pub const INCOMPLETE: u8 = 2;

/// A segment that is an unordered set of AS numbers (RFC 4271, section 4.3).
pub const AS_SET: u8 = 1;

/// A segment that is an ordered sequence of AS numbers (RFC 4271, section 4.3).
pub const AS_SEQUENCE: u8 = 2;

/// How many bytes stand before a segment's numbers: its type and its count (RFC 4271, section 4.3).
pub const SEGMENT_HEAD: usize = 2;

/// How many bytes a number has: an AS number (RFC 6793), an IPv4 address, a community (RFC 1997).
pub const NUMBER_LEN: usize = 4;

/// How many bytes an AGGREGATOR has: an AS number and an IPv4 address (RFC 6793, section 3).
pub const AGGREGATOR_LEN: usize = 8;

/// How many bytes an extended community has (RFC 4360, section 2).
pub const EXT_LEN: usize = 8;

/// How many bytes a large community has (RFC 8092, section 3).
pub const LARGE_LEN: usize = 12;

/// The AFI of IPv4 (RFC 4760, section 3).
pub const AFI_IPV4: u16 = 1;

/// The AFI of IPv6 (RFC 4760, section 3).
pub const AFI_IPV6: u16 = 2;

/// The SAFI of unicast (RFC 4760, section 6).
pub const UNICAST: u8 = 1;

/// The AFI of IPv6 in two bytes, and the SAFI of unicast (RFC 4760, sections 3 and 6).
pub const IPV6_UNICAST: [u8; 3] = [0, 2, 1];

/// How many bytes an IPv6 next hop has (RFC 2545, section 3).
pub const IPV6_HOP_LEN: usize = 16;

/// How many bytes an IPv6 next hop has with a link-local address behind it (RFC 2545, section 3).
pub const IPV6_HOPS_LEN: usize = 32;

/// The byte between the next hop and the prefixes of an MP_REACH_NLRI (RFC 4760, section 3).
pub const RESERVED: u8 = 0;

/// What an MP_REACH_NLRI has beside next hop and prefixes: AFI and SAFI, the length of the next hop, and the reserved
/// byte (RFC 4760, section 3).
pub const REACH_FIXED: usize = 5;

/// How many bytes an MP_REACH_NLRI of IPv6 has without prefixes.
pub const REACH_LEN: usize = REACH_FIXED + IPV6_HOP_LEN;

/// How many bits a byte holds of a prefix (RFC 4271, section 4.3).
pub const BYTE_BITS: usize = 8;

/// How many bits an IPv4 address has.
pub const IPV4_BITS: u8 = 32;

/// How many bits an IPv6 address has.
pub const IPV6_BITS: u8 = 128;

/// How many bytes a path identifier has (RFC 7911, section 3).
pub const ID_LEN: usize = 4;

/// Which of the two upper bits of its flags an attribute has: optional and transitive (RFC 4271, section 4.3).
/// A code that isn't listed above is never written.
#[derive(Clone, Copy, Debug, PartialEq, Eq)]
pub enum Kind {
    /// Known to every speaker: transitive alone.
    WellKnown,
    /// Not passed on by a speaker that doesn't know it: optional alone.
    Optional,
    /// Passed on by a speaker that doesn't know it: both.
    OptionalTransitive,
}

impl Kind {
    /// The flags, without extended length.
    pub fn flags(self) -> u8
        ensures { result ≡ flags_of self }
    {
        match self {
            Kind::WellKnown => TRANSITIVE,
            Kind::Optional => OPTIONAL,
            Kind::OptionalTransitive => OPTIONAL + TRANSITIVE,
        }
    }
}
