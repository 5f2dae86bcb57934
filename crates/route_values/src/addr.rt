//! Addresses and their families.
ghost use Rattle.std.specs.Prelude.{◌≡◌};

/// An address family with unicast routes (RFC 4760, section 3: AFI 1 or 2 with SAFI 1).
///
/// # Order
/// IPv4 comes before IPv6.
#[derive(Clone, Copy, Debug, PartialEq, Eq, PartialOrd, Ord, Hash)]
pub enum Family {
    Ipv4,
    Ipv6,
}

/// An IP address, as the number that its bytes spell in network order.
///
/// # Order
/// By family, then by number.
#[derive(Clone, Copy, Debug, PartialEq, Eq, PartialOrd, Ord, Hash)]
pub enum Addr {
    V4(u32),
    V6(u128),
}

impl Addr {
    ghost use Rattle.route_values.specs.Addr.{family_of};

    /// The family that the address belongs to.
    pub fn family(self) -> Family
        ensures { result ≡ family_of self }
    {
        match self {
            Addr::V4(_) => Family::Ipv4,
            Addr::V6(_) => Family::Ipv6,
        }
    }
}
