//! The settings of a neighbour's session.
ghost use Rattle.std.specs.Prelude.{◌≡◌};
ghost use Rattle.route_values.specs.Settings.{side_of};

use crate::addr::Addr;

/// The two ends of a session, as far as the attributes that are sent depend on them.
#[derive(Clone, Copy, Debug, PartialEq, Eq)]
pub struct Side {
    pub local: Addr,
    pub local_as: u32,
    pub peer_as: u32,
}

/// What is configured of a neighbour's session.
#[derive(Clone, Copy, Debug, PartialEq, Eq)]
pub struct Settings {
    /// The neighbour's address.
    pub peer: Addr,
    /// The own address, which has the neighbour's family.
    pub local: Addr,
    /// The TCP port to connect to.
    pub port: u16,
    pub local_as: u32,
    pub peer_as: u32,
    /// The own BGP identifier (RFC 4271, section 4.2).
    pub router_id: u32,
    /// The hold time to offer, in seconds: 0 for none, or at least 3 (RFC 4271, section 4.2).
    pub hold: u16,
    pub ipv4: bool,
    pub ipv6: bool,
    /// Whether path identifiers are offered for sending IPv4 routes, and so on (RFC 7911, section 4).
    pub ipv4_send: bool,
    pub ipv6_send: bool,
    pub ipv4_receive: bool,
    pub ipv6_receive: bool,
    /// Whether route refresh is offered (RFC 2918).
    pub refresh: bool,
    /// Whether extended messages are offered (RFC 8654).
    pub extended: bool,
}

impl Settings {
    /// The two ends of the session.
    pub fn side(&self) -> Side
        ensures { result ≡ side_of self.now }
    {
        Side {
            local: self.local,
            local_as: self.local_as,
            peer_as: self.peer_as,
        }
    }
}
