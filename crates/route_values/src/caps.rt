//! What a session carries.
ghost use Rattle.std.specs.Prelude.{◌≡◌, ◌↔◌, IsTrue};
ghost use Rattle.route_values.specs.Visible.{has_family, has_path, IsVisible};

use crate::addr::Family;
use crate::key::Key;
use std::marker::Model;

/// What may be written in one direction of a session: the families that both sides have (RFC 4760, section 8),
/// those whose prefixes have path identifiers (RFC 7911, section 4), and whether messages may have up to 65,535
/// bytes (RFC 8654). A family has path identifiers only where it is carried.
#[derive(Clone, Copy, Debug, PartialEq, Eq)]
pub struct Caps {
    ipv4: bool,
    ipv6: bool,
    ipv4_path: bool,
    ipv6_path: bool,
    extended: bool,
}

impl Model for Caps {
    ghost use Rattle.route_values.specs.Caps.{Caps, AreKept, flags};

    ghost Value = { Caps };

    ghost view = { λ c. flags c.ipv4 c.ipv6 c.ipv4_path c.ipv6_path c.extended };

    ghost invariant = { λ c. AreKept (flags c.ipv4 c.ipv6 c.ipv4_path c.ipv6_path c.extended) };

    ghost inverse = { λ c. record {
      ipv4 = c.ipv4;
      ipv6 = c.ipv6;
      ipv4_path = c.ipv4_path;
      ipv6_path = c.ipv6_path;
      extended = c.extended;
    } };
}

impl Caps {
    ghost use Rattle.route_values.specs.Caps.{no_caps, with_family, with_extended};

    /// No family, and messages of 4,096 bytes.
    pub fn none() -> Caps
        ensures { result ≡ no_caps }
    {
        Caps {
            ipv4: false,
            ipv6: false,
            ipv4_path: false,
            ipv6_path: false,
            extended: false,
        }
    }

    /// The same, with routes of the family carried, and with path identifiers for its prefixes or without.
    pub fn with(self, family: Family, path: bool) -> Caps
        ensures { result ≡ with_family self family path }
    {
        match family {
            Family::Ipv4 => Caps {
                ipv4: true,
                ipv4_path: path,
                ..self
            },
            Family::Ipv6 => Caps {
                ipv6: true,
                ipv6_path: path,
                ..self
            },
        }
    }

    /// The same, with messages of up to 65,535 bytes.
    pub fn with_extended(self) -> Caps
        ensures { result ≡ with_extended self }
    {
        Caps {
            extended: true,
            ..self
        }
    }

    /// Whether routes of the family are carried.
    pub fn has(&self, family: Family) -> bool
        ensures { result ≡ has_family self.now family }
    {
        match family {
            Family::Ipv4 => self.ipv4,
            Family::Ipv6 => self.ipv6,
        }
    }

    /// Whether prefixes of the family have path identifiers.
    pub fn path(&self, family: Family) -> bool
        ensures value { result ≡ has_path self.now family }
        ensures kept { IsTrue result → IsTrue (has_family self.now family) }
    {
        match family {
            Family::Ipv4 => self.ipv4_path,
            Family::Ipv6 => self.ipv6_path,
        }
    }

    /// Whether messages may have up to 65,535 bytes.
    pub fn extended(&self) -> bool
        ensures { result ≡ self.now.extended }
    {
        self.extended
    }
}

/// Whether a session carries the key: its family is among the capabilities, and its identifier is 0 or the family
/// has path identifiers. So no two visible keys look alike on the wire.
pub fn visible(key: &Key, caps: &Caps) -> bool
    ensures { IsTrue result ↔ IsVisible key.now caps.now }
{
    let family = key.family();
    caps.has(family) && (key.id == 0 || caps.path(family))
}
