//! What the settings and a neighbour's OPEN agree on.
ghost use Rattle.std.specs.Prelude.{◌≡◌};
ghost use Rattle.session_codec.specs.Agree.{carried, with_carried, agree};

use crate::offer::Open;
use route_values::{Caps, Family, Settings};

/// What both sides of a session agreed on. [`negotiate`] finds it.
#[derive(Clone, Copy, Debug, PartialEq, Eq)]
pub struct Agreed {
    /// What is written to the neighbour.
    pub to_peer: Caps,
    /// What the neighbour writes.
    pub from_peer: Caps,
    /// The hold time in seconds, or 0 for no timers (RFC 4271, section 4.2).
    pub hold: u16,
    /// Whether all routes of a family may be asked for (RFC 2918, section 4).
    pub refresh: bool,
}

// A family of one direction: whether both sides have it, and whether one sends and the other one takes identifiers.
#[derive(Clone, Copy, Debug)]
struct Carried {
    both: bool,
    path: bool,
}

/// What the own settings and the neighbour's OPEN agree on.
///
/// A family is agreed where both sides have it (RFC 4760, section 8), and its prefixes have path identifiers in one
/// direction where the one side sends them and the other one takes them (RFC 7911, section 4). The hold time is the
/// lesser one (RFC 4271, section 4.2). Where no family is agreed, the session carries no route.
pub fn negotiate(own: &Settings, theirs: &Open) -> Agreed
    ensures { result ≡ agree own.now theirs.now }
{
    let ipv4 = own.ipv4 && theirs.ipv4;
    let ipv6 = own.ipv6 && theirs.ipv6;
    let extended = own.extended && theirs.extended;
    let to_peer = caps_of(
        Carried {
            both: ipv4,
            path: own.ipv4_send && theirs.ipv4_path.receives(),
        },
        Carried {
            both: ipv6,
            path: own.ipv6_send && theirs.ipv6_path.receives(),
        },
        extended,
    );
    let from_peer = caps_of(
        Carried {
            both: ipv4,
            path: own.ipv4_receive && theirs.ipv4_path.sends(),
        },
        Carried {
            both: ipv6,
            path: own.ipv6_receive && theirs.ipv6_path.sends(),
        },
        extended,
    );
    Agreed {
        to_peer,
        from_peer,
        hold: own.hold.min(theirs.hold),
        refresh: own.refresh && theirs.refresh,
    }
}

// What one direction carries.
fn caps_of(ipv4: Carried, ipv6: Carried, extended: bool) -> Caps
    ensures { result ≡ carried ipv4.both ipv4.path ipv6.both ipv6.path extended }
{
    let caps = with_family(Caps::none(), Family::Ipv4, ipv4);
    let caps = with_family(caps, Family::Ipv6, ipv6);
    if extended { caps.with_extended() } else { caps }
}

// The same, and the family where both sides have it.
fn with_family(caps: Caps, family: Family, carried: Carried) -> Caps
    ensures { result ≡ with_carried caps family carried.both carried.path }
{
    if carried.both {
        caps.with(family, carried.path)
    } else {
        caps
    }
}
