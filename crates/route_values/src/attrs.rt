//! Path attributes as they are written in a command, and as they are sent.
ghost use Rattle.std.specs.Prelude.{◌≡◌};

use crate::addr::Addr;
use crate::items::Items;
use crate::path::{AsPath, U32s};
use std::alloc::Global;

/// Extended communities (RFC 4360), each as its eight bytes.
pub type Exts = Items<[u8; 8]>;

/// Large communities (RFC 8092).
pub type Larges = Items<Large>;

/// A large community (RFC 8092, section 3): a global administrator and two numbers of its own.
#[derive(Clone, Copy, Debug, PartialEq, Eq)]
pub struct Large {
    pub global: u32,
    pub first: u32,
    pub second: u32,
}

/// Where the routing information came from (RFC 4271, section 5.1.1).
#[derive(Clone, Copy, Debug, PartialEq, Eq)]
pub enum Origin {
    Igp,
    Egp,
    Incomplete,
}

/// The next hop of a route as it is written.
#[derive(Clone, Copy, Debug, PartialEq, Eq)]
pub enum Hop {
    /// The local address of the session, written `self`.
    Own,
    /// This address.
    Is(Addr),
}

/// The speaker that formed an aggregate (RFC 4271, section 5.1.7): its AS number and its IPv4 address.
#[derive(Clone, Copy, Debug, PartialEq, Eq)]
pub struct Aggregator {
    pub asn: u32,
    pub addr: u32,
}

/// Path attributes as a command writes them: None, false or an empty list where it doesn't.
#[derive(Debug, Drop)]
pub struct Attrs {
    pub hop: Hop,
    pub origin: Option<Origin>,
    pub path: Option<AsPath>,
    /// MULTI_EXIT_DISC (RFC 4271, section 5.1.4).
    pub med: Option<u32>,
    /// LOCAL_PREF (RFC 4271, section 5.1.5).
    pub local_pref: Option<u32>,
    /// Whether ATOMIC_AGGREGATE stands (RFC 4271, section 5.1.6).
    pub atomic: bool,
    pub aggregator: Option<Aggregator>,
    pub communities: U32s,
    /// ORIGINATOR_ID (RFC 4456, section 8).
    pub originator: Option<u32>,
    /// CLUSTER_LIST (RFC 4456, section 8).
    pub clusters: U32s,
    pub extended: Exts,
    pub large: Larges,
}

/// Path attributes as they are sent to one neighbour. The fields are those of [`Attrs`], with the three that
/// every announcement has.
#[derive(Debug, Drop)]
pub struct WireAttrs {
    pub hop: Addr,
    pub origin: Origin,
    pub path: AsPath,
    pub med: Option<u32>,
    pub local_pref: Option<u32>,
    pub atomic: bool,
    pub aggregator: Option<Aggregator>,
    pub communities: U32s,
    pub originator: Option<u32>,
    pub clusters: U32s,
    pub extended: Exts,
    pub large: Larges,
}

impl Attrs {
    ghost use Rattle.route_values.specs.Attrs.{unwritten};

    /// Attributes of which the next hop alone is written. They take no memory.
    pub fn new(alloc: Global, hop: Hop) -> Attrs
        ensures { result ≡ unwritten hop }
    {
        Attrs {
            hop,
            origin: None,
            path: None,
            med: None,
            local_pref: None,
            atomic: false,
            aggregator: None,
            communities: Items::new(alloc),
            originator: None,
            clusters: Items::new(alloc),
            extended: Items::new(alloc),
            large: Items::new(alloc),
        }
    }
}

impl WireAttrs {
    ghost use Rattle.route_values.specs.Attrs.{plain};

    /// Attributes with these three and no others. They take no memory.
    pub fn new(alloc: Global, hop: Addr, origin: Origin, path: AsPath) -> WireAttrs
        ensures { result ≡ plain hop origin path }
    {
        WireAttrs {
            hop,
            origin,
            path,
            med: None,
            local_pref: None,
            atomic: false,
            aggregator: None,
            communities: Items::new(alloc),
            originator: None,
            clusters: Items::new(alloc),
            extended: Items::new(alloc),
            large: Items::new(alloc),
        }
    }
}
