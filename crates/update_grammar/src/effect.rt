//! What attributes and messages say.
use route_values::{Addr, Aggregator, AsPath, Exts, Key, Keys, Larges, Origin, U32s, WireAttrs};

/// What one path attribute says (RFC 4271, section 4.3). Attributes of other codes have no value here: an optional
/// one is passed over, and any other is a fault.
#[derive(Debug, Drop)]
pub enum Attr {
    /// ORIGIN, code 1.
    Origin(Origin),
    /// AS_PATH, code 2.
    Path(AsPath),
    /// NEXT_HOP, code 3.
    NextHop(u32),
    /// MULTI_EXIT_DISC, code 4.
    Med(u32),
    /// LOCAL_PREF, code 5.
    LocalPref(u32),
    /// ATOMIC_AGGREGATE, code 6.
    Atomic,
    /// AGGREGATOR, code 7.
    Aggregator(Aggregator),
    /// COMMUNITIES, code 8 (RFC 1997).
    Communities(U32s),
    /// ORIGINATOR_ID, code 9 (RFC 4456).
    Originator(u32),
    /// CLUSTER_LIST, code 10 (RFC 4456).
    Clusters(U32s),
    /// MP_REACH_NLRI, code 14 (RFC 4760): None where its family isn't one of the session's.
    Reach(Option<Reached>),
    /// MP_UNREACH_NLRI, code 15 (RFC 4760): None where its family isn't one of the session's.
    Unreach(Option<Keys>),
    /// EXTENDED COMMUNITIES, code 16 (RFC 4360).
    Extended(Exts),
    /// LARGE_COMMUNITY, code 32 (RFC 8092).
    Large(Larges),
}

/// The next hop and the prefixes of an MP_REACH_NLRI (RFC 4760, section 3).
#[derive(Debug, Drop)]
pub struct Reached {
    pub hop: Addr,
    pub keys: Keys,
}

/// What an UPDATE does to one key.
#[derive(Debug, Drop)]
pub enum Effect {
    /// The key's route is withdrawn.
    Gone(Key),
    /// The key's route is announced with these attributes, in place of any before.
    Here(Key, WireAttrs),
}
