//! The words that sections and statements begin with.

/// What a section is of.
#[derive(Clone, Copy, Debug, PartialEq, Eq)]
pub enum Section {
    Process,
    Neighbor,
}

/// A statement of a process, by its first word.
#[derive(Clone, Copy, Debug, PartialEq, Eq)]
pub enum ProcessStatement {
    Run,
    Encoder,
    Respawn,
}

/// A statement of a neighbour, by its first word.
#[derive(Clone, Copy, Debug, PartialEq, Eq)]
pub enum NeighborStatement {
    Description,
    RouterId,
    LocalAddress,
    LocalAs,
    PeerAs,
    HoldTime,
    Connect,
    Family,
    AddPath,
    Capability,
    Static,
    Api,
}

/// A capability, by its first word.
#[derive(Clone, Copy, Debug, PartialEq, Eq)]
pub enum Capability {
    AddPath,
    RouteRefresh,
    Asn4,
    ExtendedMessage,
}
