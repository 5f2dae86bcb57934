//! What a helper is told.
use route_values::{Addr, Key};

/// What a helper is told.
#[derive(Clone, Copy, Debug, Default, PartialEq, Eq)]
pub enum Reply {
    /// The command of a line was done.
    #[default]
    Done,
    /// A line was refused.
    Error,
    /// There was no memory for a line, and nothing of it was done.
    NoMemory,
    /// A route that the helper asked to see.
    Route(Shown),
}

/// A route of a neighbour, as a helper sees it.
#[derive(Clone, Copy, Debug, PartialEq, Eq)]
pub struct Shown {
    /// The neighbour's address.
    pub peer: Addr,
    /// The route's prefix and path identifier.
    pub key: Key,
    /// The next hop that is sent with it.
    pub hop: Addr,
    /// Whether the route is the configuration's, and not a helper's.
    pub fixed: bool,
}
