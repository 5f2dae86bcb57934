//! What a file of a health check says.
use arrayvec::ArrayVec;
use route_values::{Hop, Keys};

/// The most bytes of the program.
pub const MAX_RUN: usize = 1_024;

/// The most prefixes.
pub const MAX_PREFIXES: usize = 1_024;

/// A health check, as its file has it.
#[derive(Debug, Drop)]
pub struct Health {
    /// After how many checks in a row that found `Up` the service is up: 1 to 1,000.
    pub rise: u32,
    /// After how many checks in a row that found `Down` it is down: 1 to 1,000.
    pub fall: u32,
    /// The pause before each check but the first, in milliseconds: 1 to 86,400,000, a day.
    pub every: u64,
    /// How many checks are made: 1 to 2^40.
    pub turns: u64,
    /// The program that checks.
    pub run: ArrayVec<u8, MAX_RUN>,
    /// The prefixes in the file's order, of one family, each once and without a path identifier.
    pub prefixes: Keys,
    /// Their next hop, of their family where it is an address.
    pub hop: Hop,
    /// The MED of the announcement while the service is up (RFC 4271, section 5.1.4).
    pub up_med: u32,
    /// The MED of the announcement while it is down, or None where the prefixes are withdrawn.
    pub down: Option<u32>,
}
