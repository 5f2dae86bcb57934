//! What statements say, as far as they are written.
use crate::health::MAX_RUN;
use arrayvec::ArrayVec;
use route_values::{Hop, Keys};

/// The statements of a file.
#[derive(Debug, Drop)]
pub struct Written {
    pub rise: Option<u32>,
    pub fall: Option<u32>,
    pub every: Option<u64>,
    pub turns: Option<u64>,
    pub run: Option<ArrayVec<u8, MAX_RUN>>,
    /// None stands where the statement isn't written.
    pub prefixes: Keys,
    pub hop: Option<Hop>,
    pub up_med: Option<u32>,
    /// What `down` says, where it is written: the MED of an announcement, or a withdrawal.
    pub down: Option<Option<u32>>,
}
