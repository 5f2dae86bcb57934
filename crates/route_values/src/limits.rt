//! How long the lists of a route's attributes may be.
ghost use Rattle.std.specs.Prelude.{◌≤◌, ◌↔◌, IsTrue};
ghost use Rattle.route_values.specs.Limits.{numbers_in, numbers_written};
ghost use Rattle.route_values.specs.Limits.{counts_written, IsWithinLimits};

use crate::attrs::Attrs;
use crate::path::{AsPath, Segment};

/// How many AS numbers a path may have, over all its segments.
pub const MAX_AS_NUMBERS: usize = 255;

/// How many communities (RFC 1997) a route may have.
pub const MAX_COMMUNITIES: usize = 200;

/// How many cluster identifiers (RFC 4456) a route may have.
pub const MAX_CLUSTERS: usize = 32;

/// How many extended communities (RFC 4360) a route may have.
pub const MAX_EXTENDED: usize = 64;

/// How many large communities (RFC 8092) a route may have.
pub const MAX_LARGE: usize = 64;

impl Attrs {
    /// Whether no list is longer than it may be. A list counts with all that is written, repeated values too.
    pub fn is_within_limits(&self) -> bool
        ensures { IsTrue result ↔ IsWithinLimits (counts_written self.now) }
    {
        is_path_within(&self.path)
            && self.communities.len() <= MAX_COMMUNITIES
            && self.clusters.len() <= MAX_CLUSTERS
            && self.extended.len() <= MAX_EXTENDED
            && self.large.len() <= MAX_LARGE
    }
}

// Whether a written path has no more numbers than a path may have; an unwritten one has none.
fn is_path_within(path: &Option<AsPath>) -> bool
    ensures { IsTrue result ↔ (numbers_written path.now ≤ 255) }
{
    match path {
        Some(path) => have_at_most(path.segments(), MAX_AS_NUMBERS),
        None => true,
    }
}

// Whether segments have at most so many numbers. It counts down, so that no sum can pass a usize.
fn have_at_most(segments: &[Segment], most: usize) -> bool
    ensures { IsTrue result ↔ (numbers_in segments.now ≤ most) }
{
    let mut left = most;
    'segments: for segment in segments {
        let len = segment.numbers.len();
        if len > left {
            return false;
        }
        left -= len;
    }
    true
}
