//! What attributes feed a hasher.

ghost use Rattle.std.specs.Prelude.{◌≡◌, fold};
ghost use Rattle.std.specs.List.{flat_map};
ghost use Rattle.pooled_attrs.specs.Same.{hop_input, optional_path_input, path_input};
ghost use Rattle.pooled_attrs.specs.Same.{segment_input};

use route_values::{AsPath, Hop, Segment};
use std::hash::{Hash, Hasher};

/// Feeds a next hop.
pub fn feed_hop<H: Hasher>(hop: Hop, state: &mut H)
    ensures { state.new ≡ fold H.write state.old (hop_input hop) }
{
    match hop {
        Hop::Own => state.write_u8(0),
        Hop::Is(addr) => addr.hash(state),
    }
}

/// Feeds a path that may be missing.
pub fn feed_optional_path<H: Hasher>(path: &Option<AsPath>, state: &mut H)
    ensures { state.new ≡ fold H.write state.old (optional_path_input path.now) }
{
    if let Some(path) = path {
        feed_path(path, state);
    }
}

/// Feeds a path.
pub fn feed_path<H: Hasher>(path: &AsPath, state: &mut H)
    ensures { state.new ≡ fold H.write state.old (path_input path.now) }
{
    feed_segments(path.segments(), state);
}

fn feed_segments<H: Hasher>(segments: &[Segment], state: &mut H)
    ensures { state.new ≡ fold H.write state.old (flat_map segment_input segments.now) }
{
    'segments: for segment in segments {
        feed_segment(segment, state);
    }
}

fn feed_segment<H: Hasher>(segment: &Segment, state: &mut H)
    ensures { state.new ≡ fold H.write state.old (segment_input segment.now) }
{
    segment.numbers.as_slice().hash(state);
}
