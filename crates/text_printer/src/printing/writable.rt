//! Whether a command can write attributes.
ghost use Rattle.std.specs.Prelude.{◌≤◌, ◌↔◌, IsTrue, IfSome};
ghost use Rattle.std.specs.List.{AllByRecursion};
ghost use Rattle.route_values.specs.Limits.{counts_sent, numbers_in, IsWithinLimits};
ghost use Rattle.text_printer.specs.Printable.{HasNoZero, IsAs, IsFormedByAs, IsWritable};

use route_values::{
    Aggregator, MAX_AS_NUMBERS, MAX_CLUSTERS, MAX_COMMUNITIES, MAX_EXTENDED, MAX_LARGE, Segment,
    WireAttrs,
};

// The AS number that no AS has (RFC 7607).
const NO_AS: u32 = 0;

/// Whether a command can write these attributes: no AS number is 0, and no list is longer than it may be.
pub fn is_writable(sent: &WireAttrs) -> bool
    ensures { IsTrue result ↔ IsWritable sent.now }
{
    have_no_zero(sent.path.segments())
        && is_formed_by_as(&sent.aggregator)
        && are_within_limits(sent)
}

fn have_no_zero(segments: &[Segment]) -> bool
    ensures { IsTrue result ↔ AllByRecursion HasNoZero segments.now }
{
    'segments: for segment in segments {
        if !has_no_zero(segment.numbers.as_slice()) {
            return false;
        }
    }
    true
}

fn has_no_zero(numbers: &[u32]) -> bool
    ensures { IsTrue result ↔ AllByRecursion IsAs numbers.now }
{
    'numbers: for number in numbers {
        if *number == NO_AS {
            return false;
        }
    }
    true
}

fn is_formed_by_as(aggregator: &Option<Aggregator>) -> bool
    ensures { IsTrue result ↔ IfSome aggregator.now IsFormedByAs }
{
    match aggregator {
        Some(by) => by.asn != NO_AS,
        None => true,
    }
}

fn are_within_limits(sent: &WireAttrs) -> bool
    ensures { IsTrue result ↔ IsWithinLimits (counts_sent sent.now) }
{
    have_at_most(sent.path.segments(), MAX_AS_NUMBERS)
        && sent.communities.len() <= MAX_COMMUNITIES
        && sent.clusters.len() <= MAX_CLUSTERS
        && sent.extended.len() <= MAX_EXTENDED
        && sent.large.len() <= MAX_LARGE
}

// Whether segments have at most so many numbers. It counts down, so that no sum can pass a usize.
fn have_at_most(segments: &[Segment], most: usize) -> bool
    ensures { IsTrue result ↔ (numbers_in segments.now ≤ most) }
{
    let mut left = most;
    'segments: for segment in segments {
        let len = segment.numbers.len();
        if len > left {
            return false;
        }
        left -= len;
    }
    true
}
