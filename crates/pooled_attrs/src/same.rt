//! Whether attributes are the same, part by part.

ghost use Rattle.std.specs.Prelude.{◌≡◌, length};
ghost use Rattle.std.specs.Cmp.Lexicographic.{pointwise};
ghost use Rattle.pooled_attrs.specs.Same.{same_segment, same_path, same_optional_path};
ghost use Rattle.pooled_attrs.specs.Same.{same_written, same_wire};

use route_values::{AsPath, Attrs, Segment, WireAttrs};

/// Whether two written values are the same.
pub fn same_written(a: &Attrs, b: &Attrs) -> bool
    ensures { result ≡ same_written a.now b.now }
{
    a.hop == b.hop
        && a.origin == b.origin
        && same_optional_path(&a.path, &b.path)
        && a.med == b.med
        && a.local_pref == b.local_pref
        && a.atomic == b.atomic
        && a.aggregator == b.aggregator
        && a.communities.as_slice() == b.communities.as_slice()
        && a.originator == b.originator
        && a.clusters.as_slice() == b.clusters.as_slice()
        && a.extended.as_slice() == b.extended.as_slice()
        && a.large.as_slice() == b.large.as_slice()
}

/// Whether two values on the wire are the same.
pub fn same_wire(a: &WireAttrs, b: &WireAttrs) -> bool
    ensures { result ≡ same_wire a.now b.now }
{
    a.hop == b.hop
        && a.origin == b.origin
        && same_path(&a.path, &b.path)
        && a.med == b.med
        && a.local_pref == b.local_pref
        && a.atomic == b.atomic
        && a.aggregator == b.aggregator
        && a.communities.as_slice() == b.communities.as_slice()
        && a.originator == b.originator
        && a.clusters.as_slice() == b.clusters.as_slice()
        && a.extended.as_slice() == b.extended.as_slice()
        && a.large.as_slice() == b.large.as_slice()
}

fn same_optional_path(a: &Option<AsPath>, b: &Option<AsPath>) -> bool
    ensures { result ≡ same_optional_path a.now b.now }
{
    match a {
        Some(path) => match b {
            Some(other) => same_path(path, other),
            None => false,
        },
        None => b.is_none(),
    }
}

fn same_path(a: &AsPath, b: &AsPath) -> bool
    ensures { result ≡ same_path a.now b.now }
{
    same_segments(a.segments(), b.segments())
}

fn same_segments(a: &[Segment], b: &[Segment]) -> bool
    ensures { result ≡ pointwise same_segment a.now b.now }
{
    if a.len() != b.len() {
        return false;
    }
    'places: for place in 0..a.len() {
        if !same_segment(&a[place], &b[place]) {
            return false;
        }
    }
    true
}

fn same_segment(a: &Segment, b: &Segment) -> bool
    ensures { result ≡ same_segment a.now b.now }
{
    a.set == b.set && a.numbers.as_slice() == b.numbers.as_slice()
}
