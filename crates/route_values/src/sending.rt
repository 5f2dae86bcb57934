//! What is sent for attributes as they were written.
ghost use Rattle.std.specs.Prelude.{◌≡◌, IfOk};
ghost use Rattle.route_values.specs.Limits.{counts_written, counts_sent, IsWithinLimits};
ghost use Rattle.route_values.specs.Sent.{hop_sent, path_sent, local_pref_sent, sent};

use crate::addr::Addr;
use crate::attrs::{Attrs, Hop, Origin, WireAttrs};
use crate::items::Items;
use crate::path::{AsPath, Segment};
use crate::settings::Side;
use answers::NoMemory;
use std::alloc::Global;

// The LOCAL_PREF that a neighbour of the own AS is sent where none was written.
const DEFAULT_LOCAL_PREF: u32 = 100;

/// The attributes as they are sent to a neighbour.
///
/// An unwritten origin is IGP. An unwritten path is one sequence of the local AS for a neighbour of another AS, and
/// empty for one of the own AS. LOCAL_PREF goes to a neighbour of the own AS alone, as 100 where it wasn't written
/// (RFC 4271, section 5.1.5). The next hop `self` is the local address. Each value of the four lists is sent at its
/// first place alone. All else is sent as it was written. So attributes within their limits are sent within them.
pub fn wire(alloc: Global, attrs: &Attrs, side: &Side) -> Result<WireAttrs, NoMemory>
    ensures value { IfOk result (λ w. w ≡ sent attrs.now side.now) }
    ensures within { IsWithinLimits (counts_written attrs.now)
        → IfOk result (λ w. IsWithinLimits (counts_sent w)) }
{
    Ok(WireAttrs {
        hop: hop_of(attrs.hop, side),
        origin: attrs.origin.unwrap_or(Origin::Igp),
        path: path_of(alloc, &attrs.path, side)?,
        med: attrs.med,
        local_pref: local_pref_of(attrs.local_pref, side),
        atomic: attrs.atomic,
        aggregator: attrs.aggregator,
        communities: attrs.communities.first_places(alloc)?,
        originator: attrs.originator,
        clusters: attrs.clusters.first_places(alloc)?,
        extended: attrs.extended.first_places(alloc)?,
        large: attrs.large.first_places(alloc)?,
    })
}

fn hop_of(hop: Hop, side: &Side) -> Addr
    ensures { result ≡ hop_sent hop side.now }
{
    match hop {
        Hop::Own => side.local,
        Hop::Is(addr) => addr,
    }
}

fn path_of(alloc: Global, path: &Option<AsPath>, side: &Side) -> Result<AsPath, NoMemory>
    ensures { IfOk result (λ p. p ≡ path_sent path.now side.now) }
{
    match path {
        Some(path) => path.copy(alloc),
        None => default_path(alloc, side),
    }
}

fn default_path(alloc: Global, side: &Side) -> Result<AsPath, NoMemory>
    ensures { IfOk result (λ p. p ≡ path_sent None side.now) }
{
    let mut segments = Vec::new(alloc);
    if side.peer_as != side.local_as {
        let numbers = Items::from_vec(vec![in alloc; side.local_as]?);
        segments.push(Segment {
            set: false,
            numbers,
        })?;
    }
    Ok(AsPath::from_segments(segments))
}

fn local_pref_of(written: Option<u32>, side: &Side) -> Option<u32>
    ensures { result ≡ local_pref_sent written side.now }
{
    if side.peer_as == side.local_as {
        Some(written.unwrap_or(DEFAULT_LOCAL_PREF))
    } else {
        None
    }
}
