//! Equal values with memory of their own.
ghost use Rattle.std.specs.Prelude.{◌≡◌, IfOk};

use crate::attrs::{Attrs, WireAttrs};
use crate::path::{AsPath, Segment};
use answers::NoMemory;
use std::alloc::Global;

impl AsPath {
    /// An equal path.
    pub fn copy(&self, alloc: Global) -> Result<AsPath, NoMemory>
        ensures { IfOk result (λ copied. copied ≡ self.now) }
    {
        let mut segments = Vec::new(alloc);
        'segments: for segment in self.segments() {
            segments.push(Segment {
                set: segment.set,
                numbers: segment.numbers.copy(alloc)?,
            })?;
        }
        Ok(AsPath::from_segments(segments))
    }
}

fn copy_written_path(alloc: Global, path: &Option<AsPath>) -> Result<Option<AsPath>, NoMemory>
    ensures { IfOk result (λ copied. copied ≡ path.now) }
{
    match path {
        Some(path) => Ok(Some(path.copy(alloc)?)),
        None => Ok(None),
    }
}

impl Attrs {
    /// Equal attributes.
    pub fn copy(&self, alloc: Global) -> Result<Attrs, NoMemory>
        ensures { IfOk result (λ copied. copied ≡ self.now) }
    {
        Ok(Attrs {
            hop: self.hop,
            origin: self.origin,
            path: copy_written_path(alloc, &self.path)?,
            med: self.med,
            local_pref: self.local_pref,
            atomic: self.atomic,
            aggregator: self.aggregator,
            communities: self.communities.copy(alloc)?,
            originator: self.originator,
            clusters: self.clusters.copy(alloc)?,
            extended: self.extended.copy(alloc)?,
            large: self.large.copy(alloc)?,
        })
    }
}

impl WireAttrs {
    /// Equal attributes.
    pub fn copy(&self, alloc: Global) -> Result<WireAttrs, NoMemory>
        ensures { IfOk result (λ copied. copied ≡ self.now) }
    {
        Ok(WireAttrs {
            hop: self.hop,
            origin: self.origin,
            path: self.path.copy(alloc)?,
            med: self.med,
            local_pref: self.local_pref,
            atomic: self.atomic,
            aggregator: self.aggregator,
            communities: self.communities.copy(alloc)?,
            originator: self.originator,
            clusters: self.clusters.copy(alloc)?,
            extended: self.extended.copy(alloc)?,
            large: self.large.copy(alloc)?,
        })
    }
}
