//! What the attributes of a body say, each matter by itself.
ghost use Rattle.std.specs.Prelude.{◌≡◌, [], IfOk};
ghost use Rattle.update_codec.specs.Matters.{matters_of, told_of, with_attr};

use attr_codec::AttrList;
use route_values::{Aggregator, AsPath, Exts, Items, Keys, Larges, NoMemory, Origin, U32s};
use std::alloc::Global;
use update_grammar::{Attr, Reached};

/// What attributes say of each matter: None or false where none speaks of it. Of several that do, the first counts.
#[derive(Debug, Drop)]
pub struct Matters {
    pub origin: Option<Origin>,
    pub path: Option<AsPath>,
    pub next_hop: Option<u32>,
    pub med: Option<u32>,
    pub local_pref: Option<u32>,
    pub atomic: bool,
    pub aggregator: Option<Aggregator>,
    pub communities: U32s,
    pub originator: Option<u32>,
    pub clusters: U32s,
    pub extended: Exts,
    pub large: Larges,
}

/// What attributes say of a body's own prefixes, and of those that they carry themselves.
#[derive(Debug, Drop)]
pub struct Told {
    pub matters: Matters,
    /// The MP_REACH_NLRI, and within it None where its family isn't one of the session's.
    pub reach: Option<Option<Reached>>,
    /// The MP_UNREACH_NLRI, the same way.
    pub unreach: Option<Option<Keys>>,
}

impl Matters {
    // Nothing is said. No memory is taken.
    fn none(alloc: Global) -> Matters
        ensures { result ≡ matters_of [] }
    {
        Matters {
            origin: None,
            path: None,
            next_hop: None,
            med: None,
            local_pref: None,
            atomic: false,
            aggregator: None,
            communities: Items::new(alloc),
            originator: None,
            clusters: Items::new(alloc),
            extended: Items::new(alloc),
            large: Items::new(alloc),
        }
    }

    /// Equal matters.
    pub fn copy(&self, alloc: Global) -> Result<Matters, NoMemory>
        ensures { IfOk result (λ copied. copied ≡ self.now) }
    {
        Ok(Matters {
            origin: self.origin,
            path: copy_path(alloc, &self.path)?,
            next_hop: self.next_hop,
            med: self.med,
            local_pref: self.local_pref,
            atomic: self.atomic,
            aggregator: self.aggregator,
            communities: self.communities.copy(alloc)?,
            originator: self.originator,
            clusters: self.clusters.copy(alloc)?,
            extended: self.extended.copy(alloc)?,
            large: self.large.copy(alloc)?,
        })
    }
}

impl Told {
    /// What these attributes say. No memory is taken.
    pub fn of(alloc: Global, said: AttrList) -> Told
        ensures { result ≡ told_of said }
    {
        let mut told = Told {
            matters: Matters::none(alloc),
            reach: None,
            unreach: None,
        };
        let mut rest = said.into_vec();
        while let Some(attr) = rest.pop() {
            told.put(attr);
        }
        told
    }

    // An attribute that stands before those that were put before.
    fn put(&mut self, attr: Attr)
        ensures { self.new ≡ with_attr attr self.old }
    {
        match attr {
            Attr::Origin(origin) => self.matters.origin = Some(origin),
            Attr::Path(path) => self.matters.path = Some(path),
            Attr::NextHop(hop) => self.matters.next_hop = Some(hop),
            Attr::Med(med) => self.matters.med = Some(med),
            Attr::LocalPref(pref) => self.matters.local_pref = Some(pref),
            Attr::Atomic => self.matters.atomic = true,
            Attr::Aggregator(aggregator) => self.matters.aggregator = Some(aggregator),
            Attr::Communities(communities) => self.matters.communities = communities,
            Attr::Originator(originator) => self.matters.originator = Some(originator),
            Attr::Clusters(clusters) => self.matters.clusters = clusters,
            Attr::Reach(reach) => self.reach = Some(reach),
            Attr::Unreach(unreach) => self.unreach = Some(unreach),
            Attr::Extended(extended) => self.matters.extended = extended,
            Attr::Large(large) => self.matters.large = large,
        }
    }
}

fn copy_path(alloc: Global, path: &Option<AsPath>) -> Result<Option<AsPath>, NoMemory>
    ensures { IfOk result (λ copied. copied ≡ path.now) }
{
    match path {
        Some(path) => Ok(Some(path.copy(alloc)?)),
        None => Ok(None),
    }
}
