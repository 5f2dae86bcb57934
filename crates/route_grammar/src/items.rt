//! What the items of a route say.
ghost use Rattle.std.specs.Prelude.{◌≡◌};
ghost use Rattle.route_grammar.specs.Items.{put, none_written};

use route_values::{Aggregator, AsPath, Attrs, Exts, Hop, Larges, Origin, U32s};
use std::alloc::Global;

/// What items say of a route.
#[derive(Debug, Drop)]
pub struct Items {
    /// The attributes that are written. Where no next hop is, it is `Own`.
    pub attrs: Attrs,
    /// The path identifier (RFC 7911), or 0 where none is written.
    pub id: u32,
    /// Whether a next hop is written.
    pub has_hop: bool,
}

/// What one item says.
#[derive(Debug, Drop)]
pub enum Item {
    NextHop(Hop),
    Origin(Origin),
    Path(AsPath),
    Med(u32),
    LocalPref(u32),
    Atomic,
    Aggregator(Aggregator),
    Communities(U32s),
    Originator(u32),
    Clusters(U32s),
    Extended(Exts),
    Large(Larges),
    PathId(u32),
}

impl Items {
    // Nothing is written.
    pub(crate) fn none(alloc: Global) -> Items
        ensures { result ≡ none_written }
    {
        Items {
            attrs: Attrs::new(alloc, Hop::Own),
            id: 0,
            has_hop: false,
        }
    }

    // Puts what an item says on top.
    pub(crate) fn put(&mut self, item: Item)
        ensures { self.new ≡ put self.old item }
    {
        match item {
            Item::NextHop(hop) => {
                self.attrs.hop = hop;
                self.has_hop = true;
            }
            Item::Origin(origin) => self.attrs.origin = Some(origin),
            Item::Path(path) => self.attrs.path = Some(path),
            Item::Med(number) => self.attrs.med = Some(number),
            Item::LocalPref(number) => self.attrs.local_pref = Some(number),
            Item::Atomic => self.attrs.atomic = true,
            Item::Aggregator(aggregator) => self.attrs.aggregator = Some(aggregator),
            Item::Communities(numbers) => self.attrs.communities = numbers,
            Item::Originator(number) => self.attrs.originator = Some(number),
            Item::Clusters(numbers) => self.attrs.clusters = numbers,
            Item::Extended(communities) => self.attrs.extended = communities,
            Item::Large(communities) => self.attrs.large = communities,
            Item::PathId(id) => self.id = id,
        }
    }
}
