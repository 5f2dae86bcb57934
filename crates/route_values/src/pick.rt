//! Which neighbours a command is for.
ghost use Rattle.std.specs.Prelude.{◌↔◌, IsTrue};
ghost use Rattle.route_values.specs.Pick.{IsMatch, IsPicked};

use crate::addr::Addr;
use crate::items::Items;
use crate::settings::Settings;

/// One neighbour that a command names, by its address and by the qualifiers that are written.
#[derive(Clone, Copy, Debug, PartialEq, Eq)]
pub struct Pick {
    pub peer: Addr,
    pub local: Option<Addr>,
    pub local_as: Option<u32>,
    pub peer_as: Option<u32>,
    pub router_id: Option<u32>,
}

/// The neighbours that a command names; the empty list stands for every neighbour.
pub type Selector = Items<Pick>;

impl Pick {
    /// Whether a neighbour with these settings is meant: its address is the pick's, and each qualifier that is
    /// written equals its setting.
    pub fn matches(&self, settings: &Settings) -> bool
        ensures { IsTrue result ↔ IsMatch self.now settings.now }
    {
        self.peer == settings.peer
            && self.local.is_none_or(|local| local == settings.local)
            && self.local_as.is_none_or(|asn| asn == settings.local_as)
            && self.peer_as.is_none_or(|asn| asn == settings.peer_as)
            && self.router_id.is_none_or(|id| id == settings.router_id)
    }
}

/// Whether a selector means a neighbour with these settings: it is empty, or one of its picks does.
pub fn is_picked(selector: &Selector, settings: &Settings) -> bool
    ensures { IsTrue result ↔ IsPicked selector.now settings.now }
{
    selector.len() == 0
        || selector
            .as_slice()
            .iter()
            .any(|pick| pick.matches(settings))
}
