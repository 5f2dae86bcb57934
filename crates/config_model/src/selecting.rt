//! Which neighbours a command of a process is for.
ghost use Rattle.std.specs.Prelude.{◌↔◌, IsTrue};
ghost use Rattle.config_model.specs.Selected.{Hears, IsSelected, IsSelectedAt};

use crate::config::Config;
use crate::sections::Neighbor;
use route_values::{Family, Selector, is_picked};

impl Neighbor {
    /// Whether the neighbour hears the process of this name.
    pub fn hears(&self, process: &[u8]) -> bool
        ensures { IsTrue result ↔ Hears self.now process.now }
    {
        self.processes
            .as_slice()
            .iter()
            .any(|name| name.as_slice() == process)
    }

    /// Whether a command of this process is for the neighbour: it hears the process, the selector means it, and its
    /// own address has the family of a command with `next-hop self`. Other commands give no family.
    pub fn is_selected(&self, process: &[u8], pick: &Selector, family: Option<Family>) -> bool
        ensures { IsTrue result ↔ IsSelected self.now process.now pick.now family }
    {
        self.hears(process)
            && is_picked(pick, &self.settings)
            && family.is_none_or(|family| family == self.settings.local.family())
    }
}

/// Whether a command of this process is for the configuration's neighbour at a place, counted from 0 in the file's
/// order. There is no such neighbour past the last one. It takes no memory.
pub fn selected(
    config: &Config,
    process: &[u8],
    pick: &Selector,
    family: Option<Family>,
    n: usize,
) -> bool
    ensures { IsTrue result ↔ IsSelectedAt config.now process.now pick.now family n }
{
    match config.neighbors().get(n) {
        Some(neighbor) => neighbor.is_selected(process, pick, family),
        None => false,
    }
}
