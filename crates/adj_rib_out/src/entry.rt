//! What is told of a table.

ghost use Rattle.std.specs.Prelude.{◌≡◌, option_copied};
ghost use Rattle.std.specs.Option.{option_map};
ghost use Rattle.adj_rib_out.specs.Told.{route_told, pair_if};

use route_values::{Attrs, Key, WireAttrs};

/// Who asked for a route.
#[derive(Clone, Copy, Debug, PartialEq, Eq)]
pub enum Owner {
    /// The configuration.
    Static,
    /// A helper.
    Helper,
}

/// A route of the table.
#[derive(Clone, Copy)]
pub struct Entry<'a> {
    /// The attributes as they were written.
    pub written: &'a Attrs,
    /// The attributes as they are sent to the neighbour.
    pub attrs: &'a WireAttrs,
    pub owner: Owner,
}

/// A key with its route, where both stand.
pub fn pair<'a>(key: Option<&'a Key>, entry: Option<Entry<'a>>) -> Option<(&'a Key, Entry<'a>)>
    ensures { option_map (λ pair. (pair.0.now, route_told pair.1)) result
        ≡ pair_if (option_copied key.entry) (option_map route_told entry.entry) }
{
    match key {
        Some(key) => match entry {
            Some(entry) => Some((key, entry)),
            None => None,
        },
        None => None,
    }
}
