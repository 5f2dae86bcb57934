//! What is due of an open batch.

ghost use Rattle.std.specs.Prelude.{◌≡◌, [], option_copied};
ghost use Rattle.adj_rib_out.specs.Kept.{due_by, markers_of};
ghost use Rattle.adj_rib_out.specs.Nodes.{next_of};
ghost use Rattle.adj_rib_out.specs.Told.{next_told};

use batch_cutter::Due;
use route_values::{Family, Key, WireAttrs};

/// What is due where a slot is left: its key goes, or has these attributes under the slot's number.
pub fn key_due<'a>(number: usize, key: Option<&'a Key>, attrs: Option<&'a WireAttrs>) -> Due<'a>
    ensures { next_told result
        ≡ due_by number (option_copied key.entry) (option_copied attrs.entry) }
{
    match key {
        Some(key) => match attrs {
            Some(attrs) => Due::Here(number, key, attrs),
            None => Due::Gone(key),
        },
        None => Due::Empty,
    }
}

/// What is due where no slot is left: a marker, IPv4 first, or nothing.
pub fn marker_due<'a>(ipv4: bool, ipv6: bool) -> Due<'a>
    ensures { next_told result ≡ next_of [] (markers_of ipv4 ipv6) }
{
    if ipv4 {
        return Due::End(Family::Ipv4);
    }
    if ipv6 {
        return Due::End(Family::Ipv6);
    }
    Due::Empty
}
