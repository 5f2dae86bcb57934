//! Messages of several keys.
ghost use Rattle.std.specs.Prelude.{◌≡◌, ◌≤◌, [], All};
ghost use Rattle.route_values.specs.Addr.{family_of};
ghost use Rattle.attr_codec.specs.Sizes.{IsShort};
ghost use Rattle.update_codec.specs.Open.{IsOpenHere, IsOpenGone};

use super::*;

/// Writes an announcement of a family; answers how many of the keys are in it.
pub fn announce(
    out: &mut Message,
    attrs: &WireAttrs,
    family: Family,
    caps: &Caps,
    keys: &[Key],
) -> usize
    requires empty { out.old.bytes ≡ [] }
    requires room { 4096 ≤ out.old.room }
    requires hop { family_of attrs.now.hop ≡ family }
    requires short { All IsShort attrs.now.path }
{
    if open_here(out, attrs, family) {
        announce_more(out, family, caps, keys)
    } else {
        0
    }
}

/// Writes a withdrawal of a family; answers how many of the keys are in it.
pub fn withdraw(out: &mut Message, family: Family, caps: &Caps, keys: &[Key]) -> usize
    requires empty { out.old.bytes ≡ [] }
    requires room { 4096 ≤ out.old.room }
{
    open_gone(out, family);
    withdraw_more(out, family, caps, keys)
}

/// Writes a withdrawal of a family in less room than a session has, from the marker of the family, which is a
/// withdrawal without keys.
pub fn withdraw_within(out: &mut Message, family: Family, caps: &Caps, keys: &[Key]) -> usize
    requires { out.old.bytes ≡ [] }
{
    if put_end_of_rib(out, family) {
        withdraw_more(out, family, caps, keys)
    } else {
        0
    }
}

// Puts keys into an announcement; answers how many of them fit.
fn announce_more(out: &mut Message, family: Family, caps: &Caps, keys: &[Key]) -> usize
    requires { IsOpenHere caps.now family out.old.bytes }
{
    let mut count = 0;
    for key in keys {
        if put_here(out, family, caps, key) {
            count += 1;
        }
    }
    count
}

// Puts keys into a withdrawal; answers how many of them fit.
fn withdraw_more(out: &mut Message, family: Family, caps: &Caps, keys: &[Key]) -> usize
    requires { IsOpenGone caps.now family out.old.bytes }
{
    let mut count = 0;
    for key in keys {
        if key.family() == family && put_unreach(out, caps, key) {
            count += 1;
        }
    }
    count
}

// Puts a key of the family into an announcement.
fn put_here(out: &mut Message, family: Family, caps: &Caps, key: &Key) -> bool
    requires { IsOpenHere caps.now family out.old.bytes }
    ensures { IsOpenHere caps.now family out.new.bytes }
{
    match (family, key.family()) {
        (Family::Ipv4, Family::Ipv4) => put_nlri(out, caps, key),
        (Family::Ipv6, Family::Ipv6) => put_reach(out, caps, key),
        _ => false,
    }
}
