//! Reads the entries of ADD-PATH (RFC 7911, section 4).
//!
//! ```text
//! +-----+------+-----+--
//! | AFI | SAFI | way | ..
//! | 2   | 1    | 1   |
//! +-----+------+-----+--
//! ```
ghost use Rattle.std.specs.Prelude.{◌≡◌, [], option_map, ok_or};
ghost use Rattle.update_grammar.specs.Steps.{each};
ghost use Rattle.session_codec.specs.Found.{way_of_number, is_family, entry_step, entries_of};
ghost use Rattle.session_codec.specs.Said.{ways_by, ways_of, ways_then, told};

use super::field::family_of;
use crate::codes::{BOTH, RECEIVE, SEND};
use crate::offer::Path;
use attr_codec::numbers::read_u16;
use route_values::Family;

/// The first way of each family.
#[derive(Clone, Copy, Debug)]
pub struct Ways {
    pub ipv4: Option<Path>,
    pub ipv6: Option<Path>,
}

impl Ways {
    /// No way of any family.
    pub fn none() -> Ways
        ensures { result ≡ ways_by [] }
    {
        Ways {
            ipv4: None,
            ipv6: None,
        }
    }

    /// These, and then those of entries behind.
    pub fn followed_by(self, next: Ways) -> Ways
        ensures { result ≡ ways_then self next }
    {
        Ways {
            ipv4: self.ipv4.or(next.ipv4),
            ipv6: self.ipv6.or(next.ipv6),
        }
    }
}

/// The ways of the entries that a value is made of, or none where it isn't.
pub fn ways_in(value: &[u8]) -> Ways
    ensures { result ≡ ways_by (entries_of (each entry_step tt value.now)) }
{
    let mut ways = Ways::none();
    let mut rest = value;
    'entries: while !rest.is_empty() {
        let Some((more, behind)) = entry_at(rest) else {
            return Ways::none();
        };
        ways = ways.followed_by(more);
        rest = behind;
    }
    ways
}

// What the entry at the front says, and the bytes behind it.
#[tactic(auto, unfolding(crate::specs::Found::entry_at))]
fn entry_at(bytes: &[u8]) -> Option<(Ways, &[u8])>
    ensures { ok_or (option_map (λ one. (one.0, one.1.now)) result) tt
        ≡ told entry_step ways_of tt bytes.now }
{
    let [_, _, safi, number, rest @ ..] = bytes else {
        return None;
    };
    let Some(way) = way_of_number(*number) else {
        return None;
    };
    let family = family_of(read_u16(bytes), *safi);
    let ways = Ways {
        ipv4: is_family(Family::Ipv4, family).then_some(way),
        ipv6: is_family(Family::Ipv6, family).then_some(way),
    };
    Some((ways, rest))
}

/// Whether this family was found.
pub fn is_family(family: Family, found: Option<Family>) -> bool
    ensures { result ≡ is_family family found }
{
    match (family, found) {
        (Family::Ipv4, Some(Family::Ipv4)) | (Family::Ipv6, Some(Family::Ipv6)) => true,
        _ => false,
    }
}

fn way_of_number(number: u8) -> Option<Path>
    ensures { result ≡ way_of_number number }
{
    match number {
        RECEIVE => Some(Path::Receive),
        SEND => Some(Path::Send),
        BOTH => Some(Path::Both),
        _ => None,
    }
}
