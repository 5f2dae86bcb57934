//! Reads MP_REACH_NLRI and MP_UNREACH_NLRI (RFC 4760, sections 3, 4 and 7).
//!
//! ```text
//! +--------+--------+--------------------+---------+----------+----------+
//! | AFI    | SAFI   | length of next hop | next hop| reserved | prefixes |
//! | 2 bytes| 1 byte | 1 byte             |         | 1 byte   |          |
//! +--------+--------+--------------------+---------+----------+----------+
//! ```
//! An MP_UNREACH_NLRI has AFI, SAFI and prefixes alone.
ghost use Rattle.std.specs.Prelude.{◌≡◌, option_and_then};
ghost use Rattle.answers.specs.Gives.{Gives};
ghost use Rattle.update_grammar.specs.ReadFamilies.{family_of_numbers, agreed, hop_in, keys_value};
ghost use Rattle.update_grammar.specs.ReadFamilies.{reached_in, reach_in, unreach_in};
ghost use Rattle.attr_codec.specs.Faults.{value_blame};

use super::prefixes::read_keys;
use crate::codes::{AFI_IPV4, AFI_IPV6, IPV6_HOP_LEN, IPV6_HOPS_LEN, NUMBER_LEN, UNICAST};
use crate::fault::{KeysFault, ValueFault};
use crate::numbers::{read_u16, read_u32, read_u128};
use route_values::{Addr, Caps, Family, Keys};
use std::alloc::Global;
use update_grammar::Reached;

/// An MP_REACH_NLRI, or None where its family isn't the session's.
#[tactic(auto, unfolding(update_grammar::specs::ReadFamilies::reach_in))]
pub fn reach_in(alloc: Global, value: &[u8], caps: &Caps) -> Result<Option<Reached>, ValueFault>
    ensures { Gives (λ reached. reached) value_blame result (reach_in caps.now value.now) }
{
    let [_, _, safi, rest @ ..] = value else {
        return Err(ValueFault::BadLength);
    };
    let Some(family) = agreed(caps, read_u16(value), *safi) else {
        return Ok(None);
    };
    Ok(Some(reached_in(alloc, rest, family, caps)?))
}

/// An MP_UNREACH_NLRI, or None where its family isn't the session's.
#[tactic(auto, unfolding(update_grammar::specs::ReadFamilies::unreach_in))]
pub fn unreach_in(alloc: Global, value: &[u8], caps: &Caps) -> Result<Option<Keys>, ValueFault>
    ensures { Gives (λ keys. keys) value_blame result (unreach_in caps.now value.now) }
{
    let [_, _, safi, rest @ ..] = value else {
        return Err(ValueFault::BadLength);
    };
    let Some(family) = agreed(caps, read_u16(value), *safi) else {
        return Ok(None);
    };
    Ok(Some(keys_value(alloc, rest, family, caps)?))
}

// What stands behind AFI and SAFI of an MP_REACH_NLRI. The reserved byte isn't looked at.
#[tactic(auto, unfolding(update_grammar::specs::ReadFamilies::reached_in))]
fn reached_in(
    alloc: Global,
    bytes: &[u8],
    family: Family,
    caps: &Caps,
) -> Result<Reached, ValueFault>
    ensures { Gives (λ reached. reached) value_blame result (reached_in caps.now family bytes.now) }
{
    let [len, rest @ ..] = bytes else {
        return Err(ValueFault::BadLength);
    };
    let len = usize::from(*len);
    if rest.len() <= len {
        return Err(ValueFault::BadLength);
    }
    let Some(hop) = hop_in(family, &rest[..len]) else {
        return Err(ValueFault::BadValue);
    };
    let keys = keys_value(alloc, &rest[len + 1..], family, caps)?;
    Ok(Reached { hop, keys })
}

// The keys of a family, as the session writes them.
fn keys_value(alloc: Global, bytes: &[u8], family: Family, caps: &Caps) -> Result<Keys, ValueFault>
    ensures { Gives (λ keys. keys) value_blame result (keys_value caps.now family bytes.now) }
{
    match read_keys(alloc, bytes, family, caps.path(family)) {
        Ok(keys) => Ok(keys),
        Err(KeysFault::BadPrefix(_)) => Err(ValueFault::BadValue),
        Err(KeysFault::NoMemory) => Err(ValueFault::NoMemory),
    }
}

// A next hop: 4 bytes for IPv4; 16 for IPv6, or 32 of which the first 16 count.
fn hop_in(family: Family, hop: &[u8]) -> Option<Addr>
    ensures { result ≡ hop_in family hop.now }
{
    match family {
        Family::Ipv4 if hop.len() == NUMBER_LEN => Some(Addr::V4(read_u32(hop))),
        Family::Ipv6 if hop.len() == IPV6_HOP_LEN || hop.len() == IPV6_HOPS_LEN => {
            Some(Addr::V6(read_u128(hop)))
        }
        _ => None,
    }
}

// The family of these numbers, where the session has it.
fn agreed(caps: &Caps, afi: u16, safi: u8) -> Option<Family>
    ensures { result ≡ option_and_then (agreed caps.now) (family_of_numbers afi safi) }
{
    let Some(family) = family_of(afi, safi) else {
        return None;
    };
    caps.has(family).then_some(family)
}

fn family_of(afi: u16, safi: u8) -> Option<Family>
    ensures { result ≡ family_of_numbers afi safi }
{
    match (afi, safi) {
        (AFI_IPV4, UNICAST) => Some(Family::Ipv4),
        (AFI_IPV6, UNICAST) => Some(Family::Ipv6),
        _ => None,
    }
}
