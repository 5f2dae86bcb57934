//! The settings that a neighbour's statements give, with defaults where nothing is written.
ghost use Rattle.std.specs.Prelude.{◌≡◌};
ghost use Rattle.config_reader.specs.Neighbors.{own_identifier, identifier_of, carries};
ghost use Rattle.config_reader.specs.Neighbors.{offers_path, settings_of, settings_written};
ghost use Rattle.config_reader.specs.Neighbors.{capabilities_of, ways_of};

use crate::capabilities::no_capability;
use crate::families::lists;
use crate::written::{Capabilities, Families, NeighborWritten, Ways};
use config_model::Settings;
use route_values::{Addr, Family};

// The TCP port of BGP (RFC 4271, section 8.2.1).
const BGP_PORT: u16 = 179;

// The hold time that is offered, in seconds.
const HOLD: u16 = 180;

/// The settings, or None where a statement is missing.
pub fn settings_written(peer: Addr, written: &NeighborWritten) -> Option<Settings>
    ensures { result ≡ settings_written peer written.now }
{
    let local = written.local?;
    let local_as = written.local_as?;
    let peer_as = written.peer_as?;
    let router_id = identifier_of(written.router_id, local)?;
    Some(settings_of(peer, written, local, local_as, peer_as, router_id))
}

// The identifier that is written, or that of an own IPv4 address.
fn identifier_of(written: Option<u32>, local: Addr) -> Option<u32>
    ensures { result ≡ identifier_of written local }
{
    match written {
        Some(number) => Some(number),
        None => own_identifier(local),
    }
}

fn own_identifier(local: Addr) -> Option<u32>
    ensures { result ≡ own_identifier local }
{
    match local {
        Addr::V4(number) => Some(number),
        Addr::V6(_) => None,
    }
}

fn settings_of(
    peer: Addr,
    written: &NeighborWritten,
    local: Addr,
    local_as: u32,
    peer_as: u32,
    router_id: u32,
) -> Settings
    ensures { result ≡ settings_of peer written.now local local_as peer_as router_id }
{
    let capabilities = capabilities_of(written);
    let ways = ways_of(written);
    Settings {
        peer,
        local,
        port: written.port.unwrap_or(BGP_PORT),
        local_as,
        peer_as,
        router_id,
        hold: written.hold.unwrap_or(HOLD),
        ipv4: carries(written.families, Family::Ipv4),
        ipv6: carries(written.families, Family::Ipv6),
        ipv4_send: offers_path(ways.send, written, Family::Ipv4),
        ipv6_send: offers_path(ways.send, written, Family::Ipv6),
        ipv4_receive: offers_path(ways.receive, written, Family::Ipv4),
        ipv6_receive: offers_path(ways.receive, written, Family::Ipv6),
        refresh: capabilities.refresh.unwrap_or(true),
        extended: capabilities.extended.unwrap_or(false),
    }
}

// Whether a family is on: without a section each is.
fn carries(listed: Option<Families>, family: Family) -> bool
    ensures { result ≡ carries listed family }
{
    match listed {
        Some(families) => lists(&families, family),
        None => true,
    }
}

// Whether path identifiers of a family are offered in a way.
fn offers_path(way: bool, written: &NeighborWritten, family: Family) -> bool
    ensures { result ≡ offers_path way written.now family }
{
    way && carries(written.families, family) && carries(written.paths, family)
}

fn capabilities_of(written: &NeighborWritten) -> Capabilities
    ensures { result ≡ capabilities_of written.now }
{
    written.capabilities.unwrap_or(no_capability())
}

// The ways in which path identifiers are offered.
fn ways_of(written: &NeighborWritten) -> Ways
    ensures { result ≡ ways_of written.now }
{
    capabilities_of(written).paths.unwrap_or(Ways {
        send: false,
        receive: false,
    })
}
