//! Calls whose conditions are tested here, for the check and not for the tests: each is met.
ghost use Rattle.std.specs.Prelude.{◌≡◌, ◌∷◌, [], IsTrue, Some};
ghost use Rattle.route_values.specs.Addr.{family_of};
ghost use Rattle.route_values.specs.Key.{family_of_key};
ghost use Rattle.route_values.specs.Sent.{hop_sent, sent};
ghost use Rattle.route_values.specs.Settings.{side_of};
ghost use Rattle.batch_cutter.specs.Heads.{IsRoute};
ghost use Rattle.peer_book.specs.Statics.{AreRoutes};

use super::ROOM;
use crate::{Code, Numbers, PeerSlot, known_route};
use adj_rib_out::Rib;
use config_model::StaticRoute;
use route_values::{Addr, Attrs, Family, Hop, Key, Settings, Side};
use std::alloc::Global;
use std::hash::RandomState;
use std::test::*;

// The family of the next hop that is sent.
fn hop_family(hop: Hop, settings: &Settings) -> Family
    ensures { result ≡ family_of (hop_sent hop (side_of settings.now)) }
{
    match hop {
        Hop::Own => settings.local.family(),
        Hop::Is(addr) => addr.family(),
    }
}

// Whether attributes are a route of a key.
fn is_route(settings: &Settings, key: &Key, attrs: &Attrs) -> bool
    ensures { IsTrue result
        → IsRoute (family_of_key key.now) (sent attrs.now (side_of settings.now)) }
{
    known_route(&settings.side(), attrs);
    hop_family(attrs.hop, settings) == key.family() && attrs.is_within_limits()
}

// Whether static routes are routes of their keys.
fn are_routes(settings: &Settings, statics: &[StaticRoute]) -> bool
    ensures { IsTrue result → AreRoutes (side_of settings.now) statics.now }
{
    'routes: for route in statics {
        if !is_route(settings, &route.key, &route.attrs) {
            return false;
        }
    }
    true
}

/// A helper announces a route with this next hop.
pub fn announce(alloc: Global, slot: &mut PeerSlot, key: &Key, hop: u32) -> Result<(), Fail> {
    let Some(own) = slot.settings() else {
        return Err("a neighbour".into());
    };
    let attrs = Attrs::new(alloc, Hop::Is(Addr::V4(hop)));
    if !is_route(&own, key, &attrs) {
        return Err("a route".into());
    }
    let number = slot.prepare(&[*key], &attrs)?;
    slot.announce(&[*key], number);
    Ok(())
}

// How many nodes the slot is told to have behind `keep`, where numbers are small.
fn foretold(slot: &PeerSlot, numbers: &Numbers) -> Option<usize> {
    if slot.nodes() > ROOM || numbers.len() > ROOM {
        return None;
    }
    Some(slot.nodes_kept(numbers))
}

/// The neighbour stays, with these static routes. Tells whether the slot has as many nodes as was foretold.
pub fn reload(alloc: Global, slot: &mut PeerSlot, statics: &[StaticRoute]) -> Result<bool, Fail> {
    let Some(own) = slot.settings() else {
        return Err("a neighbour".into());
    };
    if !are_routes(&own, statics) {
        return Err("routes".into());
    }
    let numbers = slot.prepare_statics(alloc, statics)?;
    let nodes = foretold(slot, &numbers);
    slot.keep(own, statics, &numbers);
    slot.trim();
    Ok(nodes == Some(slot.nodes()))
}

/// The neighbour gets other settings, and these static routes.
pub fn resettle(
    rt: &HostRuntime,
    slot: &mut PeerSlot,
    settings: Settings,
    statics: &[StaticRoute],
) -> Result<(), Fail> {
    let Some(own) = slot.settings() else {
        return Err("a neighbour".into());
    };
    if own.local.family() != settings.local.family() || !are_routes(&settings, statics) {
        return Err("routes".into());
    }
    let table = Rib::new(rt.alloc(), settings.side(), RandomState::new(rt)?);
    let moved = slot.moved(rt.alloc(), table, settings, statics)?;
    slot.end(Code::new(6, 6));
    slot.exchange(moved);
    Ok(())
}

/// The neighbour goes.
pub fn vacate(rt: &HostRuntime, slot: &mut PeerSlot, side: Side) -> Result<(), Fail> {
    let table = Rib::new(rt.alloc(), side, RandomState::new(rt)?);
    slot.end(Code::new(6, 3));
    slot.exchange(PeerSlot::vacant(table));
    Ok(())
}

/// A slot with a neighbour that has these static routes.
pub fn placed(
    rt: &HostRuntime,
    settings: Settings,
    statics: &[StaticRoute],
) -> Result<PeerSlot, Fail> {
    if !are_routes(&settings, statics) {
        return Err("routes".into());
    }
    let table = Rib::new(rt.alloc(), settings.side(), RandomState::new(rt)?);
    Ok(PeerSlot::placed(table, settings, statics)?)
}
