//! The routes of one slot that are to be shown.
ghost use Rattle.std.specs.Prelude.{◌≡◌, ◌++◌, List, length, IfOk, OnOk};
ghost use Rattle.std.specs.Option.{option_to_list};
ghost use Rattle.route_values.specs.Sent.{hop_sent};
ghost use Rattle.route_values.specs.Settings.{side_of};
ghost use Rattle.adj_rib_out.specs.Nodes.{pair_at};
ghost use Rattle.adj_rib_out.specs.Told.{route_told};
ghost use Rattle.peer_book.specs.Stands.{asked, Stands};
ghost use Rattle.peer_history.specs.Steps.{Step};
ghost use Rattle.book_history.specs.Shows.{shown_as};
ghost use Rattle.book_core.specs.Showing.{is_fixed, key_shown, keys_shown};
ghost use Rattle.book_core.specs.Showing.{shown_each, shown_if, shown_one};

use super::within::is_within;
use ack_queue::Shown;
use adj_rib_out::{Entry, Owner};
use peer_book::PeerSlot;
use route_values::{Addr, Hop, Key, NoMemory, Prefix, Settings};
use std::alloc::Global;

/// How many routes of a slot are to be shown, which is chosen or isn't.
pub fn count_at(slot: &PeerSlot, so: bool, within: &Option<Prefix>) -> usize
    ensures { (steps : List Step) → Stands steps slot.now
        → result ≡ length (shown_if so within.now steps) }
{
    if !so {
        return 0;
    }
    match slot.settings() {
        Some(_) => count_keys(slot, within),
        None => 0,
    }
}

// How many keys of a slot's routes are to be shown.
fn count_keys(slot: &PeerSlot, within: &Option<Prefix>) -> usize
    ensures { (steps : List Step) → Stands steps slot.now
        → result ≡ length (keys_shown within.now steps) }
{
    let places = slot.places();
    let mut count = 0;
    'places: for place in 0..places {
        if key_at(slot, place, within).is_some() {
            count += 1;
        }
    }
    count
}

// The key of the route at a place, if one stands there and is to be shown.
fn key_at(slot: &PeerSlot, place: usize, within: &Option<Prefix>) -> Option<Key>
    ensures { result ≡ key_shown within.now (pair_at slot.now.table place) }
{
    let Some((key, _)) = slot.at(place) else {
        return None;
    };
    if is_within(within, key) {
        return Some(*key);
    }
    None
}

/// Puts the routes of a slot that are to be shown behind others, where it is chosen.
pub fn list_at(
    alloc: Global,
    slot: &PeerSlot,
    so: bool,
    within: &Option<Prefix>,
    routes: &mut Vec<Shown>,
) -> Result<(), NoMemory>
    ensures { OnOk result ((steps : List Step) → Stands steps slot.now
        → routes.new.items ≡ routes.old.items ++ shown_if so within.now steps) }
{
    if !so {
        return Ok(());
    }
    let Some(settings) = slot.settings() else {
        return Ok(());
    };
    let keys = keys_of(alloc, slot, within)?;
    list_keys(slot, &settings, &keys, routes)
}

// The keys of a slot's routes that are to be shown, in their order.
fn keys_of(alloc: Global, slot: &PeerSlot, within: &Option<Prefix>) -> Result<Vec<Key>, NoMemory>
    ensures { IfOk result (λ keys. (steps : List Step) → Stands steps slot.now
        → keys.items ≡ keys_shown within.now steps) }
{
    let places = slot.places();
    let mut keys = Vec::new(alloc);
    'places: for place in 0..places {
        put_key(&mut keys, key_at(slot, place, within))?;
    }
    keys.sort_unstable();
    Ok(keys)
}

// Puts a key behind others, if there is one.
fn put_key(keys: &mut Vec<Key>, key: Option<Key>) -> Result<(), NoMemory>
    ensures { OnOk result (keys.new.items ≡ keys.old.items ++ option_to_list key) }
{
    let Some(key) = key else {
        return Ok(());
    };
    keys.push(key)?;
    Ok(())
}

// Puts the routes of these keys behind others.
fn list_keys(
    slot: &PeerSlot,
    settings: &Settings,
    keys: &[Key],
    routes: &mut Vec<Shown>,
) -> Result<(), NoMemory>
    ensures { OnOk result ((steps : List Step) → Stands steps slot.now
        → routes.new.items ≡ routes.old.items ++ shown_each settings.now steps keys.now) }
{
    'keys: for key in keys {
        list_key(slot, settings, key, routes)?;
    }
    Ok(())
}

// Puts the route of a key behind others, if there is one.
fn list_key(
    slot: &PeerSlot,
    settings: &Settings,
    key: &Key,
    routes: &mut Vec<Shown>,
) -> Result<(), NoMemory>
    ensures { OnOk result ((steps : List Step) → Stands steps slot.now
        → routes.new.items ≡ routes.old.items ++ shown_one settings.now steps key.now) }
{
    let Some(entry) = slot.route(key) else {
        return Ok(());
    };
    routes.push(shown_as(settings, key, entry))?;
    Ok(())
}

// A route of a neighbour with these settings, as a helper sees it.
fn shown_as(settings: &Settings, key: &Key, entry: Entry<'_>) -> Shown
    ensures { result ≡ shown_as settings.now key.now (asked (route_told entry.entry)) }
{
    Shown {
        peer: settings.peer,
        key: *key,
        hop: hop_of(entry.written.hop, settings),
        fixed: is_fixed(entry.owner),
    }
}

// The next hop that is sent: `self` is the own address.
fn hop_of(hop: Hop, settings: &Settings) -> Addr
    ensures { result ≡ hop_sent hop (side_of settings.now) }
{
    match hop {
        Hop::Own => settings.local,
        Hop::Is(addr) => addr,
    }
}

// Whether a route is the configuration's.
fn is_fixed(owner: Owner) -> bool
    ensures { result ≡ is_fixed owner }
{
    match owner {
        Owner::Static => true,
        Owner::Helper => false,
    }
}
