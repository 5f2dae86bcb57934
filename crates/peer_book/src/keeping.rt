//! Changes the static routes of a table whose neighbour stays.
ghost use Rattle.std.specs.Prelude.{◌≡◌, ◌+◌, ◌&&◌, [], ◌∷◌, ◌++◌, not, List, IfOk, OnOk, is_some};
ghost use Rattle.adj_rib_out.specs.Calls.{ReadiesSome};
ghost use Rattle.adj_rib_out.specs.Nodes.{pair_at};
ghost use Rattle.adj_rib_out.specs.State.{State, route_at};
ghost use Rattle.peer_history.specs.Steps.{Static};
ghost use Rattle.peer_book.specs.Keeping.{gone_key, CanPut, Drops, DropsTo, KeepsStatics, PutsOver};
ghost use Rattle.peer_book.specs.Numbers.{keys_in, number_at, is_helpers, is_static, AreNumbered};
ghost use Rattle.peer_book.specs.Slot.{IsSound};
ghost use Rattle.peer_book.specs.Statics.{static_of, statics_of, AreRoutes};

use crate::numbers::Numbers;
use crate::table::set_each;
use adj_rib_out::{Owner, Rib};
use config_model::StaticRoute;
use route_values::{Key, NoMemory};
use std::alloc::Global;

/// Stands static routes ready in a table, and answers the numbers of their values. Of two with one key the first
/// counts. Where memory is wanting some of them stand ready.
pub fn number_statics(
    alloc: Global,
    table: &mut Rib,
    routes: &[StaticRoute],
) -> Result<Numbers, NoMemory>
    ensures ok { IfOk result (λ numbers. AreNumbered table.new (statics_of routes.now) numbers) }
    ensures some { ReadiesSome table.old table.new (keys_in routes.now) }
{
    let mut numbers = Numbers::new(alloc);
    'routes: for route in routes {
        number_static(table, route, &mut numbers)?;
    }
    Ok(numbers)
}

// Stands one static route ready, unless one with its key does.
fn number_static(
    table: &mut Rib,
    route: &StaticRoute,
    numbers: &mut Numbers,
) -> Result<(), NoMemory>
    ensures ok { OnOk result ((statics : List Static) → AreNumbered table.old statics numbers.old
        → AreNumbered table.new (statics ++ static_of route.now ∷ []) numbers.new) }
    ensures some { ReadiesSome table.old table.new (route.now.key ∷ []) }
{
    if numbers.get(&route.key).is_some() {
        return Ok(());
    }
    let keys = [route.key];
    let number = table.ready(&keys, &route.attrs)?;
    numbers.put(route.key, number)?;
    Ok(())
}

/// Takes out the static routes whose keys have no number, and gives these static routes, which stand ready, to their
/// keys, but for those at which a helper's route stands. It takes no memory.
pub fn keep_statics(table: &mut Rib, routes: &[StaticRoute], numbers: &Numbers)
    requires sound { IsSound table.old }
    requires routes { AreRoutes table.old.side routes.now }
    requires numbered { AreNumbered table.old (statics_of routes.now) numbers.now }
    ensures keeps { KeepsStatics table.old table.new (statics_of routes.now) }
    ensures sound { IsSound table.new }
{
    drop_gone(table, numbers);
    put_all(table, routes, numbers);
}

// Takes out the static routes whose keys have no number.
fn drop_gone(table: &mut Rib, numbers: &Numbers)
    ensures { Drops numbers.now table.old table.new }
{
    let count = table.places();
    'places: for place in 0..count {
        drop_at(table, numbers, place);
    }
}

// Takes out the route at a place where it is such a one.
fn drop_at(table: &mut Rib, numbers: &Numbers, place: usize)
    ensures { (start : State) → DropsTo numbers.now start table.old place
        → DropsTo numbers.now start table.new (place + 1) }
{
    // For the proof: each key has one place.
    let _places = table.places();
    let Some(key) = gone_at(table, numbers, place) else {
        return;
    };
    table.unset(&key);
}

// The key of the route at a place, where the route is such a one.
fn gone_at(table: &Rib, numbers: &Numbers, place: usize) -> Option<Key>
    ensures { result ≡ gone_key numbers.now (pair_at table.now place) }
{
    let Some((key, entry)) = table.at(place) else {
        return None;
    };
    if !is_gone(numbers, key, entry.owner) {
        return None;
    }
    Some(*key)
}

/// Whether a route of this owner goes where just those with numbers stay of the configuration's.
pub fn is_gone(numbers: &Numbers, key: &Key, owner: Owner) -> bool
    ensures { result ≡ (is_static owner && not (is_some (number_at numbers.now key.now))) }
{
    match owner {
        Owner::Static => numbers.get(key).is_none(),
        Owner::Helper => false,
    }
}

// Gives static routes to their keys, but for those at which a helper's route stands.
fn put_all(table: &mut Rib, routes: &[StaticRoute], numbers: &Numbers)
    requires sound { IsSound table.old }
    requires routes { AreRoutes table.old.side routes.now }
    requires numbered { AreNumbered table.old (statics_of routes.now) numbers.now }
    ensures puts { PutsOver (statics_of routes.now) numbers.now table.old table.new }
    ensures sound { IsSound table.new }
{
    'routes: for route in routes {
        put_over(table, route, numbers);
    }
}

// Gives one static route to its key, unless a helper's stands there.
fn put_over(table: &mut Rib, route: &StaticRoute, numbers: &Numbers)
    requires sound { IsSound table.old }
    requires can { CanPut table.old numbers.now route.now.key }
    ensures puts { PutsOver (static_of route.now ∷ []) numbers.now table.old table.new }
    ensures sound { IsSound table.new }
{
    if is_helpers(table, &route.key) {
        return;
    }
    let Some(number) = numbers.get(&route.key) else {
        unreachable!()
    };
    let keys = [route.key];
    set_each(table, &keys, number, Owner::Static);
}

// Whether a helper asked for the route of a key.
fn is_helpers(table: &Rib, key: &Key) -> bool
    ensures { result ≡ is_helpers (route_at table.now key.now) }
{
    match table.get(key) {
        Some(entry) => !is_static(entry.owner),
        None => false,
    }
}

// Whether this owner is the configuration.
fn is_static(owner: Owner) -> bool
    ensures { result ≡ is_static owner }
{
    matches!(owner, Owner::Static)
}
