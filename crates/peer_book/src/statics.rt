//! Puts static routes into a table.
ghost use Rattle.std.specs.Prelude.{◌≡◌, [], ◌∷◌, OnOk, OnErr};
ghost use Rattle.route_values.specs.Key.{family_of_key};
ghost use Rattle.route_values.specs.Sent.{sent};
ghost use Rattle.batch_cutter.specs.Heads.{IsRoute};
ghost use Rattle.peer_book.specs.Slot.{IsSound};
ghost use Rattle.peer_book.specs.Statics.{static_of, statics_of, AreRoutes, PutsStatics};

use crate::table::set_each;
use adj_rib_out::{Owner, Rib};
use config_model::StaticRoute;
use route_values::NoMemory;

/// Puts static routes into a table, each where its key has no route. Where memory is wanting some of them stand.
pub fn put_statics(table: &mut Rib, routes: &[StaticRoute]) -> Result<(), NoMemory>
    requires sound { IsSound table.old }
    requires routes { AreRoutes table.old.side routes.now }
    ensures puts { OnOk result (PutsStatics table.old table.new (statics_of routes.now)) }
    ensures sound { IsSound table.new }
{
    'routes: for route in routes {
        put_static(table, route)?;
    }
    Ok(())
}

// Puts one static route where its key has none.
fn put_static(table: &mut Rib, route: &StaticRoute) -> Result<(), NoMemory>
    requires sound { IsSound table.old }
    requires route { IsRoute (family_of_key route.now.key) (sent route.now.attrs table.old.side) }
    ensures puts { OnOk result (PutsStatics table.old table.new (static_of route.now ∷ [])) }
    ensures side { table.new.side ≡ table.old.side }
    ensures sound { IsSound table.new }
{
    let keys = [route.key];
    let number = table.ready(&keys, &route.attrs)?;
    if table.get(&route.key).is_none() {
        set_each(table, &keys, number, Owner::Static);
    }
    Ok(())
}
