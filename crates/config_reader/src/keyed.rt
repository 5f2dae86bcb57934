//! Static routes as they are read, and their keys.
ghost use Rattle.std.specs.Prelude.{◌≡◌, ◌++◌, [], ◌∷◌, IfOk};
ghost use Rattle.config_reader.specs.Statics.{stood};

use config_model::{StaticRoute, Statics};
use indexmap::IndexSet;
use route_values::{Key, NoMemory};
use std::alloc::Global;
use std::marker::Model;

/// A list of static routes whose keys are looked up without going through the list. Contracts see the list.
#[derive(Debug, Drop)]
pub struct KeyedStatics {
    routes: Statics,
    keys: IndexSet<Key>,
}

impl Model for KeyedStatics {
    ghost use Rattle.std.specs.Prelude.{List};
    ghost use Rattle.config_model.specs.declared.sections.StaticRoute.{StaticRoute as Route};
    ghost use Rattle.config_reader.specs.Keyed.{AreKeys};

    ghost Value = { List Route };

    ghost view = { λ list. list.routes };

    ghost invariant = { λ list. AreKeys list.keys.keys list.routes };
}

impl KeyedStatics {
    /// No route, which takes no memory.
    pub fn new(alloc: Global) -> KeyedStatics
        ensures { result ≡ [] }
    {
        KeyedStatics {
            routes: Statics::new(alloc),
            keys: IndexSet::new(alloc),
        }
    }

    /// The routes in order.
    pub fn as_slice(&self) -> &[StaticRoute]
        ensures { result.now ≡ self.now }
    {
        self.routes.as_slice()
    }

    /// The routes as a plain list.
    pub fn into_statics(self) -> Statics
        ensures { result ≡ self }
    {
        let KeyedStatics { routes, .. } = self;
        routes
    }

    /// Whether a route of this key is among them.
    pub fn stood(&self, key: &Key) -> bool
        ensures { result ≡ stood self.now key.now }
    {
        self.keys.contains(key)
    }

    /// The routes with one more at the end. Where memory is wanting all of them are dropped.
    pub fn with(self, route: StaticRoute) -> Result<KeyedStatics, NoMemory>
        ensures { IfOk result (λ with. with ≡ self ++ route ∷ []) }
    {
        let KeyedStatics { routes, keys } = self;
        let mut routes = routes;
        let mut keys = keys;
        keys.insert(route.key)?;
        routes.push(route)?;
        Ok(KeyedStatics { routes, keys })
    }
}
