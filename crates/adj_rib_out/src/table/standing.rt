//! How keys and values come to stand ready in the table, and how they go.

ghost use Rattle.std.specs.Prelude.{◌≡◌, ◌∷◌, [], IfOk, OnErr, OnOk};
ghost use Rattle.adj_rib_out.specs.Calls.{Readies, ReadiesSome};
ghost use Rattle.adj_rib_out.specs.Nodes.{nodes};
ghost use Rattle.adj_rib_out.specs.Readying.{ReadiesKeys, ReadiesSomeKeys};
ghost use Rattle.adj_rib_out.specs.Trimmed.{TrimsValues};
ghost use Rattle.adj_rib_out.specs.Trimming.{TrimsKeys};

use crate::ready_key::put_key;
use crate::ready_value::{ready_value, room_beyond};
use crate::table::Table;
use crate::trim_keys::trim_keys;
use crate::trim_values::{trim_values, trim_wires};
use route_values::{Attrs, Key, NoMemory};

impl Table {
    // Stands keys ready, one after another.
    pub(super) fn ready_keys(&mut self, keys: &[Key]) -> Result<(), NoMemory>
        ensures ok { OnOk result (ReadiesKeys self.old self.new keys.now) }
        ensures err { OnErr result (ReadiesSomeKeys self.old self.new keys.now) }
    {
        'keys: for key in keys {
            self.ready_key(key)?;
        }
        Ok(())
    }

    // Stands a key ready, at a vacant place where it doesn't stand yet.
    pub(super) fn ready_key(&mut self, key: &Key) -> Result<(), NoMemory>
        ensures ok { OnOk result (ReadiesKeys self.old self.new (key.now ∷ [])) }
        ensures err { OnErr result (ReadiesSomeKeys self.old self.new (key.now ∷ [])) }
    {
        if self.keys.place_of(key).is_some() {
            return Ok(());
        }
        let room = room_beyond(self.values.wires())?;
        self.slots.reserve(room)?;
        put_key(&mut self.keys, &mut self.routes, &mut self.slots, *key)
    }

    // Stands a value ready, and answers its number.
    pub(super) fn ready_value(&mut self, written: &Attrs) -> Result<usize, NoMemory>
        ensures ok { IfOk result (λ number. Readies self.old self.new [] written.now number) }
        ensures err { OnErr result (ReadiesSome self.old self.new []) }
        ensures nodes { nodes self.new ≡ nodes self.old }
    {
        // The lengths tell that no count overflows.
        let _places = self.routes.len();
        let _wires = self.values.wires();
        ready_value(&mut self.values, &mut self.slots, written)
    }

    // Takes out the keys that stand ready and that nothing needs.
    pub(super) fn trim_keys(&mut self)
        ensures { TrimsKeys self.old self.new }
    {
        self.keys.len();
        trim_keys(&mut self.keys, &self.routes, &self.slots);
    }

    // Takes out the values that no route has, and, where no key is left of a batch, wire attributes that aren't in use.
    pub(super) fn trim_values(&mut self)
        ensures trims { TrimsValues self.old self.new }
        ensures nodes { nodes self.new ≡ nodes self.old }
    {
        trim_values(&mut self.values);
        if self.slots.front().is_some() {
            return;
        }
        trim_wires(&mut self.values);
    }
}
