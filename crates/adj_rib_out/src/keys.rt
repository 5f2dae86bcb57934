//! Keys at places.

ghost use Rattle.std.specs.Prelude.{◌≡◌, ◌↔◌, ◌<◌, ◌≤◌, ◌==◌, ◌^◌, ◌++◌, ◌∷◌, ℕ, [], true, length};
ghost use Rattle.std.specs.Prelude.{option_copied, slice_get, IfOk, IsNone, IsSome, None, OnErr};
ghost use Rattle.linked_pending.specs.Listing.{has, without};
ghost use Rattle.value_pool.specs.Pool.{noted};
ghost use Rattle.adj_rib_out.specs.KeyPlaces.{AddsKey, TakesKeyOut};
ghost use Rattle.adj_rib_out.specs.Places.{key_at, place_of, StandOnce};

use answers::NoMemory;
use pooled_attrs::tests_decide;
use route_values::Key;
use std::alloc::Global;
use std::hash::RandomState;
use std::marker::Model;
use value_pool::Pool;

/// Keys, each once, at places that stay as long as the keys stand. There are so many places, with a key or vacant, and
/// a place of a key can be noted, to be looked at later.
///
/// # Order
///
/// The noted places stand in the order in which they were noted, each where it was noted last.
#[derive(Drop)]
pub struct Keys {
    pool: Pool<Key>,
    places: usize,
}

impl Model for Keys {
    ghost use Rattle.adj_rib_out.specs.KeyPlaces.{KeyPlaces, keys_in, padded};
    ghost use Rattle.std.specs.Prelude.{◌≤◌, length};

    ghost Value = { KeyPlaces };

    ghost view = { λ k. record {
      keys = padded (keys_in k.pool.items) k.places;
      idle = k.pool.idle;
      used = length k.pool.items;
    } };

    ghost invariant = { λ k. length k.pool.items ≤ k.places };
}

impl Keys {
    /// No places. It hashes by `hasher`, and takes its memory from `alloc`, in `add` alone.
    pub fn new(alloc: Global, hasher: RandomState) -> Self
        ensures { result ≡ record { keys = []; idle = []; used = 0 } }
    {
        Keys {
            pool: Pool::new(alloc, hasher),
            places: 0,
        }
    }

    /// How many places there are. Its clauses tell besides all that holds of each value of the type.
    pub fn len(&self) -> usize
        ensures len { result ≡ length self.now.keys }
        ensures once { StandOnce self.now.keys }
        ensures held { (place : ℕ) → has place self.now.idle ≡ true
            → IsSome (key_at self.now.keys place) }
        ensures used { self.now.used ≤ length self.now.keys }
    {
        tests_decide();
        self.pool.len();
        self.places
    }

    /// The place of a key, or None where it doesn't stand.
    pub fn place_of(&self, key: &Key) -> Option<usize>
        ensures { result ≡ place_of self.now.keys key.now }
    {
        // The test of keys tells them apart, and the count tells that none stands twice.
        tests_decide();
        self.pool.len();
        self.pool.find(key)
    }

    /// The key at a place, or None where none stands.
    pub fn at(&self, place: usize) -> Option<&Key>
        ensures { option_copied result ≡ key_at self.now.keys place }
    {
        self.pool.get(place)
    }

    /// The noted place that stands first, or None where none is noted.
    pub fn first_idle(&self) -> Option<usize>
        ensures first { result ≡ slice_get self.now.idle 0 }
        ensures none { IsNone result ↔ (self.now.idle ≡ []) }
    {
        self.pool.first_idle()
    }

    /// Whether each place was used: a key that is added then may find no place.
    pub fn is_full(&self) -> bool
        ensures full { result ≡ (self.now.used == length self.now.keys) }
        ensures used { self.now.used ≤ length self.now.keys }
    {
        self.pool.len() == self.places
    }

    /// Makes one more place, which is vacant. It takes no memory.
    pub fn widen(&mut self)
        requires { length self.old.keys < 2 ^ 63 }
        ensures { self.new ≡ record self.old { keys = self.old.keys ++ None ∷ [] } }
    {
        self.places += 1;
    }

    /// Puts a key that doesn't stand at a vacant place, and answers the place. Where memory is wanting nothing has
    /// changed.
    pub fn add(&mut self, key: Key) -> Result<usize, NoMemory>
        requires full { self.old.used < length self.old.keys }
        requires absent { place_of self.old.keys key ≡ None }
        ensures ok { IfOk result (λ place. AddsKey self.old self.new place key) }
        ensures err { OnErr result (self.new ≡ self.old) }
    {
        tests_decide();
        self.pool.len();
        self.pool.add(key, 0)
    }

    /// Notes the place of a key: it then stands last among those noted.
    pub fn note(&mut self, place: usize)
        requires { IsSome (key_at self.old.keys place) }
        ensures { self.new ≡ record self.old { idle = noted place self.old.idle } }
    {
        self.pool.note(place);
    }

    /// Takes a place off those noted. One that isn't noted changes nothing.
    pub fn forget(&mut self, place: usize)
        ensures { self.new ≡ record self.old { idle = without place self.old.idle } }
    {
        self.pool.forget(place);
    }

    /// Takes the key of a place out. The place is then vacant, and not noted.
    pub fn take_out(&mut self, place: usize)
        ensures { TakesKeyOut self.old self.new place }
    {
        self.pool.take_out(place);
    }
}
