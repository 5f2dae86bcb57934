//! Under which numbers the values of static routes stand ready.
ghost use Rattle.std.specs.List.{IsDistinct};
ghost use Rattle.std.specs.Map.{keys_of};
ghost use Rattle.std.specs.Prelude.{◌≡◌, ◌<◌, ℕ, [], Some, OnOk, get_or, if◌then◌else◌, length};
ghost use Rattle.route_values.specs.declared.key.Key.{Key as ValueOfKey};
ghost use Rattle.route_values.specs.Key.{same_key};
ghost use Rattle.peer_book.specs.Numbers.{number_at};

use indexmap::IndexMap;
use route_values::{Key, NoMemory};
use std::alloc::Global;
use std::marker::Model;

/// The keys of static routes that stand ready in the table of a slot, each with the number of its value there.
/// Contracts see the pairs of a key and its number.
#[derive(Drop)]
pub struct Numbers {
    numbers: IndexMap<Key, usize>,
}

impl Model for Numbers {
    ghost use Rattle.std.specs.Prelude.{ℕ, List};
    ghost use Rattle.route_values.specs.declared.key.Key.{Key as Named};

    ghost Value = { List (Named × ℕ) };

    ghost view = { λ numbers. numbers.numbers.entries };
}

impl Numbers {
    // No key, which takes no memory.
    pub(crate) fn new(alloc: Global) -> Numbers
        ensures { result ≡ [] }
    {
        Numbers {
            numbers: IndexMap::new(alloc),
        }
    }

    // The number of a key, or None where it has none.
    pub(crate) fn get(&self, key: &Key) -> Option<usize>
        ensures { result ≡ number_at self.now key.now }
    {
        self.numbers.get(key).copied()
    }

    // Gives a key a number.
    pub(crate) fn put(&mut self, key: Key, number: usize) -> Result<(), NoMemory>
        ensures { OnOk result ((other : ValueOfKey) → number_at self.new other
            ≡ (if same_key key other then Some number else number_at self.old other)) }
    {
        self.numbers.insert(key, number)?;
        Ok(())
    }

    /// How many keys have numbers. They differ.
    pub fn len(&self) -> usize
        ensures len { result ≡ length self.now }
        ensures apart { IsDistinct same_key (keys_of self.now) }
    {
        self.numbers.len()
    }

    // The key at a place, which is below their number.
    pub(crate) fn key_at(&self, place: usize) -> &Key
        requires { place < length self.now }
        ensures { (other : ValueOfKey × ℕ) → result.now ≡ (get_or self.now place other).0 }
    {
        let Some((key, _)) = self.numbers.get_index(place) else {
            unreachable!()
        };
        key
    }
}
