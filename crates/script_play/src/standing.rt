//! The keys that stand at a neighbour.
ghost use Rattle.std.specs.List.{IsDistinct};
ghost use Rattle.std.specs.Prelude.{◌≡◌, ◌++◌, true, false, List, [], OnOk, length, if◌then◌else◌};
ghost use Rattle.std.specs.Set.{is_member};
ghost use Rattle.route_values.specs.declared.key.Key.{Key as ValueOfKey};
ghost use Rattle.route_values.specs.Key.{same_key};
ghost use Rattle.update_grammar.specs.declared.effect.Effect.{Effect};
ghost use Rattle.update_grammar.specs.Update.{gone_all};
ghost use Rattle.update_codec.specs.Effects.{announced_effects};
ghost use Rattle.script_play.specs.Standing.{AreLeftAt};

use answers::NoMemory;
use indexmap::IndexSet;
use route_values::Key;
use std::alloc::Global;
use std::marker::Model;
use update_codec::Announced;

/// The keys of the routes that a neighbour has by the messages so far. Contracts see a list of keys.
///
/// # Order
/// None that says anything: a key that goes is replaced by the last one.
#[derive(Drop)]
pub struct Standing {
    keys: IndexSet<Key>,
}

impl Model for Standing {
    ghost use Rattle.std.specs.Prelude.{List};
    ghost use Rattle.route_values.specs.declared.key.Key.{Key as Named};

    ghost Value = { List Named };

    ghost view = { λ standing. standing.keys.keys };
}

impl Standing {
    /// No key, which takes no memory.
    pub fn new(alloc: Global) -> Standing
        ensures { result ≡ [] }
    {
        Standing {
            keys: IndexSet::new(alloc),
        }
    }

    /// How many keys stand. They differ.
    pub fn len(&self) -> usize
        ensures len { result ≡ length self.now }
        ensures apart { IsDistinct same_key self.now }
    {
        self.keys.len()
    }

    /// Keys that are withdrawn stand no longer.
    pub fn withdraw(&mut self, keys: &[Key])
        ensures { (before : List Effect) → AreLeftAt before self.old
            → AreLeftAt (before ++ gone_all keys.now) self.new }
    {
        'keys: for key in keys {
            self.take(key);
        }
    }

    /// Keys that are announced stand from now on.
    pub fn announce(&mut self, announced: &Announced) -> Result<(), NoMemory>
        ensures { OnOk result ((before : List Effect) → AreLeftAt before self.old
            → AreLeftAt (before ++ announced_effects announced.now) self.new) }
    {
        let keys = announced.keys.as_slice();
        'keys: for key in keys {
            self.put(*key)?;
        }
        Ok(())
    }

    // A key stands from now on.
    fn put(&mut self, key: Key) -> Result<(), NoMemory>
        ensures { OnOk result ((other : ValueOfKey) → is_member same_key self.new other
            ≡ (if same_key key other then true else is_member same_key self.old other)) }
    {
        self.keys.insert(key)?;
        Ok(())
    }

    // A key stands no longer.
    fn take(&mut self, key: &Key)
        ensures { (other : ValueOfKey) → is_member same_key self.new other
            ≡ (if same_key key.now other then false else is_member same_key self.old other) }
    {
        self.keys.swap_remove(key);
    }
}
