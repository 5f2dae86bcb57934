//! Keys of routes.
ghost use Rattle.std.specs.Prelude.{◌≡◌};
ghost use Rattle.route_values.specs.Key.{family_of_key, same_key};
ghost use Rattle.route_values.specs.Order.{block_cmp, key_cmp};
ghost use Rattle.route_values.specs.Prefix.{Block};

use crate::addr::Family;
use crate::items::Items;
use crate::prefix::Prefix;

/// What names a route at a neighbour: a prefix with a path identifier (RFC 7911, section 3), which is 0 where none
/// was written. A key takes 24 bytes.
///
/// # Order
/// By prefix, then by identifier. [`keys_are_ordered`] says so.
#[derive(Clone, Copy, Debug, PartialEq, Eq, PartialOrd, Ord, Hash)]
pub struct Key {
    pub prefix: Prefix,
    pub id: u32,
}

/// A list of keys.
pub type Keys = Items<Key>;

impl Key {
    /// The family of the key's prefix.
    pub fn family(&self) -> Family
        ensures { result ≡ family_of_key self.now }
    {
        self.prefix.family()
    }

    /// Whether the other key is the same one.
    pub fn is_same(&self, other: &Key) -> bool
        ensures { result ≡ same_key self.now other.now }
    {
        *self == *other
    }
}

/// The law of the order of prefixes and keys: by family, IPv4 first, then by the address as a number, by the length,
/// and for keys by the identifier. It does nothing.
pub fn keys_are_ordered()
    ensures prefixes { (a : Block) (b : Block) → ⟦<Prefix as Ord>⟧.cmp a b ≡ block_cmp a b }
    ensures keys { (a : Key) (b : Key) → ⟦<Key as Ord>⟧.cmp a b ≡ key_cmp a b }
{}
