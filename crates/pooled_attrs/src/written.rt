//! Written attributes as values of a pool.

ghost use Rattle.std.specs.Prelude.{◌≡◌, fold};
ghost use Rattle.std.specs.Cmp.{on_equiv, partial_equiv_from_equiv};
ghost use Rattle.pooled_attrs.specs.Same.{same_written, written_input};
ghost use Rattle.pooled_attrs.specs.SameLemmas.{written_equiv, written_alike};

use crate::feed::{feed_hop, feed_optional_path};
use crate::same::same_written;
use indexmap::Equivalent;
use route_values::Attrs;
use std::hash::{Hash, Hasher};

/// Attributes as a command writes them. `==` is true exactly where they are equal.
#[derive(Drop)]
pub struct Written {
    pub attrs: Attrs,
}

/// The same by reference, to look up a [`Written`] without a copy.
#[derive(Clone, Copy)]
pub struct WrittenRef<'a> {
    pub attrs: &'a Attrs,
}

impl PartialEq for Written {
    ghost eq = { λ a b. same_written a.attrs b.attrs };

    ghost laws = { partial_equiv_from_equiv (on_equiv (λ written. written.attrs) written_equiv) };

    fn eq(&self, other: &Written) -> bool {
        same_written(&self.attrs, &other.attrs)
    }
}

impl Eq for Written {
    ghost laws = { on_equiv (λ written. written.attrs) written_equiv };
}

impl Hash for Written {
    ghost hash_input = { λ written. written_input written.attrs };

    ghost respects_eq = { λ a b same. written_alike a.attrs b.attrs same };

    fn hash<H: Hasher>(&self, state: &mut H) {
        feed(&self.attrs, state);
    }
}

impl<'a> PartialEq for WrittenRef<'a> {
    ghost eq = { λ a b. same_written a.attrs.now b.attrs.now };

    ghost laws = { partial_equiv_from_equiv
        (on_equiv (λ written. written.attrs.now) written_equiv) };

    fn eq(&self, other: &WrittenRef<'a>) -> bool {
        same_written(self.attrs, other.attrs)
    }
}

impl<'a> Eq for WrittenRef<'a> {
    ghost laws = { on_equiv (λ written. written.attrs.now) written_equiv };
}

impl<'a> Hash for WrittenRef<'a> {
    ghost hash_input = { λ written. written_input written.attrs.now };

    ghost respects_eq = { λ a b same. written_alike a.attrs.now b.attrs.now same };

    fn hash<H: Hasher>(&self, state: &mut H) {
        feed(self.attrs, state);
    }
}

impl<'a> Equivalent<Written> for WrittenRef<'a> {
    ghost equivalent = { λ sought written. same_written sought.attrs.now written.attrs };

    ghost respects_hash = { λ sought written same.
        written_alike sought.attrs.now written.attrs same };

    ghost respects_eq = { λ sought a b same.
        written_equiv.congr sought.attrs.now a.attrs b.attrs same };

    fn equivalent(&self, written: &Written) -> bool {
        same_written(self.attrs, &written.attrs)
    }
}

// Feeds what spreads values: the other fields seldom differ alone.
fn feed<H: Hasher>(attrs: &Attrs, state: &mut H)
    ensures { state.new ≡ fold H.write state.old (written_input attrs.now) }
{
    feed_hop(attrs.hop, state);
    feed_optional_path(&attrs.path, state);
    attrs.med.hash(state);
    attrs.local_pref.hash(state);
    attrs.communities.as_slice().hash(state);
}
