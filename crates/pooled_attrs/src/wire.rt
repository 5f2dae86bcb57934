//! Attributes on the wire as values of a pool.

ghost use Rattle.std.specs.Prelude.{◌≡◌, fold};
ghost use Rattle.std.specs.Cmp.{on_equiv, partial_equiv_from_equiv};
ghost use Rattle.pooled_attrs.specs.Same.{same_wire, wire_input};
ghost use Rattle.pooled_attrs.specs.SameLemmas.{wire_equiv, wire_alike};

use crate::feed::feed_path;
use crate::same::same_wire;
use indexmap::Equivalent;
use route_values::WireAttrs;
use std::hash::{Hash, Hasher};

/// Attributes as they are sent. `==` is true exactly where they are equal.
#[derive(Drop)]
pub struct Wire {
    pub attrs: WireAttrs,
}

/// The same by reference, to look up a [`Wire`] without a copy.
#[derive(Clone, Copy)]
pub struct WireRef<'a> {
    pub attrs: &'a WireAttrs,
}

impl PartialEq for Wire {
    ghost eq = { λ a b. same_wire a.attrs b.attrs };

    ghost laws = { partial_equiv_from_equiv (on_equiv (λ wire. wire.attrs) wire_equiv) };

    fn eq(&self, other: &Wire) -> bool {
        same_wire(&self.attrs, &other.attrs)
    }
}

impl Eq for Wire {
    ghost laws = { on_equiv (λ wire. wire.attrs) wire_equiv };
}

impl Hash for Wire {
    ghost hash_input = { λ wire. wire_input wire.attrs };

    ghost respects_eq = { λ a b same. wire_alike a.attrs b.attrs same };

    fn hash<H: Hasher>(&self, state: &mut H) {
        feed(&self.attrs, state);
    }
}

impl<'a> PartialEq for WireRef<'a> {
    ghost eq = { λ a b. same_wire a.attrs.now b.attrs.now };

    ghost laws = { partial_equiv_from_equiv (on_equiv (λ wire. wire.attrs.now) wire_equiv) };

    fn eq(&self, other: &WireRef<'a>) -> bool {
        same_wire(self.attrs, other.attrs)
    }
}

impl<'a> Eq for WireRef<'a> {
    ghost laws = { on_equiv (λ wire. wire.attrs.now) wire_equiv };
}

impl<'a> Hash for WireRef<'a> {
    ghost hash_input = { λ wire. wire_input wire.attrs.now };

    ghost respects_eq = { λ a b same. wire_alike a.attrs.now b.attrs.now same };

    fn hash<H: Hasher>(&self, state: &mut H) {
        feed(self.attrs, state);
    }
}

impl<'a> Equivalent<Wire> for WireRef<'a> {
    ghost equivalent = { λ sought wire. same_wire sought.attrs.now wire.attrs };

    ghost respects_hash = { λ sought wire same. wire_alike sought.attrs.now wire.attrs same };

    ghost respects_eq = { λ sought a b same.
        wire_equiv.congr sought.attrs.now a.attrs b.attrs same };

    fn equivalent(&self, wire: &Wire) -> bool {
        same_wire(self.attrs, &wire.attrs)
    }
}

// Feeds what spreads values: the other fields seldom differ alone.
fn feed<H: Hasher>(attrs: &WireAttrs, state: &mut H)
    ensures { state.new ≡ fold H.write state.old (wire_input attrs.now) }
{
    attrs.hop.hash(state);
    feed_path(&attrs.path, state);
    attrs.med.hash(state);
    attrs.local_pref.hash(state);
    attrs.communities.as_slice().hash(state);
}
