//! A batch that is a plain list.
ghost use Rattle.std.specs.Prelude.{◌≡◌, ◌≤◌, [], true};
ghost use Rattle.batch_cutter.specs.Filling.{CanFill};
ghost use Rattle.batch_cutter.specs.Plain.{items_left, IsListed, AreIpv4};

use crate::{Batch, Due};
use route_values::{Family, Key, WireAttrs};
use std::marker::Model;

/// Announcements of keys of IPv4 with one value, and then the marker.
#[derive(Drop)]
pub struct Plain<'a> {
    attrs: &'a WireAttrs,
    keys: &'a [Key],
    marked: bool,
}

impl<'a> Model for Plain<'a> {
    ghost use Rattle.batch_cutter.specs.Plain.{Listed, IsListed};

    ghost Value = { Listed };

    ghost view = { λ p. record { attrs = p.attrs.now; keys = p.keys.now; marked = p.marked } };

    ghost invariant = { λ p. IsListed p.attrs.now p.keys.now };
}

impl<'a> Plain<'a> {
    /// A batch of these keys, which are of IPv4, with a value that may be announced.
    pub fn new(attrs: &'a WireAttrs, keys: &'a [Key]) -> Self
        requires { IsListed attrs.now keys.now }
        ensures { result ≡ record { attrs = attrs.now; keys = keys.now; marked = true } }
    {
        Plain {
            attrs,
            keys,
            marked: true,
        }
    }

    /// How many keys are left.
    pub fn len(&self) -> usize
        ensures { CanFill (items_left self.now) }
    {
        self.keys.len()
    }
}

impl Batch for Plain<'_> {
    ghost left = { λ plain. items_left plain };

    ghost passes = { λ old item new. new.attrs ≡ old.attrs };

    fn due(&self) -> Due<'_> {
        match self.keys.first() {
            Some(key) => Due::Here(0, key, self.attrs),
            None => {
                if self.marked {
                    Due::End(Family::Ipv4)
                } else {
                    Due::Empty
                }
            }
        }
    }

    fn sent(&mut self) {
        match self.keys.split_first() {
            Some((_, keys)) => self.keys = keys,
            None => self.marked = false,
        }
    }
}
