//! Values as they are written, with their wire attributes.

ghost use Rattle.std.specs.Prelude.{◌≡◌, ◌≢◌, ◌<◌, ◌+◌, ◌==◌, ◌^◌, ℕ, length, option_copied};
ghost use Rattle.std.specs.Prelude.{if◌then◌else◌, nat_lt, slice_get, Some};
ghost use Rattle.std.specs.Prelude.{IfNone, IfOk, IfSome, IsNone, IsSome, MatchOption, OnErr};
ghost use Rattle.std.specs.Option.{option_map};
ghost use Rattle.linked_pending.specs.Links.{link};
ghost use Rattle.linked_pending.specs.Listing.{without};
ghost use Rattle.route_values.specs.Sent.{sent};
ghost use Rattle.route_values.specs.declared.attrs.Attrs.{Attrs as ValueOfAttrs};
ghost use Rattle.adj_rib_out.specs.Kept.{AreKept, written_under, wire_under, attrs_under, route_in};
ghost use Rattle.adj_rib_out.specs.Kept.{chosen_of, chosen_at};
ghost use Rattle.adj_rib_out.specs.Stock.{nothing, value_under, more, fewer, noted_last};
ghost use Rattle.adj_rib_out.specs.Stock.{AddsValue, AddsWireAtMost, AddsWritten, StandsWire};
ghost use Rattle.adj_rib_out.specs.Stock.{without_value, without_wire};
ghost use Rattle.adj_rib_out.specs.Told.{route_told};

use crate::chosen::Chosen;
use crate::counts::{count_at, count_down, count_up, widen};
use crate::entry::{Entry, Owner};
use pooled_attrs::{Wire, WireRef, Written, WrittenRef};
use route_values::{Attrs, NoMemory, Side, WireAttrs, wire};
use std::alloc::Global;
use std::hash::RandomState;
use std::marker::Model;
use value_pool::Pool;

/// Written values and wire attributes, each once and each under a number, and how often each is used. Written values
/// with the same wire attributes share their number.
///
/// A written value that no place was given is noted, and so are wire attributes whose last use went. What is noted may
/// be in use again.
///
/// # Order
///
/// The noted numbers of both stand in the order in which they were noted, each where it was noted last.
#[derive(Drop)]
pub struct Values {
    alloc: Global,
    side: Side,
    written: Pool<Written>,
    wires: Pool<Wire>,
    // How many places were given a written value, by its number.
    routes: Vec<usize>,
    // How many written values have wire attributes, and of how many slots they were sent, by their number.
    uses: Vec<usize>,
}

impl Model for Values {
    ghost use Rattle.adj_rib_out.specs.Stock.{Stock, IsStock, stock_of};

    ghost Value = { Stock };

    ghost view = { λ v. stock_of v.side v.written v.wires v.routes.items v.uses.items };

    ghost invariant = { λ v. IsStock
        (stock_of v.side v.written v.wires v.routes.items v.uses.items) };
}

impl Values {
    /// No values of a side. They hash by `hasher`, and take their memory from `alloc`, in `add` alone.
    pub fn new(alloc: Global, side: Side, hasher: RandomState) -> Self
        ensures { result ≡ nothing side }
    {
        Values {
            alloc,
            side,
            written: Pool::new(alloc, hasher),
            wires: Pool::new(alloc, hasher),
            routes: Vec::new(alloc),
            uses: Vec::new(alloc),
        }
    }

    /// The value under a number with its wire attributes, as a route of the owner.
    pub fn entry(&self, number: usize, owner: Owner) -> Option<Entry<'_>>
        ensures { option_map route_told result
            ≡ route_in self.now.seen (Some (chosen_of number owner)) }
    {
        let value = self.written.get(number)?;
        let wire = self.written.tag(number)?;
        let attrs = self.wires.get(wire)?;
        Some(Entry {
            written: &value.attrs,
            attrs: &attrs.attrs,
            owner,
        })
    }

    /// The route that was chosen at a place.
    pub fn at(&self, routes: &[Option<Chosen>], place: usize) -> Option<Entry<'_>>
        ensures { option_map route_told result
            ≡ route_in self.now.seen (chosen_at routes.now place) }
    {
        match routes.get(place) {
            Some(Some(chosen)) => self.entry(chosen.value, chosen.owner),
            _ => None,
        }
    }

    /// The number of the wire attributes of a value.
    pub fn wire_of(&self, number: usize) -> Option<usize>
        ensures wire { result ≡ option_map (λ value. value.1) (written_under self.now.seen number) }
        ensures within { IfSome result (λ wire. wire < length self.now.seen.wires) }
        ensures small { length self.now.seen.wires < 2 ^ 63 }
    {
        let _count = self.uses.len();
        self.written.tag(number)
    }

    /// The wire attributes under a number.
    pub fn wire(&self, number: usize) -> Option<&WireAttrs>
        ensures { option_copied result ≡ wire_under self.now.seen number }
    {
        let wire = self.wires.get(number)?;
        Some(&wire.attrs)
    }

    /// The wire attributes that the number of a slot stands for.
    pub fn attrs(&self, number: usize) -> Option<&WireAttrs>
        ensures { option_copied result ≡ attrs_under self.now.seen number }
    {
        if 1 < number {
            self.wire(number / 2 - 1)
        } else {
            None
        }
    }

    /// How many numbers wire attributes have. Its clauses tell besides all that holds of each.
    pub fn wires(&self) -> usize
        ensures wires { result ≡ length self.now.seen.wires }
        ensures kept { AreKept self.now.seen }
        ensures small { length self.now.seen.written < 2 ^ 63 }
    {
        let _count = self.routes.len();
        self.uses.len()
    }

    /// The number of a written value, or None where it doesn't stand. Nothing is copied.
    pub fn find(&self, written: &Attrs) -> Option<usize>
        ensures found { IfSome result (λ number.
            value_under self.now.seen number ≡ Some written.now) }
        ensures none { IfNone result ((number : ℕ)
            → value_under self.now.seen number ≢ Some written.now) }
    {
        self.written.find(WrittenRef { attrs: written })
    }

    /// Whether a place was given the value of a number.
    pub fn has_route(&self, value: usize) -> bool
        ensures { result ≡ nat_lt 0 (link self.now.routes value) }
    {
        0 < count_at(&self.routes, value)
    }

    /// Whether wire attributes are in use: a written value has them, or they were sent of a slot.
    pub fn has_use(&self, wire: usize) -> bool
        ensures { result ≡ nat_lt 0 (link self.now.uses wire) }
    {
        0 < count_at(&self.uses, wire)
    }

    /// The written value that is noted first, by its number, or None where none is noted: then places were given each.
    pub fn first_idle_value(&self) -> Option<usize>
        ensures first { result ≡ slice_get self.now.idle_values 0 }
        ensures stands { IfSome result (λ value. IsSome (written_under self.now.seen value)) }
        ensures none { IsNone result → (value : ℕ) → IsSome (written_under self.now.seen value)
            → 0 < link self.now.routes value }
    {
        let _count = self.written.len();
        self.written.first_idle()
    }

    /// The wire attributes that are noted first, by their number, or None where none are.
    pub fn first_idle_wire(&self) -> Option<usize>
        ensures first { result ≡ slice_get self.now.idle_wires 0 }
        ensures stands { IfSome result (λ wire. IsSome (wire_under self.now.seen wire)) }
    {
        let _count = self.wires.len();
        self.wires.first_idle()
    }

    /// Stands a written value that stands nowhere under a number, and answers it. Its wire attributes stand then too,
    /// and have one use more. No place was given the value, so it is noted. Where memory is wanting its wire attributes
    /// may stand alone.
    pub fn add(&mut self, written: &Attrs) -> Result<usize, NoMemory>
        requires absent { (number : ℕ) → value_under self.old.seen number ≢ Some written.now }
        requires room { (wire : ℕ) → link self.old.uses wire + 1 < 2 ^ 64 }
        ensures ok { IfOk result (λ number. AddsValue self.old self.new written.now number) }
        ensures err { OnErr result (AddsWireAtMost self.old self.new
            (sent written.now self.old.seen.side)) }
    {
        let wire = self.wire_for(written)?;
        self.add_with(written, wire)
    }

    // Stands the wire attributes of a written value under a number, or finds them. New ones are noted, since they have
    // no use yet.
    fn wire_for(&mut self, written: &Attrs) -> Result<usize, NoMemory>
        ensures ok { IfOk result (λ wire.
            StandsWire self.old self.new (sent written.now self.old.seen.side) wire) }
        ensures err { OnErr result (self.new ≡ self.old) }
    {
        let attrs = wire(self.alloc, written, &self.side)?;
        if let Some(number) = self.wires.find(WireRef { attrs: &attrs }) {
            return Ok(number);
        }
        self.uses.reserve(1)?;
        let number = self.wires.add(Wire { attrs }, 0)?;
        widen(&mut self.uses, number);
        self.wires.note(number);
        Ok(number)
    }

    // Stands a written value with wire attributes that stand.
    fn add_with(&mut self, written: &Attrs, wire: usize) -> Result<usize, NoMemory>
        requires absent { (number : ℕ) → value_under self.old.seen number ≢ Some written.now }
        requires stands { wire_under self.old.seen wire
            ≡ Some (sent written.now self.old.seen.side) }
        requires room { link self.old.uses wire + 1 < 2 ^ 64 }
        ensures ok { IfOk result (λ number.
            AddsWritten self.old self.new written.now wire number) }
        ensures err { OnErr result (self.new ≡ self.old) }
    {
        let attrs = written.copy(self.alloc)?;
        self.routes.reserve(1)?;
        let number = self.written.add(Written { attrs }, wire)?;
        widen(&mut self.routes, number);
        count_up(&mut self.uses, wire);
        self.written.note(number);
        self.wires.forget(wire);
        Ok(number)
    }

    /// One place more was given a value: it isn't noted then.
    pub fn hold(&mut self, value: usize)
        requires stands { IsSome (written_under self.old.seen value) }
        requires room { link self.old.routes value + 1 < 2 ^ 64 }
        ensures held { self.new ≡ record self.old {
          routes = more self.old.routes value;
          idle_values = without value self.old.idle_values;
        } }
        ensures counts { (v : ℕ) → link self.new.routes v
            ≡ link self.old.routes v + (if value == v then 1 else 0) }
    {
        count_up(&mut self.routes, value);
        self.written.forget(value);
    }

    /// One place fewer has a value. Where it was the last, the value is noted.
    pub fn release(&mut self, value: usize)
        requires stands { IsSome (written_under self.old.seen value) }
        requires counted { 0 < link self.old.routes value }
        ensures released { self.new ≡ record self.old {
          routes = fewer self.old.routes value;
          idle_values = noted_last self.old.routes value self.old.idle_values;
        } }
        ensures counts { (v : ℕ) → link self.new.routes v + (if value == v then 1 else 0)
            ≡ link self.old.routes v }
    {
        if count_down(&mut self.routes, value) {
            self.written.note(value);
        }
    }

    /// Wire attributes were sent of one slot more: they aren't noted then.
    pub fn hold_wire(&mut self, wire: usize)
        requires stands { IsSome (wire_under self.old.seen wire) }
        requires room { link self.old.uses wire + 1 < 2 ^ 64 }
        ensures held { self.new ≡ record self.old {
          uses = more self.old.uses wire;
          idle_wires = without wire self.old.idle_wires;
        } }
        ensures counts { (w : ℕ) → link self.new.uses w
            ≡ link self.old.uses w + (if wire == w then 1 else 0) }
    {
        count_up(&mut self.uses, wire);
        self.wires.forget(wire);
    }

    /// Wire attributes have one use fewer. Where it was the last they are noted.
    pub fn release_wire(&mut self, wire: usize)
        requires stands { IsSome (wire_under self.old.seen wire) }
        requires counted { 0 < link self.old.uses wire }
        ensures released { self.new ≡ record self.old {
          uses = fewer self.old.uses wire;
          idle_wires = noted_last self.old.uses wire self.old.idle_wires;
        } }
        ensures counts { (w : ℕ) → link self.new.uses w + (if wire == w then 1 else 0)
            ≡ link self.old.uses w }
    {
        if count_down(&mut self.uses, wire) {
            self.wires.note(wire);
        }
    }

    /// Takes out a written value that no place was given: its wire attributes have one use fewer. A number that has no
    /// value changes nothing.
    pub fn drop_value(&mut self, value: usize)
        requires counted { IfSome (written_under self.old.seen value) (λ held.
            0 < link self.old.uses held.1) }
        ensures dropped { MatchOption (written_under self.old.seen value) (self.new ≡ self.old)
            (λ held. self.new ≡ without_value self.old value held) }
        ensures counts { IfSome (written_under self.old.seen value) (λ held. (w : ℕ)
            → link self.new.uses w + (if held.1 == w then 1 else 0) ≡ link self.old.uses w) }
    {
        let Some(wire) = self.written.tag(value) else {
            return;
        };
        self.written.take_out(value);
        self.release_wire(wire);
    }

    /// Takes out wire attributes that no written value has.
    pub fn drop_wire(&mut self, wire: usize)
        requires unused { (number : ℕ) (written : ValueOfAttrs)
            → written_under self.old.seen number ≢ Some (written, wire) }
        ensures { self.new ≡ without_wire self.old wire }
    {
        self.wires.take_out(wire);
    }

    /// Takes a written value that places were given off those noted.
    pub fn forget_value(&mut self, value: usize)
        requires { 0 < link self.old.routes value }
        ensures { self.new ≡ record self.old {
          idle_values = without value self.old.idle_values;
        } }
    {
        self.written.forget(value);
    }

    /// Takes wire attributes off those noted.
    pub fn forget_wire(&mut self, wire: usize)
        ensures { self.new ≡ record self.old {
          idle_wires = without wire self.old.idle_wires;
        } }
    {
        self.wires.forget(wire);
    }
}
