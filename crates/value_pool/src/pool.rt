//! A pool of values.

ghost use Rattle.std.specs.Prelude.{◌≡◌, ◌↔◌, ℕ, ◌++◌, ◌∷◌, [], true, false, length, slice_get};
ghost use Rattle.std.specs.Prelude.{is_some, IsTrue};
ghost use Rattle.std.specs.Prelude.{◌≤◌, Some, IfOk, IfSome, IfNone, IsNone, OnOk, OnErr};
ghost use Rattle.std.specs.Prelude.{option_copied, vec_capacity};
ghost use Rattle.std.specs.Option.{option_map};
ghost use Rattle.linked_pending.specs.Listing.{without};
ghost use Rattle.value_pool.specs.Pool.{item_at, noted, passes, Adds, IsSound, TakesOut};
ghost use Rattle.value_pool.specs.Slots.{HasSpace};

use crate::slots::{Slot, Table, next_number, put_slot, slot_at, take_value};
use answers::NoMemory;
use indexmap::{Equivalent, IndexMap};
use linked_pending::Order;
use std::alloc::Global;
use std::hash::{Hash, RandomState};
use std::marker::Model;

/// Values, each once and each with a tag, under numbers that stay as long as the values stand. Contracts see the items
/// under their numbers, and the numbers that are noted. A tag is a number; what it means is the caller's.
///
/// # Order
///
/// The noted numbers stand in the order in which they were noted, each where it was noted last.
#[derive(Drop)]
pub struct Pool<T: Eq + Hash> {
    table: Table<T>,
    slots: Vec<Option<Slot>>,
    // The free numbers, the one that was freed last at the end.
    free: Vec<usize>,
    idle: Order,
}

impl<T: Eq + Hash> Model for Pool<T> {
    ghost use Rattle.value_pool.specs.Pool.{Pool as Seen, pool_code};

    ghost Value = { Seen T };

    ghost coded = { pool_code T.code };

    ghost use Rattle.value_pool.specs.Slots.{items_of, IsPool};
    ghost use Rattle.std.specs.Prelude.{vec_capacity};

    ghost view = { λ pool. record {
      items = items_of pool.table.entries pool.slots.items;
      idle = pool.idle.items;
    } };

    ghost invariant = { λ pool. IsPool pool.table.entries pool.slots.items pool.free.items
        (vec_capacity pool.free) pool.idle };
}

impl<T: Eq + Hash> Pool<T> {
    /// A pool without a value. It hashes by `hasher`, and takes its memory from `alloc`, in `add` alone.
    pub fn new(alloc: Global, hasher: RandomState) -> Self
        ensures { result ≡ record { items = []; idle = [] } }
    {
        Pool {
            table: IndexMap::with_hasher(alloc, hasher),
            slots: Vec::new(alloc),
            free: Vec::new(alloc),
            idle: Order::new(alloc),
        }
    }

    /// How many numbers there are, free ones among them. Its clauses tell besides all that holds of each pool.
    pub fn len(&self) -> usize
        ensures len { result ≡ length self.now.items }
        ensures sound { IsSound T.eq self.now }
    {
        // The table's count tells that no two keys are equal.
        let _count = self.table.len();
        self.slots.len()
    }

    /// The number of the value that `value` stands for, or None where none stands that it does.
    pub fn find<Q: Equivalent<T>>(&self, value: Q) -> Option<usize>
        ensures found { IfSome result (λ number.
            passes (Q.equivalent value) (item_at self.now.items number) ≡ true) }
        ensures none { IfNone result ((number : ℕ)
            → passes (Q.equivalent value) (item_at self.now.items number) ≡ false) }
        ensures only { (number : ℕ)
            → passes (Q.equivalent value) (item_at self.now.items number) ≡ true
            → result ≡ Some number }
    {
        // The count tells that no two keys are equal.
        let _count = self.table.len();
        self.table.get(value).copied()
    }

    /// The value under a number, or None where it is free or there is none such.
    pub fn get(&self, number: usize) -> Option<&T>
        ensures { option_copied result
            ≡ option_map (λ item. item.0) (item_at self.now.items number) }
    {
        let slot = slot_at(&self.slots, number)?;
        let (value, _) = self.table.get_index(slot.place)?;
        Some(value)
    }

    /// The tag of the value under a number, or None where the number is free or there is none such.
    pub fn tag(&self, number: usize) -> Option<usize>
        ensures { result ≡ option_map (λ item. item.1) (item_at self.now.items number) }
    {
        let slot = slot_at(&self.slots, number)?;
        Some(slot.tag)
    }

    /// The noted number that stands first, or None where none is noted.
    pub fn first_idle(&self) -> Option<usize>
        ensures first { result ≡ slice_get self.now.idle 0 }
        ensures none { IsNone result ↔ (self.now.idle ≡ []) }
    {
        self.idle.first()
    }

    /// Puts a value under a free number or the next new one, and answers the number. No equal value may stand. Where
    /// memory is wanting the pool is as before, and the value is dropped.
    pub fn add(&mut self, value: T, tag: usize) -> Result<usize, NoMemory>
    where
        T: Drop,
        requires absent { (number : ℕ)
            → passes (T.eq value) (item_at self.old.items number) ≡ false }
        ensures ok { IfOk result (λ number. Adds self.old self.new number (value, tag)) }
        ensures err { OnErr result (self.new ≡ self.old) }
    {
        let number = next_number(&self.slots, &self.free);
        let place = self.table.len();
        reserve(&mut self.slots, &mut self.free, &mut self.idle)?;
        self.table.insert(value, number)?;
        put_slot(&mut self.slots, &mut self.free, Slot { place, tag });
        Ok(number)
    }

    /// Notes a number that has a value, to be looked at later: it then stands last among those noted.
    pub fn note(&mut self, number: usize)
        requires { IsTrue (is_some (item_at self.old.items number)) }
        ensures { self.new ≡ record self.old { idle = noted number self.old.idle } }
    {
        self.idle.remove(number);
        self.idle.push(number);
    }

    /// Takes a number off those noted. One that isn't noted changes nothing.
    pub fn forget(&mut self, number: usize)
        ensures { self.new ≡ record self.old { idle = without number self.old.idle } }
    {
        self.idle.remove(number);
    }

    /// Takes the value of a number out, and answers it. The number is then free, and off those noted. Where it had no
    /// value nothing changes, and None is answered.
    pub fn take_out(&mut self, number: usize) -> Option<T>
        ensures value { result ≡ option_map (λ item. item.0) (item_at self.old.items number) }
        ensures left { TakesOut self.old self.new number }
    {
        let value = take_value(&mut self.table, &mut self.slots, number)?;
        self.free.push_reserved(number);
        self.idle.remove(number);
        Some(value)
    }
}

// Makes room for one more number where none is free: in the slots, among the free numbers and among those noted.
fn reserve(
    slots: &mut Vec<Option<Slot>>,
    free: &mut Vec<usize>,
    idle: &mut Order,
) -> Result<(), NoMemory>
    requires space { length slots.old.items ≤ vec_capacity free.old }
    ensures slots { slots.new.items ≡ slots.old.items }
    ensures free { free.new.items ≡ free.old.items }
    ensures idle { idle.new.items ≡ idle.old.items }
    ensures space { length slots.old.items ≤ vec_capacity free.new }
    ensures room { idle.old.room ≤ idle.new.room }
    ensures ok { OnOk result ((free.old.items ≡ []) → HasSpace (length slots.old.items)
        (vec_capacity slots.new) (vec_capacity free.new) idle.new.room) }
{
    if !free.is_empty() {
        return Ok(());
    }
    let room = slots.len() + 1;
    free.reserve(room)?;
    idle.reserve(room)?;
    slots.reserve(1)?;
    Ok(())
}
