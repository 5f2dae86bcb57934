//! A list of places in two tables of links. Place 0 is the list's own: it stands before the first and behind the last.

ghost use Rattle.std.specs.Prelude.{◌≡◌, ℕ, ◌<◌, ◌≤◌, ◌^◌, ◌∷◌, ◌⊎◌, [], false, true, IsOk, OnOk};
ghost use Rattle.std.specs.Prelude.{OnErr};
ghost use Rattle.std.specs.Prelude.{length, max, vec_capacity};
ghost use Rattle.linked_pending.specs.Listing.{AreApart, has, put_before, without};
ghost use Rattle.linked_pending.specs.Listing.{behind_or, before_from};
ghost use Rattle.linked_pending.specs.Links.{AreInverse, crossed, link};

use answers::NoMemory;
use std::alloc::Global;
use std::marker::Model;

// How many places there are at most: a link is a number of 32 bits.
const MOST: usize = 1 << 32;

/// A list of places, each at most once. A place that isn't in it is linked to itself in both tables.
#[derive(Drop)]
pub struct Chain {
    nexts: Vec<u32>,
    prevs: Vec<u32>,
    len: usize,
}

impl Model for Chain {
    ghost use Rattle.std.specs.Prelude.{◌≤◌, ◌^◌, length};
    ghost use Rattle.linked_pending.specs.Listing.{Listing};
    ghost use Rattle.linked_pending.specs.Links.{link, walk};
    ghost use Rattle.linked_pending.specs.Chain.{IsChain};

    ghost Value = { Listing };

    ghost view = { λ chain. record {
      room = length chain.nexts.items;
      items = walk chain.len (link chain.nexts.items) 0;
    } };

    ghost invariant = { λ chain. IsChain chain.nexts.items chain.prevs.items chain.len
        × (length chain.nexts.items ≤ 2 ^ 32) };
}

impl Chain {
    /// The empty list, without room for a place.
    pub fn new(alloc: Global) -> Self
        ensures { result ≡ record { room = 0; items = [] } }
    {
        Chain {
            nexts: Vec::new(alloc),
            prevs: Vec::new(alloc),
            len: 0,
        }
    }

    /// How many places there is room for, place 0 among them.
    pub fn room(&self) -> usize
        ensures room { result ≡ self.now.room }
        ensures within { (place : ℕ) → has place self.now.items ≡ true → place < self.now.room }
        ensures apart { AreApart (0 ∷ self.now.items) }
    {
        self.nexts.len()
    }

    /// Whether the place is in the list.
    pub fn contains(&self, place: usize) -> bool
        requires item { 0 < place }
        requires room { place < self.now.room }
        ensures { result ≡ has place self.now.items }
    {
        self.nexts[place] as usize != place
    }

    /// The place behind another, or the first, behind 0. Behind the last is 0.
    pub fn after(&self, place: usize) -> usize
        requires room { place < self.now.room }
        requires there { has place (0 ∷ self.now.items) ≡ true }
        ensures { result ≡ behind_or 0 place (0 ∷ self.now.items) }
    {
        self.nexts[place] as usize
    }

    /// The place before another. Before the first is 0.
    pub fn before(&self, place: usize) -> usize
        requires room { place < self.now.room }
        requires there { has place self.now.items ≡ true }
        ensures { result ≡ before_from 0 place self.now.items }
    {
        self.prevs[place] as usize
    }

    /// Makes room for the places below `room`, of which there are 2^32 at most.
    pub fn reserve(&mut self, room: usize) -> Result<(), NoMemory>
        ensures ok { OnOk result (self.new ≡ record self.old { room = max self.old.room room }) }
        ensures err { OnErr result (self.new ≡ self.old) }
        ensures enough { room ≤ self.old.room → IsOk result }
    {
        let len = self.nexts.len();
        if len < room {
            if room > MOST {
                return Err(NoMemory);
            }
            self.nexts.reserve(room - len)?;
            self.prevs.reserve(room - len)?;
            grow(&mut self.nexts, len, room);
            grow(&mut self.prevs, len, room);
        }
        Ok(())
    }

    /// Puts a place before another, or at the end, before 0.
    pub fn insert_before(&mut self, spot: usize, place: usize)
        requires spot { (spot ≡ 0) ⊎ (has spot self.old.items ≡ true) }
        requires item { 0 < place }
        requires room { place < self.old.room }
        requires absent { has place self.old.items ≡ false }
        ensures { self.new ≡ record self.old { items = put_before spot place self.old.items } }
    {
        let before = self.prevs[spot] as usize;
        cross(&mut self.nexts, &mut self.prevs, before, place);
        self.len += 1;
    }

    /// Takes the place out, where it is in the list.
    pub fn remove(&mut self, place: usize)
        requires item { 0 < place }
        requires room { place < self.old.room }
        ensures { self.new ≡ record self.old { items = without place self.old.items } }
    {
        if self.nexts[place] as usize == place {
            return;
        }
        let before = self.prevs[place] as usize;
        cross(&mut self.nexts, &mut self.prevs, before, place);
        self.len -= 1;
    }
}

/// Links each further place below `room` to itself, where there is space for them.
pub fn grow(links: &mut Vec<u32>, len: usize, room: usize)
    requires len { length links.old.items ≡ len }
    requires within { len ≤ room }
    requires fits { room ≤ 2 ^ 32 }
    requires space { room ≤ vec_capacity links.old }
    ensures room { length links.new.items ≡ room }
    ensures kept { (place : ℕ) → place < len
        → link links.new.items place ≡ link links.old.items place }
    ensures alone { (place : ℕ) → len ≤ place → place < room → link links.new.items place ≡ place }
{
    for place in len..room {
        links.push_reserved(place as u32);
    }
}

// Exchanges what stands behind two places, so that two rings of links become one, or one becomes two.
fn cross(nexts: &mut Vec<u32>, prevs: &mut Vec<u32>, place: usize, other: usize)
    requires links { AreInverse nexts.old.items prevs.old.items }
    requires place { place < length nexts.old.items }
    requires other { other < length nexts.old.items }
    requires fits { length nexts.old.items ≤ 2 ^ 32 }
    ensures links { AreInverse nexts.new.items prevs.new.items }
    ensures crossed { nexts.new.items ≡ crossed place other nexts.old.items }
{
    let (behind_place, behind_other) = (nexts[place], nexts[other]);
    nexts[place] = behind_other;
    nexts[other] = behind_place;
    prevs[behind_other as usize] = place as u32;
    prevs[behind_place as usize] = other as u32;
}
