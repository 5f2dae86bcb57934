//! Lists with room for so many items.
ghost use Rattle.std.specs.Prelude.{◌≡◌, [], Some, IfOk};
ghost use Rattle.std.specs.Option.{option_copied};
ghost use Rattle.outside.specs.Ended.{Gathers};

use std::alloc::{AllocError, Global};
use std::marker::Model;

/// A list, as far as its room reaches. Once an item found no room it tells nothing.
#[derive(Drop)]
pub struct Roll<T> {
    items: Vec<T>,
    room: usize,
    lost: bool,
}

impl<T> Model for Roll<T> {
    ghost use Rattle.std.specs.Prelude.{List, Some, None, if◌then◌else◌};
    ghost use Rattle.std.specs.Coded.{coded_list, coded_option};
    ghost use Rattle.std.specs.declared.option.Option.{Option};

    ghost Value = { Option (List T) };

    ghost coded = { coded_option (coded_list T.code) };

    ghost view = { λ roll. if roll.lost then None else Some roll.items.items };
}

impl<T: Drop> Roll<T> {
    /// An empty list with room for so many items.
    pub fn new(alloc: Global, room: usize) -> Result<Self, AllocError>
        ensures { IfOk result (λ roll. roll ≡ Some []) }
    {
        Ok(Roll {
            items: Vec::with_capacity(alloc, room)?,
            room,
            lost: false,
        })
    }

    /// An empty list without room.
    pub fn none(alloc: Global) -> Self
        ensures { result ≡ Some [] }
    {
        Roll {
            items: Vec::new(alloc),
            room: 0,
            lost: false,
        }
    }

    /// Adds an item, where there is room for it.
    pub fn add(&mut self, item: T)
        ensures { Gathers self.old self.new (Some item) }
    {
        if self.lost {
            return;
        }
        if self.items.len() >= self.room || self.items.push(item).is_err() {
            self.lost = true;
        }
    }

    /// The items go, and the room stays.
    pub fn clear(&mut self)
        ensures { self.new ≡ Some [] }
    {
        self.items.clear();
        self.lost = false;
    }

    /// The items, where there was room for all.
    pub fn items(&self) -> Option<&[T]>
        ensures { option_copied result ≡ self.now }
    {
        if self.lost { None } else { Some(&self.items) }
    }
}

// How many bytes there is room for in each text of a list.
const WORDS: usize = 1_024;

/// A list of texts of up to 1,024 bytes, as far as its room reaches. Once a text found no room it
/// tells nothing.
#[derive(Drop)]
pub struct Texts {
    items: Vec<Vec<u8>>,
    spare: Vec<Vec<u8>>,
    lost: bool,
}

impl Model for Texts {
    ghost use Rattle.std.specs.Prelude.{List, ℕ, map, Some, None, if◌then◌else◌};
    ghost use Rattle.std.specs.declared.option.Option.{Option};

    ghost Value = { Option (List (List ℕ)) };

    ghost view = { λ texts. if texts.lost then None
        else Some (map (λ text. text.items) texts.items.items) };
}

impl Texts {
    /// An empty list with room for so many texts.
    pub fn new(alloc: Global, room: usize) -> Result<Self, AllocError>
        ensures { IfOk result (λ texts. texts ≡ Some []) }
    {
        let mut spare = Vec::with_capacity(alloc, room)?;
        'texts: for _ in 0..room {
            spare.push(Vec::with_capacity(alloc, WORDS)?)?;
        }
        Ok(Texts {
            items: Vec::with_capacity(alloc, room)?,
            spare,
            lost: false,
        })
    }

    /// Adds a text, where there is room for it.
    #[tactic(auto, using(crate::proofs::RollLemmas::map_more))]
    pub fn add(&mut self, text: &[u8])
        ensures { Gathers self.old self.new (Some text.now) }
    {
        if self.lost {
            return;
        }
        let Some(mut copy) = self.spare.pop() else {
            self.lost = true;
            return;
        };
        copy.clear();
        if text.len() > WORDS || copy.extend_from_slice(text).is_err() {
            self.lost = true;
            return;
        }
        if self.items.push(copy).is_err() {
            self.lost = true;
        }
    }

    /// The texts, where there was room for all.
    pub fn items(&self) -> Option<&[Vec<u8>]> {
        if self.lost { None } else { Some(&self.items) }
    }
}
