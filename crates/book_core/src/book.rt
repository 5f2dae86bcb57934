//! The book.

use crate::peering::Peering;
use helper_book::Helper;
use std::alloc::Global;
use std::hash::RandomState;
use std::marker::Model;

/// The state of the whole daemon: its helper slots, its neighbour slots, whether it ends, and whether a reload is due.
///
/// Each call is one event of the daemon's history. A contract says of a call: where the book stood for a history of a
/// configuration, the answer is one that the history allows, and the book then stands for the history with that entry.
///
/// A book is a few words in size, as its slots lie in vectors.
#[derive(Drop)]
pub struct Book {
    pub(crate) alloc: Global,
    pub(crate) hasher: RandomState,
    pub(crate) helpers: Vec<Helper>,
    pub(crate) peers: Vec<Peering>,
    pub(crate) stopping: bool,
    pub(crate) reload_due: bool,
}

impl Model for Book {
    ghost use Rattle.book_core.specs.Seen.{Seen, IsWhole};

    ghost Value = { Seen };

    ghost use Rattle.book_core.specs.Seen.{fields};

    ghost view = { fields };

    ghost invariant = { λ book. IsWhole (fields book) };
}
