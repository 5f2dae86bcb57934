//! The book as the state behind a gate.

use crate::book::Book;
use book_gate::Held;
use config_model::Config;
use std::marker::Model;

/// An entry of the history: an event with its answer. None is ever made: contracts alone speak of entries.
#[derive(Drop)]
pub struct Entry(());

impl Model for Entry {
    ghost use Rattle.book_history.specs.Entries.{Entry};
    ghost use Rattle.book_history.specs.Entries.Entry.{Stopped};

    ghost Value = { Entry };

    ghost view = { λ entry. Stopped };
}

// The gate's lists have the oldest entry first, a history has the newest first.
impl Held for Book {
    ghost use Rattle.std.specs.Prelude.{reverse};
    ghost use Rattle.book_history.specs.Legal.{Allows};
    ghost use Rattle.book_core.specs.Stands.{Stands};

    type Start = Config;

    type Entry = Entry;

    ghost stands = { λ book start entries. Stands start (reverse entries) book };

    ghost law = { λ start entries entry. Allows start (reverse entries) entry };
}
