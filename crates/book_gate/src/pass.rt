//! A pass: the leave to make calls, which knows a beginning of the history.
use crate::held::Held;
use crate::view::Place;
use std::marker::Model;

/// A thread makes calls with its own. Contracts see its gate, that gate's start, its name, the entries that it has
/// seen, the names that it gave out, the names of the passes that were joined into it, and its room: how many passes
/// may still come from it. It takes no memory but for that number.
#[derive(Drop)]
pub struct Pass<T: Held> {
    pub(crate) seat: Place<T>,
    // How many passes may still be split off it and those split off it.
    pub(crate) room: u64,
}

impl<T: Held> Model for Pass<T> {
    ghost use Rattle.book_gate.specs.Known.{Known, known, IsAtRest};

    ghost Value = { Known T.Start T.Entry };

    ghost view = { λ pass. known pass.seat };

    ghost invariant = { λ pass. IsAtRest pass.seat pass.room };
}
