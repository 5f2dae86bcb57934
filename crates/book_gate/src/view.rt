//! What the gate's table knows of each pass and glimpse. No value of a view is made: they exist in proofs alone. Word 0
//! counts the tickets that were taken, word 1 the turns that were served, and word 2 the entries, each modulo 2^64. The
//! slot has the state.
use crate::held::Held;
use atomic_table::{Seat, Table, TableRule};
use std::alloc::Global;
use std::collections::LinkedList;
use std::marker::PhantomData;
use std::snapshot::Snapshot;

/// An entry of a history, under the name of the pass that made it.
pub struct Signed<E> {
    pub name: LinkedList<u64>,
    pub entry: E,
}

/// Entries that were seen, and names that have no more of them than these.
pub struct Part<E> {
    pub seen: LinkedList<Signed<E>>,
    pub names: LinkedList<LinkedList<u64>>,
}

/// The two sides of a join, or of a pass and the glimpse that it learned from.
pub struct Lesson<E> {
    pub own: Part<E>,
    pub other: Part<E>,
}

/// What a pass or a glimpse knows.
pub struct View<A, E> {
    /// What the state was opened with. A view that is no pass has none.
    pub start: Option<A>,
    pub name: LinkedList<u64>,
    pub seen: LinkedList<Signed<E>>,
    /// The ticket that is out with it, as it would be in a count without end.
    pub ticket: Option<u64>,
    /// Its turn has come.
    pub turn: bool,
    /// How many passes may still be split off it and those split off it.
    pub room: u64,
    /// How many passes were split off it.
    pub next: u64,
    /// The names that it, and the passes joined into it, gave out.
    pub split: LinkedList<LinkedList<u64>>,
    /// The names of the passes joined into it.
    pub joined: LinkedList<LinkedList<u64>>,
    /// The last join or glimpse, since when it has made no call.
    pub lesson: Option<Lesson<E>>,
}

/// The rule of a gate's table.
pub struct Turns<T> {
    held: PhantomData<T>,
}

impl<T: Held> TableRule<Option<T>, View<T::Start, T::Entry>, Snapshot<T::Start>> for Turns<T> {
    ghost use Rattle.book_gate.specs.Rule.{GateRule};
    ghost use Rattle.book_gate.specs.Views.{first_view};

    ghost holds = { λ key. GateRule T.stands T.law key.value };

    ghost first = { λ key. first_view key.value };
}

/// The table of a gate.
pub type Board<T> = Table<
    Option<T>,
    View<<T as Held>::Start, <T as Held>::Entry>,
    Snapshot<<T as Held>::Start>,
    Turns<T>,
    Global,
>;

/// A place at the table of a gate.
pub type Place<T> = Seat<Option<T>, View<<T as Held>::Start, <T as Held>::Entry>>;
