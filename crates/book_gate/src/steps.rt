//! What each step on the gate's table tells.
ghost use Rattle.book_gate.specs.Steps.{taken, looked, counted, served, reviewed};
ghost use Rattle.book_gate.specs.Views.{parent_view, child_view, joined_view, taught_view};
ghost use Rattle.book_gate.specs.Views.{glimpse_view, spent_view};

use crate::held::Held;
use crate::view::View;
use atomic_table::{Join, Play, Split};
use std::marker::{Brand, PhantomData};

/// The entry that a step counts, which proofs alone see. A call at `Brand` picks it.
pub trait Said<E> {
    ghost use Rattle.std.specs.Prelude.{Option};

    ghost entry: { Option E };
}

impl<E> Said<E> for Brand {
    ghost use Rattle.std.specs.Prelude.{None};

    ghost entry = { None };
}

// Takes a ticket.
pub(crate) struct Take;

impl<S, A, E> Play<S, View<A, E>> for Take {
    ghost then = { taken };
}

// Looks whether the turn has come, and takes the state then.
pub(crate) struct Look<T> {
    held: PhantomData<T>,
}

impl<T: Held> Play<Option<T>, View<T::Start, T::Entry>> for Look<T> {
    ghost then = { looked T.stands };
}

// Counts an entry.
pub(crate) struct Count<T, W> {
    held: PhantomData<(T, W)>,
}

impl<T: Held, W: Said<T::Entry>> Play<Option<T>, View<T::Start, T::Entry>> for Count<T, W> {
    ghost then = { counted T.law W.entry };
}

// Gives the state back, and serves the next ticket.
pub(crate) struct Serve;

impl<S, A, E> Play<S, View<A, E>> for Serve {
    ghost then = { served };
}

// Asks what the rule says of a pass.
pub(crate) struct Review<T> {
    held: PhantomData<T>,
}

impl<T: Held> Play<Option<T>, View<T::Start, T::Entry>> for Review<T> {
    ghost then = { reviewed T.law };
}

// Splits a pass off a pass, and joins one into another.
pub(crate) struct Family;

impl<A, E> Split<View<A, E>> for Family {
    ghost left = { parent_view };

    ghost right = { child_view };
}

impl<A, E> Join<View<A, E>> for Family {
    ghost both = { joined_view };

    ghost spent = { spent_view };
}

// Makes a glimpse of a pass, and teaches a pass by one.
pub(crate) struct Lore;

impl<A, E> Split<View<A, E>> for Lore {
    ghost left = { λ view. view };

    ghost right = { λ view. glimpse_view view.seen };
}

impl<A, E> Join<View<A, E>> for Lore {
    ghost both = { taught_view };

    ghost spent = { spent_view };
}
