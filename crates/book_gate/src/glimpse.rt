//! A glimpse: what a pass had seen, to be handed to another pass.
use crate::held::Held;
use crate::view::Place;
use std::marker::Model;

/// It makes no calls. Contracts see its gate, and the entries that were seen. It has no bytes.
#[derive(Drop)]
pub struct Glimpse<T: Held> {
    pub(crate) seat: Place<T>,
}

impl<T: Held> Model for Glimpse<T> {
    ghost use Rattle.book_gate.specs.Known.{Glimpsed, glimpsed, IsGlimpse};

    ghost Value = { Glimpsed T.Entry };

    ghost view = { λ glimpse. glimpsed glimpse.seat };

    ghost invariant = { λ glimpse. IsGlimpse glimpse.seat };
}
