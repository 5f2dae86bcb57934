//! What the workers are made of.

use book_core::Book;
use book_gate::Pass;

/// The passes and the devices that are in no job, in the order of the slots. Its lists are emptied and filled again in
/// place, so that nothing is refused where they are given back.
#[derive(Drop)]
pub struct Stock<S, D, E> {
    pub passes: Vec<Pass<Book>>,
    pub helpers: Vec<S>,
    pub peers: Vec<D>,
    pub ears: Vec<E>,
}
