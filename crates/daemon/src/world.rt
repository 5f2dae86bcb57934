//! What a daemon has of the outside.

use book_core::Book;
use book_gate::Pass;
use outside::CrewPlan;
use script_play::Status;
use std::hash::RandomState;

/// The devices of a daemon, and what it knew when it last ended.
#[derive(Drop)]
pub struct World<'a, F, S, D, C, P, E> {
    pub files: F,
    /// One for each helper slot; at most 16.
    pub helpers: Vec<S>,
    /// One for each neighbour slot; at most 64.
    pub peers: Vec<D>,
    /// One for each neighbour slot.
    pub ears: Vec<E>,
    pub clock: C,
    pub pause: P,
    /// By which the engine's tables hash.
    pub hasher: RandomState,
    /// Which workers are refused a thread.
    pub crew: CrewPlan<'a>,
    /// The pass of the last run, joined with those of all its workers.
    pub last: Option<Pass<Book>>,
}

/// What a run leaves.
#[derive(Drop)]
pub struct Ran<'a, F, S, D, C, P, E> {
    pub status: Status,
    /// The same world, with each device in its place.
    pub world: World<'a, F, S, D, C, P, E>,
}
