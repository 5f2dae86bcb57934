//! A job in its place.

/// A job, and whether the crew refuses it.
#[derive(Drop)]
pub struct Place<W> {
    pub worker: W,
    pub refused: bool,
}
