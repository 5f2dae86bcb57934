//! Waiting for a time, or for another worker.

/// A worker of the daemon, by the number of its slot.
#[derive(Clone, Copy, Debug, PartialEq, Eq)]
pub enum Seat {
    /// Reads what a helper writes.
    Reader(usize),
    /// Writes a helper's replies.
    Replier(usize),
    /// Talks to a neighbour.
    Talker(usize),
    /// Reloads and stops.
    Keeper,
}

/// Where workers wait, each in a seat of its own, and ring for each other. It can be copied, and
/// each thread may have a copy.
///
/// Nothing is promised: a wait may be shorter or longer than it was asked for, and may end without
/// a ring. A real one keeps a ring until the seat's next wait, so that a worker that looks, and
/// then waits, misses no ring in between.
pub trait Pause: Copy + Send + Sync {
    /// The same pauses, from another seat.
    fn at(self, seat: Seat) -> Self;

    /// Waits for so many milliseconds, or until somebody rings at this seat.
    fn wait(self, ms: u64);

    /// Rests for so many milliseconds. No ring ends it, so that a worker which is to try again
    /// later isn't hurried by work that others have for it.
    fn rest(self, ms: u64);

    /// Ends the wait at this seat that is under way, or else the next.
    fn ring(self);

    /// Ends the wait or rest at this seat that is under way and each later one, and the waits of
    /// its devices.
    fn close(self);
}
