//! The bells of all workers.

use crate::post::Post;
use outside::{Pause, Seat};
use std::alloc::Global;
use std::io;
use std::net::Net;
use wires::Bell;

/// A bell for each worker of the daemon.
#[derive(Debug, Drop)]
pub struct Board {
    helpers: Vec<Post>,
    peers: Vec<Bell>,
    keeper: Bell,
}

impl Board {
    /// Bells for so many helper slots and so many neighbour slots, which nobody has rung. Fails
    /// where memory or descriptors are wanting.
    pub fn new(alloc: Global, net: &impl Net, helpers: usize, peers: usize) -> io::Result<Board> {
        let mut board = Board {
            helpers: Vec::with_capacity(alloc, helpers)?,
            peers: Vec::with_capacity(alloc, peers)?,
            keeper: Bell::new(net)?,
        };
        for _ in 0..helpers {
            board.helpers.push(Post::new(net)?)?;
        }
        for _ in 0..peers {
            board.peers.push(Bell::new(net)?)?;
        }
        Ok(board)
    }

    /// What the workers of a helper slot share, where there is that slot.
    pub fn post(&self, slot: usize) -> Option<&Post> {
        self.helpers.get(slot)
    }

    /// The bell of a worker, where there is that worker.
    pub fn bell(&self, seat: Seat) -> Option<&Bell> {
        match seat {
            Seat::Reader(slot) => self.helpers.get(slot).map(|post| post.reading()),
            Seat::Replier(slot) => self.helpers.get(slot).map(|post| post.writing()),
            Seat::Talker(slot) => self.peers.get(slot),
            Seat::Keeper => Some(&self.keeper),
        }
    }
}

/// The pauses of a worker at its bell. A seat that the board doesn't have is rung in vain, and a
/// wait or rest there ends at once.
#[derive(Clone, Copy, Debug)]
pub struct BoardPause<'a> {
    board: &'a Board,
    seat: Seat,
}

impl<'a> BoardPause<'a> {
    /// The pauses of the worker in this seat.
    pub fn new(board: &'a Board, seat: Seat) -> Self {
        BoardPause { board, seat }
    }

    fn bell(self) -> Option<&'a Bell> {
        self.board.bell(self.seat)
    }
}

impl Pause for BoardPause<'_> {
    fn at(self, seat: Seat) -> Self {
        BoardPause {
            board: self.board,
            seat,
        }
    }

    fn wait(self, ms: u64) {
        if let Some(bell) = self.bell() {
            bell.wait(millis(ms));
        }
    }

    fn rest(self, ms: u64) {
        if let Some(bell) = self.bell() {
            bell.rest(millis(ms));
        }
    }

    fn ring(self) {
        if let Some(bell) = self.bell() {
            bell.ring();
        }
    }

    fn close(self) {
        if let Some(bell) = self.bell() {
            bell.close();
        }
    }
}

// The time as a bell takes it.
fn millis(ms: u64) -> u32 {
    u32::try_from(ms).unwrap_or(u32::MAX)
}
