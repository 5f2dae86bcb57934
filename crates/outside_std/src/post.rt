//! The bells of a helper's two workers, and which of its children are over.

use std::io;
use std::net::Net;
use std::sync::atomic::{AtomicU64, Ordering};
use wires::Bell;

/// What the workers of one helper slot share: a bell for its reader, one for its replier, and the
/// number of the last child that is over. Children are counted from 1.
#[derive(Debug, Drop)]
pub struct Post {
    reading: Bell,
    writing: Bell,
    started: AtomicU64,
    over: AtomicU64,
}

impl Post {
    /// Bells that nobody has rung, and no child.
    pub fn new(net: &impl Net) -> io::Result<Post> {
        Ok(Post {
            reading: Bell::new(net)?,
            writing: Bell::new(net)?,
            started: AtomicU64::new(0),
            over: AtomicU64::new(0),
        })
    }

    /// The bell at which the slot's reader waits.
    pub fn reading(&self) -> &Bell {
        &self.reading
    }

    /// The bell at which the slot's replier waits.
    pub fn writing(&self) -> &Bell {
        &self.writing
    }

    // A tie to the next child.
    pub(crate) fn next_child(&self) -> Tie<'_> {
        let started = self.started.fetch_add(1, Ordering::SeqCst);
        Tie {
            post: self,
            number: started.saturating_add(1),
        }
    }
}

// What ties a child's pipes and its leash to the slot's post.
#[derive(Clone, Copy, Debug)]
pub(crate) struct Tie<'a> {
    post: &'a Post,
    number: u64,
}

impl<'a> Tie<'a> {
    pub(crate) fn reading(self) -> &'a Bell {
        &self.post.reading
    }

    pub(crate) fn writing(self) -> &'a Bell {
        &self.post.writing
    }

    // Ends the waits at the pipes of this child, and of those before it.
    pub(crate) fn hang_up(self) {
        self.post.over.fetch_max(self.number, Ordering::SeqCst);
        self.post.reading.ring();
        self.post.writing.ring();
    }

    // Whether this child is over.
    pub(crate) fn is_over(self) -> bool {
        self.post.over.load(Ordering::SeqCst) >= self.number
    }
}
