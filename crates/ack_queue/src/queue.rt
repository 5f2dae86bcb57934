//! The queue of replies.
ghost use Rattle.std.specs.Prelude.{◌≡◌, ◌<◌, ◌≤◌, ◌↔◌, [], ◌∷◌, ◌++◌, length, take, drop, IsTrue};
ghost use Rattle.std.specs.Prelude.{IfOk};
ghost use Rattle.std.specs.Bool.{OnTrue, OnFalse};

use crate::reply::Reply;
use answers::NoMemory;
use arrayvec::ArrayVec;
use circular_buffer::HeapCircularBuffer;
use std::alloc::Global;
use std::marker::Model;

/// How many replies wait at most.
pub const MAX_QUEUED: usize = 1_024;

/// How many replies are taken at once at most.
pub const MAX_TAKEN: usize = 64;

/// Replies that wait, at most 1,024. A contract sees them as a list. Only `new` takes memory.
///
/// # Order
/// They are taken in the order in which they were put.
#[derive(Drop)]
pub struct AckQueue {
    replies: HeapCircularBuffer<Reply>,
}

impl Model for AckQueue {
    ghost use Rattle.std.specs.Prelude.{◌≡◌, List};
    ghost use Rattle.ack_queue.specs.declared.reply.Reply.{Reply};

    ghost Value = { List Reply };

    ghost view = { λ queue. queue.replies.items };

    ghost invariant = { λ queue. queue.replies.capacity ≡ 1024 };
}

impl AckQueue {
    /// A queue without replies, with room for 1,024.
    pub fn new(alloc: Global) -> Result<AckQueue, NoMemory>
        ensures { IfOk result (λ queue. queue ≡ []) }
    {
        let replies = HeapCircularBuffer::with_capacity(alloc, MAX_QUEUED)?;
        Ok(AckQueue { replies })
    }

    /// How many replies wait.
    pub fn len(&self) -> usize
        ensures value { result ≡ length self.now }
        ensures small { length self.now ≤ 1024 }
    {
        self.replies.len()
    }

    /// Puts a reply behind the others, and answers true; or answers false where 1,024 wait, and changes nothing.
    pub fn put(&mut self, reply: Reply) -> bool
        ensures room { IsTrue result ↔ (length self.old < 1024) }
        ensures last { OnTrue result (self.new ≡ self.old ++ reply ∷ []) }
        ensures full { OnFalse result (self.new ≡ self.old) }
    {
        self.replies.try_push_back(reply).is_ok()
    }

    /// Takes the first 64 replies out, or all where fewer wait.
    pub fn take(&mut self) -> ArrayVec<Reply, MAX_TAKEN>
        ensures first { result.items ≡ take 64 self.old }
        ensures rest { self.new ≡ drop 64 self.old }
    {
        let mut front = [Reply::Done; MAX_TAKEN];
        let count = self.replies.read_into(&mut front);
        listed(&front[..count])
    }

    /// Takes all replies out.
    pub fn clear(&mut self)
        ensures { self.new ≡ [] }
    {
        self.replies.clear();
    }
}

// Replies that are taken at once.
fn listed(replies: &[Reply]) -> ArrayVec<Reply, MAX_TAKEN>
    requires { length replies.now ≤ 64 }
    ensures { result.items ≡ replies.now }
{
    let mut taken = ArrayVec::new();
    let _ = taken.try_extend_from_slice(replies);
    taken
}
