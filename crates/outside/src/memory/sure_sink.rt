//! A sink in memory that never fails.
ghost use Rattle.std.specs.Prelude.{◌≡◌, ◌<◌, ◌≤◌, ◌-◌, ◌^◌, min, if◌then◌else◌};
ghost use Rattle.std.specs.Prelude.{[], length, take, vec_len, vec_capacity, Some, None, IfOk};
ghost use Rattle.std.specs.Option.{option_copied};

use crate::sink::{Sink, Write};
use std::alloc::{AllocError, Global};

/// Keeps what it takes, as far as its room reaches, and never fails.
///
/// A call that finds too little room takes its bytes all the same, and from then on the sink tells
/// nothing of what it took.
#[derive(Drop)]
pub struct SureSink {
    bytes: Vec<u8>,
    room: usize,
    step: usize,
    lost: bool,
    ghost within: { vec_len bytes ≤ room },
    ghost roomy: { room ≤ vec_capacity bytes },
    ghost moving: { 0 < step },
}

impl SureSink {
    ghost use Rattle.outside.specs.Store.{room_of, step_of, Keeps};

    /// A sink with room for so many bytes, which takes the whole of each piece.
    pub fn new(alloc: Global, room: usize) -> Result<Self, AllocError>
        ensures taken { IfOk result (λ sink. ⟦<Self as Sink>⟧.taken sink ≡ Some []) }
        ensures room { IfOk result (λ sink. room_of sink ≡ room) }
        ensures step { IfOk result (λ sink. step_of sink ≡ 2 ^ 64 - 1) }
    {
        Self::in_steps(alloc, room, usize::MAX)
    }

    /// A sink with room for so many bytes, which takes at most `step` bytes a call.
    pub fn in_steps(alloc: Global, room: usize, step: usize) -> Result<Self, AllocError>
        requires { 0 < step }
        ensures taken { IfOk result (λ sink. ⟦<Self as Sink>⟧.taken sink ≡ Some []) }
        ensures room { IfOk result (λ sink. room_of sink ≡ room) }
        ensures step { IfOk result (λ sink. step_of sink ≡ step) }
    {
        Ok(SureSink {
            bytes: Vec::with_capacity(alloc, room)?,
            room,
            step,
            lost: false,
        })
    }

    /// The bytes taken so far, where there was room for all.
    pub fn bytes(&self) -> Option<&[u8]>
        ensures { option_copied result ≡ ⟦<Self as Sink>⟧.taken self.now }
    {
        if self.lost { None } else { Some(&self.bytes) }
    }

    // Keeps a part, or loses all where the room is too small.
    fn keep(&mut self, part: &[u8])
        ensures told { Keeps (room_of self.old) (⟦<Self as Sink>⟧.taken self.old)
            (⟦<Self as Sink>⟧.taken self.new) part.now }
        ensures room { room_of self.new ≡ room_of self.old }
        ensures step { step_of self.new ≡ step_of self.old }
    {
        if self.lost {
            return;
        }
        let fits = part.len() <= self.room - self.bytes.len();
        if !fits || self.bytes.extend_from_slice(part).is_err() {
            self.lost = true;
        }
    }
}

impl Sink for SureSink {
    ghost use Rattle.outside.specs.Calls.{Writes, WriteCounts};
    ghost use Rattle.outside.specs.Store.{room_of, step_of, Keeps};

    ghost taken = { λ s. if s.lost then None else Some s.bytes.items };

    ghost faults = { λ _. 0 };

    /// As `Sink::write`; it takes the whole piece, as far as the step reaches.
    fn write(&mut self, piece: &[u8]) -> Write
        requires { 0 < length piece.now }
        ensures bytes { Writes (⟦<Self as Sink>⟧.taken self.old)
            (⟦<Self as Sink>⟧.taken self.new) piece.now result }
        ensures cause { WriteCounts 0 0 result }
        ensures answer { result ≡ Write.Wrote (min (length piece.now) (step_of self.old)) }
        ensures told { Keeps (room_of self.old)
            (⟦<Self as Sink>⟧.taken self.old) (⟦<Self as Sink>⟧.taken self.new)
            (take (min (length piece.now) (step_of self.old)) piece.now) }
        ensures room { room_of self.new ≡ room_of self.old }
        ensures step { step_of self.new ≡ step_of self.old }
    {
        let count = piece.len().min(self.step);
        self.keep(&piece[..count]);
        Write::Wrote(count)
    }
}
