//! A child's sink in memory that never fails.
ghost use Rattle.std.specs.Prelude.{◌≡◌, ◌<◌, length};
ghost use Rattle.std.specs.Option.{option_copied};
ghost use Rattle.outside.specs.Kept.{kept_bytes};

use crate::memory::kept::Kept;
use crate::sink::{Sink, Write};

/// Keeps what it takes, as far as its room reaches, and never fails.
///
/// A call that finds too little room takes its bytes all the same, and from then on the sink tells
/// nothing of what it took.
#[derive(Drop)]
pub struct KeptSink {
    kept: Kept,
    step: usize,
}

impl KeptSink {
    // Takes at most `step` bytes a call, and at least one, into this room.
    pub(crate) fn new(kept: Kept, step: usize) -> Self
        ensures { ⟦<Self as Sink>⟧.taken result ≡ kept_bytes kept }
    {
        KeptSink { kept, step }
    }

    /// The bytes taken so far, where there was room for all.
    pub fn bytes(&self) -> Option<&[u8]>
        ensures { option_copied result ≡ ⟦<Self as Sink>⟧.taken self.now }
    {
        self.kept.bytes()
    }
}

impl Sink for KeptSink {
    ghost taken = { λ s. kept_bytes s.kept };

    ghost faults = { λ _. 0 };

    fn write(&mut self, piece: &[u8]) -> Write {
        let count = piece.len().min(self.step.max(1));
        self.kept.keep(&piece[..count]);
        Write::Wrote(count)
    }
}
