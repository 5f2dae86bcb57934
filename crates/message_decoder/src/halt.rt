//! Why decoding ends before its input does.
ghost use Rattle.std.specs.Prelude.{◌≡◌};
ghost use Rattle.message_decoder.specs.declared.halt.Halt.TheVariants as halt;

use route_values::NoMemory;
use std::alloc::AllocError;
use thiserror::Error;

/// Why decoding ended before the end of its input.
#[derive(Clone, Copy, Debug, PartialEq, Eq, Error)]
pub enum Halt {
    /// Memory ran out.
    #[error("no memory")]
    Memory,
    /// A read failed. The source counted one fault.
    #[error("read fault")]
    Read,
    /// A write failed. The sink counted one fault.
    #[error("write fault")]
    Write,
    /// As many bytes as the limit were read, and the end wasn't met.
    #[error("input too long")]
    Long,
}

impl From<NoMemory> for Halt {
    ghost from_gives = { λ _ ends. ends ≡ halt.Memory };

    fn from(_: NoMemory) -> Halt {
        Halt::Memory
    }
}

impl From<AllocError> for Halt {
    ghost from_gives = { λ _ ends. ends ≡ halt.Memory };

    fn from(_: AllocError) -> Halt {
        Halt::Memory
    }
}
