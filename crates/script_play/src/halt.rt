//! Why a command ends before its input does.
ghost use Rattle.std.specs.Prelude.{◌≡◌};
ghost use Rattle.script_play.specs.declared.halt.Halt.TheVariants as halt;
ghost use Rattle.script_play.specs.Writing.{status_of};

use crate::status::Status;
use answers::NoMemory;
use std::alloc::AllocError;
use thiserror::Error;

/// Why a command ended before the end of its input.
#[derive(Clone, Copy, Debug, PartialEq, Eq, Error)]
pub enum Halt {
    /// Memory ran out.
    #[error("no memory")]
    Memory,
    /// A read of the input failed. The source counted one fault.
    #[error("read fault")]
    Read,
    /// A write failed. The sink counted one fault.
    #[error("write fault")]
    Write,
    /// As many bytes as the limit were read, and the end wasn't met.
    #[error("input too long")]
    Long,
    /// The file of a new configuration wasn't read. The files counted one fault.
    #[error("configuration not read")]
    File,
    /// The line of this number is in no production.
    #[error("script refused")]
    Script(u64),
}

impl Halt {
    /// The status of a command that ended so.
    pub fn status(self) -> Status
        ensures { result ≡ status_of self }
    {
        match self {
            Halt::Memory => Status::NoMemory,
            Halt::Read => Status::ReadFault,
            Halt::Write => Status::WriteFault,
            Halt::Long => Status::InputLong,
            Halt::File => Status::ConfigRead,
            Halt::Script(line) => Status::ScriptRefused(line),
        }
    }
}

impl From<NoMemory> for Halt {
    ghost from_gives = { λ _ ends. ends ≡ halt.Memory };

    fn from(_: NoMemory) -> Halt {
        Halt::Memory
    }
}

impl From<AllocError> for Halt {
    ghost from_gives = { λ _ ends. ends ≡ halt.Memory };

    fn from(_: AllocError) -> Halt {
        Halt::Memory
    }
}
