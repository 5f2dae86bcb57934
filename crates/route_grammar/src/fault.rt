//! Why tokens aren't read.
use answers::NoMemory;
use thiserror::Error;

/// What is wrong with a line, or with items within a file.
#[derive(Clone, Copy, Debug, PartialEq, Eq, Drop, Error)]
pub enum LineFault {
    /// No reading goes on with this token, or the line ends before its reading does.
    #[error("error token {place}")]
    BadToken {
        /// The column of the token, or of the end.
        place: u32,
    },
    /// The token would be one element more than a list may have.
    #[error("error many {place} {limit}")]
    TooMany {
        /// The column of the token.
        place: u32,
        /// How many elements the list may have.
        limit: u32,
    },
    /// The line has over 65,535 bytes.
    #[error("error long")]
    TooLong,
}

/// Why a reader of a grammar gives no value.
#[derive(Clone, Copy, Debug, PartialEq, Eq, Drop, Error)]
pub enum ReadFault {
    /// The text has no reading, and this is its first fault.
    #[error("{0}")]
    Line(LineFault),
    /// Memory ran out.
    #[error("no memory")]
    NoMemory,
}

impl From<NoMemory> for ReadFault {
    ghost use Rattle.std.specs.Prelude.{◌≡◌};
    ghost use Rattle.route_grammar.specs.declared.fault.ReadFault.TheVariants as read_fault;

    ghost from_gives = { λ memory fault. fault ≡ read_fault.NoMemory };

    fn from(_: NoMemory) -> ReadFault {
        ReadFault::NoMemory
    }
}
