//! Why the line of a message tells nothing, and why an effect has no line.
ghost use Rattle.std.specs.Prelude.{◌≡◌};
ghost use Rattle.text_printer.specs.declared.fault.Unread.TheVariants as unread;
ghost use Rattle.text_printer.specs.declared.fault.NoPrint.TheVariants as no_print;

use answers::NoMemory;
use thiserror::Error;
use update_grammar::UpdateFault;

/// The first fault of the line of a message: where several are there, the one that stands first here.
#[derive(Clone, Copy, Debug, PartialEq, Eq, Error)]
pub enum Unread {
    /// The line has over 131,100 bytes, its carriage return counted.
    #[error("long")]
    Long,
    /// It isn't in hexadecimal digits, two a byte, in one of the forms of lines.
    #[error("hex")]
    Hex,
    /// Its bytes aren't one whole UPDATE, header included, and nothing more (RFC 4271, sections 4.1 and 6.1).
    #[error("frame")]
    Frame,
    /// The body of the UPDATE has this fault (RFC 4271, section 6.3). Its offset counts from the body's front.
    #[error("update {0}")]
    Update(UpdateFault),
    /// There was no memory for the message.
    #[error("no memory")]
    NoMemory,
}

/// Why an effect isn't printed.
#[derive(Clone, Copy, Debug, PartialEq, Eq, Error)]
pub enum NoPrint {
    /// No command can write it: the AS number 0 is in its path or is that of its aggregator, or one of its lists is
    /// longer than a line's may be.
    #[error("unprintable")]
    Unprintable,
    /// There was no memory for its line.
    #[error("no memory")]
    NoMemory,
}

impl From<NoMemory> for Unread {
    ghost from_gives = { λ _ fault. fault ≡ unread.NoMemory };

    fn from(_: NoMemory) -> Unread {
        Unread::NoMemory
    }
}

impl From<NoMemory> for NoPrint {
    ghost from_gives = { λ _ fault. fault ≡ no_print.NoMemory };

    fn from(_: NoMemory) -> NoPrint {
        NoPrint::NoMemory
    }
}
