//! Why bytes can't be read.
ghost use Rattle.std.specs.Prelude.{◌≡◌};
ghost use Rattle.attr_codec.specs.declared.fault.KeysFault.TheVariants as keys_fault;
ghost use Rattle.attr_codec.specs.declared.fault.ValueFault.TheVariants as value_fault;

use answers::NoMemory;
use thiserror::Error;

/// Why bytes are no list of prefixes.
#[derive(Clone, Copy, Debug, PartialEq, Eq, Error)]
pub enum KeysFault {
    /// The prefix at this offset is cut or counts more bits than its family has, or its identifier is cut (RFC 4271,
    /// section 6.3; RFC 7911, section 3). It is the first such. The offset is in bytes from the front of what was read.
    #[error("the prefix at {0} is no prefix")]
    BadPrefix(usize),
    /// There was no memory for the keys.
    #[error("no memory")]
    NoMemory,
}

/// Why the value of one attribute can't be read.
#[derive(Clone, Copy, Debug, PartialEq, Eq)]
pub enum ValueFault {
    /// Its length isn't one that the attribute may have, or its parts don't fill it.
    BadLength,
    /// It means nothing.
    BadValue,
    /// There was no memory for what it says.
    NoMemory,
}

impl From<NoMemory> for KeysFault {
    ghost from_gives = { λ _ fault. fault ≡ keys_fault.NoMemory };

    fn from(_: NoMemory) -> KeysFault {
        KeysFault::NoMemory
    }
}

impl From<NoMemory> for ValueFault {
    ghost from_gives = { λ _ fault. fault ≡ value_fault.NoMemory };

    fn from(_: NoMemory) -> ValueFault {
        ValueFault::NoMemory
    }
}
