//! Why bytes are no path attributes or no body of an UPDATE.
ghost use Rattle.std.specs.Prelude.{◌≡◌};
ghost use Rattle.update_grammar.specs.declared.fault.AttrFault.TheVariants as attr_fault;
ghost use Rattle.update_grammar.specs.declared.fault.UpdateFault.TheVariants as update_fault;

use answers::NoMemory;
use thiserror::Error;

/// The first fault of path attributes, in the order of their bytes. The attributes before the one at fault have none.
/// Of one attribute, an earlier variant comes before a later one. Offsets are in bytes and count from the front of
/// what was read.
#[derive(Clone, Copy, Debug, PartialEq, Eq, Error)]
pub enum AttrFault {
    /// The bytes end within the attribute that begins at this offset.
    #[error("the attribute at {0} is cut")]
    Cut(usize),
    /// The attribute at this offset has other optional and transitive bits than its code has, or it isn't optional
    /// and its code is unknown (RFC 4271, section 6.3).
    #[error("the flags at {0} are not those of the attribute")]
    BadFlags(usize),
    /// The code of the attribute at this offset stood before, whether or not it is known (RFC 4271, section 5).
    #[error("the attribute at {0} stands twice")]
    Twice(usize),
    /// The length at this offset isn't one that the attribute may have, or its parts don't fill it (RFC 4271, section
    /// 6.3).
    #[error("the length at {0} is not one of the attribute")]
    BadLength(usize),
    /// The value at this offset means nothing: an origin over 2, a segment of no known type or without numbers, a
    /// next hop of a length that its family doesn't have, or a bad prefix (RFC 4271, section 6.3; RFC 4760, section 7).
    #[error("the value at {0} means nothing")]
    BadValue(usize),
    /// There was no memory for what the attributes say.
    #[error("no memory")]
    NoMemory,
}

/// The first fault of the body of an UPDATE: in the lengths of its fields, then in its withdrawn prefixes, its
/// attributes, its announced prefixes, and then what is missing. Offsets are in bytes and count from the front of the
/// body.
#[derive(Clone, Copy, Debug, PartialEq, Eq, Error)]
pub enum UpdateFault {
    /// Its attributes have a fault.
    #[error("{0}")]
    Attr(AttrFault),
    /// The length at this offset is cut, or more than what stands behind it (RFC 4271, section 6.3).
    #[error("the length at {0} runs past the body")]
    BadLengths(usize),
    /// The prefix at this offset, in a field of the body, is cut or counts more bits than its family has. Its
    /// identifier belongs to it (RFC 4271, section 6.3; RFC 7911, section 3).
    #[error("the prefix at {0} is no prefix")]
    BadPrefix(usize),
    /// Prefixes are announced, or an MP_REACH_NLRI stands, and the attribute of this code isn't there (RFC 4271,
    /// section 6.3; RFC 4760, section 3). It is the least such code.
    #[error("attribute {0} is missing")]
    MissingAttr(u8),
}

// The numbers of the faults, by which a refusal is printed.
const CUT: u8 = 1;

const BAD_FLAGS: u8 = 2;

const BAD_LENGTH: u8 = 3;

const BAD_VALUE: u8 = 4;

const TWICE: u8 = 5;

const NO_MEMORY: u8 = 6;

const BAD_LENGTHS: u8 = 7;

const BAD_PREFIX: u8 = 8;

const MISSING_ATTR: u8 = 9;

impl AttrFault {
    ghost use Rattle.std.specs.Prelude.{◌+◌, ◌^◌, ◌<◌};
    ghost use Rattle.update_grammar.specs.Faults.{attr_number};
    ghost use Rattle.update_grammar.specs.ReadAttributes.{place_of};
    ghost use Rattle.update_grammar.specs.ReadUpdate.{moved};

    /// The fault's number, from 1 to 6. Each variant has one of its own.
    pub fn number(self) -> u8
        ensures { result ≡ attr_number self }
    {
        match self {
            AttrFault::Cut(_) => CUT,
            AttrFault::BadFlags(_) => BAD_FLAGS,
            AttrFault::BadLength(_) => BAD_LENGTH,
            AttrFault::BadValue(_) => BAD_VALUE,
            AttrFault::Twice(_) => TWICE,
            AttrFault::NoMemory => NO_MEMORY,
        }
    }

    /// The same fault, where its attributes stand so many bytes behind the front of what was read.
    pub fn moved(self, start: usize) -> AttrFault
        requires { start + place_of self < 2 ^ 64 }
        ensures { result ≡ moved start self }
    {
        match self {
            AttrFault::Cut(place) => AttrFault::Cut(start + place),
            AttrFault::BadFlags(place) => AttrFault::BadFlags(start + place),
            AttrFault::Twice(place) => AttrFault::Twice(start + place),
            AttrFault::BadLength(place) => AttrFault::BadLength(start + place),
            AttrFault::BadValue(place) => AttrFault::BadValue(start + place),
            AttrFault::NoMemory => AttrFault::NoMemory,
        }
    }
}

impl UpdateFault {
    ghost use Rattle.update_grammar.specs.Faults.{update_number};

    /// The fault's number: that of a fault of attributes is from 1 to 6, the other variants have 7 to 9.
    pub fn number(self) -> u8
        ensures { result ≡ update_number self }
    {
        match self {
            UpdateFault::Attr(fault) => fault.number(),
            UpdateFault::BadLengths(_) => BAD_LENGTHS,
            UpdateFault::BadPrefix(_) => BAD_PREFIX,
            UpdateFault::MissingAttr(_) => MISSING_ATTR,
        }
    }
}

impl From<NoMemory> for AttrFault {
    ghost from_gives = { λ _ fault. fault ≡ attr_fault.NoMemory };

    fn from(_: NoMemory) -> AttrFault {
        AttrFault::NoMemory
    }
}

impl From<NoMemory> for UpdateFault {
    ghost from_gives = { λ _ fault. fault ≡ update_fault.Attr attr_fault.NoMemory };

    fn from(_: NoMemory) -> UpdateFault {
        UpdateFault::Attr(AttrFault::NoMemory)
    }
}
