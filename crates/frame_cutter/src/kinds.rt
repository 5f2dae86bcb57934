//! The types of messages (RFC 4271, section 4.1), and how long messages of each type are. Other types are refused.
ghost use Rattle.std.specs.Prelude.{◌≡◌};
ghost use Rattle.frame_cutter.specs.Header.{is_within, lengths_of};

/// OPEN (RFC 4271, section 4.2).
pub const OPEN: u8 = 1;
/// UPDATE (RFC 4271, section 4.3).
pub const UPDATE: u8 = 2;
/// NOTIFICATION (RFC 4271, section 4.5).
pub const NOTIFICATION: u8 = 3;
/// KEEPALIVE (RFC 4271, section 4.4).
pub const KEEPALIVE: u8 = 4;
/// ROUTE-REFRESH (RFC 2918, section 3).
pub const ROUTE_REFRESH: u8 = 5;

/// How many bytes a header has: marker, length and type (RFC 4271, section 4.1).
pub const HEADER_LEN: usize = 19;

/// The greatest length of a message where nothing else was agreed (RFC 4271, section 4.1).
pub const MAX_LEN: usize = 4_096;

/// The greatest length of a message where both sides agreed to long ones (RFC 8654, section 4).
pub const MAX_LONG_LEN: usize = 65_535;

// The least length of OPEN (RFC 4271, section 4.2).
const MIN_OPEN: usize = 29;

// The least length of UPDATE (RFC 4271, section 4.3).
const MIN_UPDATE: usize = 23;

// The least length of NOTIFICATION (RFC 4271, section 4.5).
const MIN_NOTIFICATION: usize = 21;

// The one length of ROUTE-REFRESH: a header, and a family in four bytes (RFC 2918, section 3).
const ROUTE_REFRESH_LEN: usize = 23;

/// The least and the greatest length of some messages.
#[derive(Clone, Copy, Debug)]
pub struct Lengths {
    /// With the header, as all lengths of messages.
    pub least: usize,
    pub greatest: usize,
}

/// How long messages of a type are, where those that may be long have at most `most` bytes. OPEN and KEEPALIVE are
/// never long (RFC 8654, section 4). None says that there is no such type.
pub fn lengths_of(kind: u8, most: usize) -> Option<Lengths>
    ensures { result ≡ lengths_of most kind }
{
    let (least, greatest) = match kind {
        OPEN => (MIN_OPEN, MAX_LEN),
        UPDATE => (MIN_UPDATE, most),
        NOTIFICATION => (MIN_NOTIFICATION, most),
        KEEPALIVE => (HEADER_LEN, HEADER_LEN),
        ROUTE_REFRESH => (ROUTE_REFRESH_LEN, ROUTE_REFRESH_LEN),
        _ => return None,
    };
    Some(Lengths { least, greatest })
}

impl Lengths {
    /// Whether a length is one of them.
    pub fn contains(self, len: usize) -> bool
        ensures { result ≡ is_within self len }
    {
        self.least <= len && len <= self.greatest
    }
}
