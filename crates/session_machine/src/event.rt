//! What happens to a session.
use route_values::Family;
use session_codec::{Open, Refusal};

/// What happens to a session (RFC 4271, section 8.1).
#[derive(Debug, PartialEq, Drop)]
pub enum Event<'a> {
    /// The connection stands.
    Connected,
    /// An OPEN came: what it says, or why it is refused.
    Open(Result<Open, Refusal>),
    /// An UPDATE came, with this body.
    Update(&'a [u8]),
    /// A NOTIFICATION came.
    Notified,
    /// A KEEPALIVE came.
    Keepalive,
    /// A ROUTE-REFRESH came, for this family, or for one that isn't known here.
    Refresh(Option<Family>),
    /// The stream has this fault, and so no further message comes.
    Bad(Refusal),
    /// Nothing came for as long as the hold time.
    HoldExpired,
    /// It is time for the next KEEPALIVE.
    KeepaliveDue,
    /// The connection is gone.
    Lost,
    /// The session is to end, and the neighbour to be told this code and subcode.
    Stop(u8, u8),
}
