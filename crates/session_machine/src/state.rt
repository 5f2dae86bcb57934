//! How far a session has come.
use session_codec::Agreed;

/// How far a session has come (RFC 4271, section 8.2.2).
///
/// At each event the first row that fits says what is done, in order, and which state comes then. A session that ends
/// sends a NOTIFICATION where a code stands, is down where it was Established, and closes its connection.
///
/// | state | event | what is done, then |
/// |---|---|---|
/// | Idle | Connected | SendOpen, OpenSent |
/// | Idle | any other | nothing, Idle |
/// | OpenSent | Open that is taken | SendKeepalive, OpenConfirm |
/// | OpenSent | Keepalive, Update, Refresh | it ends with 5/0, Idle |
/// | OpenSent | KeepaliveDue, Connected | nothing, OpenSent |
/// | OpenConfirm | Keepalive | Up, Established |
/// | OpenConfirm | Open that is taken, Update, Refresh | it ends with 5/0, Idle |
/// | OpenConfirm | KeepaliveDue | SendKeepalive, OpenConfirm |
/// | Established | Keepalive | nothing, Established |
/// | Established | Update | Heard, Established |
/// | Established | Refresh of a family that is agreed | Refresh, Established |
/// | Established | any other Refresh | nothing, Established |
/// | Established | Open that is taken | it ends with 5/0, Idle |
/// | Established | KeepaliveDue | SendKeepalive, Established |
/// | OpenConfirm, Established | Connected | nothing, the same |
/// | all but Idle | Open that is refused, Bad | it ends with the refusal, Idle |
/// | all but Idle | HoldExpired | it ends with 4/0, Idle |
/// | all but Idle | Stop | it ends with the code and subcode, Idle |
/// | all but Idle | Notified, Lost | it ends, Idle |
#[derive(Clone, Copy, Debug, PartialEq, Eq)]
pub enum State {
    /// No connection stands.
    Idle,
    /// The own OPEN was sent.
    OpenSent,
    /// The neighbour's OPEN was taken, and both sides agree on this.
    OpenConfirm(Agreed),
    /// The session stands.
    Established(Agreed),
}
