//! What is to be done for a session.
use arrayvec::ArrayVec;
use route_values::Family;
use session_codec::{Agreed, Refusal};

/// What is to be done for a session. The default fills the places of [`Actions`] that are free.
#[derive(Debug, PartialEq, Default, Drop)]
pub enum Action {
    /// An OPEN is sent.
    SendOpen,
    /// A KEEPALIVE is sent.
    SendKeepalive,
    /// A NOTIFICATION is sent that says this.
    Notify(Refusal),
    /// The session stands, with what both sides agreed on.
    Up(Agreed),
    /// The session that stood stands no more.
    Down,
    /// All routes of the family are sent anew.
    Refresh(Family),
    /// The body of an UPDATE is read.
    Heard,
    /// The connection is closed.
    #[default]
    Close,
}

// How many things are to be done at most.
const ACTIONS_MAX: usize = 4;

/// What is to be done at one event, in this order.
pub type Actions = ArrayVec<Action, ACTIONS_MAX>;
