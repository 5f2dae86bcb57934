//! What a cut answers.
use crate::code::Code;

/// What is to be sent to a neighbour next.
#[derive(Clone, Copy, Debug, PartialEq, Eq)]
pub enum Cut {
    /// No session stands.
    NoSession,
    /// The session is to end with this code.
    Reset(Code),
    /// Nothing, as it has been sent all.
    Nothing,
    /// One UPDATE, which is the last of its batch or not.
    Message { last: bool },
}
