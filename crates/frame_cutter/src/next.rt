//! What stands at the front of a stream.
use crate::refusal::Refusal;

/// What stands at the front of a stream of messages.
#[derive(Debug, PartialEq, Drop)]
pub enum Next<'a> {
    /// A whole message: its type, and what stands behind its header.
    Frame { kind: u8, body: &'a [u8] },
    /// Not the whole of a message yet, and no fault in its header as far as that is whole.
    NotYet,
    /// The header in front has this fault, and so the stream is at its end.
    Fault(Refusal),
}
