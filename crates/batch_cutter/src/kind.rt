//! What a packer keeps of the head of its message.
use route_values::Family;

/// What a message is for, without the value that it announces.
#[derive(Clone, Copy)]
pub enum Kind {
    /// It withdraws keys of a family.
    Gone(Family),
    /// It announces keys of a family.
    Here(Family),
    /// It is a family's End-of-RIB marker.
    End(Family),
}
