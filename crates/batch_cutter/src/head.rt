//! What a message is for.
use route_values::{Family, WireAttrs};

/// What a message does with its keys, which are all of one family.
#[derive(Clone, Copy)]
pub enum Head<'a> {
    /// Withdraws them.
    Gone(Family),
    /// Announces them with these attributes.
    Here(Family, &'a WireAttrs),
    /// It is the family's End-of-RIB marker, and has none (RFC 4724, section 2).
    End(Family),
}
