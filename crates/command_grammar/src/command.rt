//! What a line says.
use route_values::{Attrs, Keys, Prefix, Selector};

/// A command. Each but the last five is for the neighbours that its selector means. The empty one means every
/// neighbour.
#[derive(Debug, Drop)]
pub enum Command {
    /// Routes of these keys with these attributes. All prefixes are of one family, and so is the next hop, where it is
    /// written as an address.
    Announce {
        pick: Selector,
        keys: Keys,
        attrs: Attrs,
    },
    /// No routes of these keys any more.
    Withdraw {
        pick: Selector,
        keys: Keys,
    },
    /// All routes are to be sent again.
    Flush(Selector),
    /// No routes any more.
    Clear(Selector),
    /// The routes are to be told, or those alone whose prefix lies within this one.
    Show {
        pick: Selector,
        within: Option<Prefix>,
    },
    /// Sessions are to end with a Cease of this subcode (RFC 4486).
    Teardown(Selector, u8),
    /// The configuration is to be read again.
    Reload,
    /// The daemon is to end.
    Shutdown,
    /// Lines are to be taken without replies.
    DisableAck,
    /// Lines are to be replied to again.
    EnableAck,
    /// A remark, which does nothing.
    Comment,
}
