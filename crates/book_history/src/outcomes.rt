//! What events are answered.
use ack_queue::{MAX_TAKEN, Reply};
use arrayvec::ArrayVec;
use config_model::{ConfigFault, MAX_RUN};
use route_grammar::LineFault;
use route_values::Settings;

/// What becomes of a helper's line.
#[derive(Clone, Copy, Debug, PartialEq, Eq)]
pub enum Verdict {
    /// The helper isn't running, or the daemon ends. The line isn't taken.
    Ended,
    /// The helper's replies fill their queue. The line isn't taken yet, and may be entered again.
    Busy,
    /// The line is taken and refused. It changes nothing.
    Error(Why),
    /// The line is taken, and what it says is done.
    Done,
}

/// Why a line is refused.
#[derive(Clone, Copy, Debug, PartialEq, Eq)]
pub enum Why {
    /// It is no command.
    Line(LineFault),
    /// It selects no neighbour.
    NoMatch,
    /// With it there would be so many route nodes, which are over 4,194,304.
    Full(u64),
    /// It asks for so many routes to be shown, which are over 1,023.
    Show(u64),
    /// Memory ran out.
    NoMemory,
}

/// What a helper is to be told.
#[derive(Debug, PartialEq)]
pub enum Take {
    /// Nothing more will come for this incarnation.
    Ended,
    /// Nothing waits.
    Nothing,
    /// The first replies that waited.
    Replies(ArrayVec<Reply, MAX_TAKEN>),
}

/// Whether a helper may be started.
#[derive(Debug, PartialEq, Eq)]
pub enum Spawn {
    /// The daemon ends.
    Stopping,
    /// The slot has no process.
    Absent,
    /// A child of the slot is there.
    Running,
    /// The slot's process was started too often, or isn't to be started again.
    GiveUp,
    /// It is to be started by these words, joined by zero bytes, as this incarnation.
    Go {
        inc: u64,
        run: ArrayVec<u8, MAX_RUN>,
    },
}

/// Which neighbour is in a slot.
#[derive(Clone, Copy, Debug, PartialEq, Eq)]
pub enum Peer {
    /// The daemon ends.
    Stopping,
    /// None is.
    Absent,
    /// One with these settings.
    Is(Settings),
}

/// Whether a session may come up.
#[derive(Clone, Copy, Debug, PartialEq, Eq)]
pub enum Up {
    /// The daemon ends.
    Stopping,
    /// The slot's neighbour has other settings by now, or is gone.
    Stale,
    /// The session stands.
    Ok,
}

/// What is to be sent to a neighbour next.
#[derive(Clone, Copy, Debug, PartialEq, Eq)]
pub enum Cut {
    /// No session stands.
    Down,
    /// The session is to end with this NOTIFICATION (RFC 4271, section 4.5).
    Reset { code: u8, sub: u8 },
    /// Nothing, as it has been sent all.
    Nothing,
    /// One UPDATE, which is the last of its batch or not.
    Message { last: bool },
}

/// What the daemon as a whole is to do.
#[derive(Clone, Copy, Debug, PartialEq, Eq)]
pub enum Control {
    /// It is to end.
    Stop,
    /// It is to read its configuration again.
    ReloadDue,
    /// Nothing.
    Nothing,
}

/// What became of a new configuration.
#[derive(Clone, Copy, Debug, PartialEq, Eq)]
pub enum Reload {
    /// With it there would be so many route nodes, which are over 4,194,304. All is as before.
    Full(u64),
    /// Memory ran out. All is as before.
    NoMemory,
    /// It stands.
    Ok,
}

/// Why there is no new configuration.
#[derive(Clone, Copy, Debug, PartialEq, Eq)]
pub enum NotRead {
    /// The file wasn't read.
    ReadFault,
    /// The file is no configuration.
    Refused(ConfigFault),
    /// Memory ran out.
    NoMemory,
}
