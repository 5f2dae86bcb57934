//! What a slot's process does, and what an attempt to start it gives.

/// What a slot's process does. An incarnation is what one start makes of it; they count from 1.
///
/// ```text
/// Absent   --place-->  Idle         any       --remove-->  Absent
/// Idle     --start-->  Running      Idle      --start-->   GivenUp
/// Running  --deaf--->  Deaf         Running   --gone-->    Idle
/// Deaf     --gone--->  Idle         any       --place-->   Idle
/// ```
#[derive(Clone, Copy, Debug, PartialEq, Eq)]
pub enum State {
    /// The slot has no process.
    Absent,
    /// The process doesn't run.
    Idle,
    /// This incarnation runs.
    Running(u64),
    /// This incarnation is there, but reads no more replies, and its lines don't count.
    Deaf(u64),
    /// The process isn't started any more.
    GivenUp,
}

/// What an attempt to start a slot's process gives.
#[derive(Clone, Copy, Debug, PartialEq, Eq)]
pub enum Start {
    /// The slot has no process.
    Absent,
    /// An incarnation is there already.
    Running,
    /// The process isn't started any more.
    GiveUp,
    /// It is to be started, as this incarnation.
    Go(u64),
}
