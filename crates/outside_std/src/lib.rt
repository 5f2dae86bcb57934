//! The traits of `outside` over the system: standard streams, files, children with their pipes,
//! programs that check, TCP links, the clock, bells and threads.
//!
//! Proved is that each error counts, that an error and a write of no byte are answered as `Failed`,
//! and that the bytes are those that the reader gave and the writer took. They tell no content:
//! what the system does below them is trusted. Stands on `outside` and `wires`. It takes no lock
//! and keeps no buffer, and what waits at a bell ends its wait when that is closed.
#![tactic(auto)]

mod board;
mod clock;
mod crew;
mod dialer;
mod failure;
mod files;
mod link;
mod pipes;
mod post;
mod probe;
mod reader;
mod spawner;
#[cfg(test)]
mod tests;
mod writer;

pub use board::{Board, BoardPause};
pub use clock::SystemClock;
pub use crew::work_beside;
pub use dialer::TcpDialer;
pub use files::{FileSource, StdFiles};
pub use link::{StreamLink, TcpLink};
pub use pipes::{ChildSink, ChildSource, PipeSink, PipeSource};
pub use post::Post;
pub use probe::{MAX_CHECK, ProcessProbe};
pub use reader::{ReaderSource, StdInput};
pub use spawner::{ProcessLeash, ProcessSpawner};
pub use writer::{StdOutput, WriterSink};
