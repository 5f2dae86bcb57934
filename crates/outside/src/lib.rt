//! What a program does with the outside, as traits: files and streams, children with their pipes, links to peers,
//! probes, a clock, and pauses that can be rung.
//! Each object that can fail has a count of its faults: an answer that it failed counts one, and no other does. Content
//! is optional: where an object tells it, the clauses say which bytes went through. The objects in memory tell it; the
//! real ones are in `outside_std`. Stands on `route_values`. No clause speaks of time, or says that a ring arrives.
#![tactic(auto)]

mod clock;
mod crew;
mod dialer;
mod ear;
mod files;
mod link;
mod memory;
mod pause;
mod probe;
mod reading;
mod sink;
mod source;
mod spawner;
#[cfg(test)]
mod tests;
mod writing;

pub use clock::Clock;
pub use crew::CrewPlan;
pub use dialer::{Dialer, Dialled};
pub use ear::{Ear, MAX_BODY};
pub use files::{Files, Opened};
pub use link::{Link, Recv};
pub use memory::child::{ChildLeash, ChildSink, ChildSource};
pub use memory::held::HeldFile;
pub use memory::holds::{Hold, Until};
pub use memory::kept_sink::KeptSink;
pub use memory::listed_dialer::MemoryDialer;
pub use memory::listed_files::MemoryFiles;
pub use memory::listed_link::MemoryLink;
pub use memory::listed_probe::{KeptCheck, MemoryProbe};
pub use memory::listed_sink::MemorySink;
pub use memory::listed_source::MemorySource;
pub use memory::listed_spawner::MemorySpawner;
pub use memory::mark::Mark;
pub use memory::no_ear::NoEar;
pub use memory::no_pause::{CountedWait, MemoryPause};
pub use memory::ready::{ReadyChild, ReadyLink};
pub use memory::script::Script;
pub use memory::still_clock::{MemoryClock, StillClock};
pub use memory::sure_dialer::SureDialer;
pub use memory::sure_files::SureFiles;
pub use memory::sure_link::SureLink;
pub use memory::sure_sink::SureSink;
pub use memory::sure_source::SureSource;
pub use memory::sure_spawner::SureSpawner;
pub use pause::{Pause, Seat};
pub use probe::{Outcome, Probe};
pub use reading::{Unread, read_all, read_file};
pub use sink::{Sink, Write};
pub use source::{Read, Source};
pub use spawner::{Leash, Pipes, Spawned, Spawner};
pub use writing::{WriteFault, write_all};
