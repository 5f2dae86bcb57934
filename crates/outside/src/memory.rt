//! The traits of the outside in memory, for tests and for content that is at hand.
//!
//! A `Memory..` object fails at the calls that it is told to, a `Sure..` object never fails.

mod attempts;
pub mod child;
mod fault_plan;
pub mod held;
pub mod holds;
mod kept;
pub mod kept_sink;
mod lent;
pub mod listed_dialer;
pub mod listed_files;
pub mod listed_link;
pub mod listed_probe;
pub mod listed_sink;
pub mod listed_source;
pub mod listed_spawner;
pub mod mark;
pub mod no_ear;
pub mod no_pause;
pub mod ready;
mod roll;
pub mod script;
pub mod still_clock;
pub mod sure_dialer;
pub mod sure_files;
pub mod sure_link;
pub mod sure_sink;
pub mod sure_source;
pub mod sure_spawner;
