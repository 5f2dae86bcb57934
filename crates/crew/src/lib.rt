//! The crew: the daemon's jobs, each of one kind or another, run beside each other until all have ended.
//!
//! A job that the crew's plan refuses is called off instead, beside the others, which ends the daemon. The crate stands
//! on helper_worker, peer_worker and control_worker (the jobs) and outside (the plan, the devices). It makes no job,
//! and doesn't say that threads run at the same time.
#![tactic(auto)]

mod marking;
mod place;
mod worker;
mod working;

pub use place::Place;
pub use worker::Worker;
pub use working::{Worked, work};
