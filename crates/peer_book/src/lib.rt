//! One neighbour slot of the daemon: the neighbour in it, the table that it is to have, its session, and the messages
//! that are cut for it.
//!
//! Each call is proved against the history of steps of `peer_history`: where the slot stood for a history, it then
//! stands for that history with one more step, and a cut answers what the history allows. It stands on `adj_rib_out`
//! (the table) and `batch_cutter` (the messages: RFC 4271, section 4.3). A new section of its neighbour comes in two
//! parts, so that a reload of many slots is done for all or for none: `prepare_statics`, `placed` and `moved` take
//! memory and change nothing that a history tells of; `keep` and `exchange` then take none, as all other calls but
//! `prepare`. Nothing here sends a message, selects a neighbour, keeps a bound on route nodes or reads a command.
#![tactic(auto)]

mod asking;
mod clearing;
mod code;
mod copying;
mod counting;
mod cut;
mod cutting;
mod keeping;
mod known;
mod numbers;
mod reloading;
mod slot;
mod statics;
mod table;
#[cfg(test)]
mod tests;

pub use code::Code;
pub use cut::Cut;
pub use known::{known_route, known_statics};
pub use numbers::Numbers;
pub use slot::PeerSlot;
