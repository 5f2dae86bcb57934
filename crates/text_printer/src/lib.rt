//! UPDATE messages as commands: what the line of a message does, as the command lines that say the same.
//!
//! A line of hexadecimal digits is read to its effects, or to its first fault; an effect is printed as the line that
//! announces or withdraws its key. RFC 4271, sections 4.1, 4.3 and 6; RFC 4760; RFC 7911. The crate stands on
//! frame_cutter (headers), update_codec (bodies), command_grammar (lines) and text_forms (numbers, addresses). It keeps
//! no table, and knows no session and no neighbour.
#![tactic(auto)]

mod fault;
mod laws;
mod printing;
mod reading;
mod refusals;

pub use fault::{NoPrint, Unread};
pub use laws::lines_read_back;
pub use printing::{Printed, print_effect, print_gone, print_here};
pub use reading::{MAX_LINE, read_message, without_return};
pub use refusals::print_refusal;

#[cfg(test)]
mod tests;
