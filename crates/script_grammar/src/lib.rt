//! What a line of a script says: the events of the daemon as words that one space parts.
//!
//! A line is read to its event, or is passed over, or is in no production. What is right is defined by a relation, how
//! a line is read by functions, and a law says that both agree. The crate stands on text_forms (numbers, words, helper
//! lines) and route_values (families, capabilities). It reads no file and no helper's command, and does no event.
#![tactic(auto)]

mod caps;
mod event;
mod laws;
mod line;
mod named;
mod names;
mod operands;

pub use event::{Event, ScriptLine};
pub use laws::script_lines_say_one;
pub use line::{MAX_SCRIPT_LINE, read_script_line};

#[cfg(test)]
mod tests;
