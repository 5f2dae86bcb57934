//! The histories of the text commands: which events a script or the lines of a helper make, and in which order.
//!
//! What a command may add to the history is defined in `specs`, by the events alone: whether each answer is allowed is
//! told by book_history. The crate stands on script_grammar (events of a script), config_reader (files), outside (what
//! is told of files) and text_forms (lines). Nothing here does anything.
#![tactic(auto)]

mod encoding_law;
mod laws;

pub use encoding_law::encodings_leave_tables;
pub use laws::histories_go_on;
