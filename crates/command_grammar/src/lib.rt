//! What a line of a helper says: which neighbours it is for, and what is wanted of them.
//!
//! The crate has the type of commands, the productions of lines, and their reader, which gives the command that a line
//! says, or the first token that goes on with no reading. A line with what reading it gave has a type of its own. The
//! crate stands on route_grammar (productions, route items), token_reader, text_forms and route_values. It cuts no
//! stream into lines, and no command is done here.
#![tactic(auto)]

mod blocks;
mod command;
mod keywords;
mod lines;
mod reading;
mod routes;
mod selectors;
mod targets;
mod verbs;
mod words;

pub use command::Command;
pub use reading::{ReadLine, read_command};

#[cfg(test)]
mod tests;
