//! The text commands of exabgpd, from bytes to bytes.
//!
//! `exabgp_text` runs the command that its words spell: `encode` answers a helper's lines and writes the BGP UPDATE
//! messages that they leave (RFC 4271, section 4.3), `play` and `load` run the same engine over a script and over a
//! large input, `parse` says of each line how it reads, `decode` tells messages as lines, and `check` reads a
//! configuration file. The crate stands on `script_play` (the engine over text), `outside` (sources, sinks, files),
//! `command_grammar` and `route_grammar` (lines as `parse` reads them), `message_decoder` (messages in a stream),
//! `config_reader` and `config_model` (configurations), `health_core` and `text_forms`. It holds no session and starts
//! no thread.
#![tactic(auto)]

mod caps;
mod decoding;
mod encoding;
mod files;
mod hashing;
mod health;
mod loading;
mod parsing;
mod plain;
mod playing;
mod top;
mod words;

pub use health::exabgp_health;
pub use script_play::{STATUS_ROOM, Status};
pub use top::exabgp_text;

#[cfg(test)]
mod tests;
