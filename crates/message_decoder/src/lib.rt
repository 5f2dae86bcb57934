//! UPDATE messages in a stream of lines, each told as command lines before more of the stream is read.
//!
//! It stands on outside (sources and sinks) and text_printer (what one line tells). Of the stream it holds the line
//! that it stands in, and of the output the line that it writes. It knows no session: the capabilities are given.
#![tactic(auto)]

mod answering;
mod decoding;
mod effects;
mod halt;
mod passing;
mod writing;

pub use decoding::decode_all;
pub use halt::Halt;

#[cfg(test)]
mod tests;
