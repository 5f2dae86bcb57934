//! The tokens of a line and of a file, and where each begins.
//!
//! Grammars read tokens through the trait `Words`, from the front, so that one grammar serves both. A line has words
//! and marks, and its tokens are counted. A file has comments and quoted words besides, and its lines and bytes are
//! counted. Nothing here takes memory. The crate stands on no other one, and knows no grammar and no number.
#![tactic(auto)]

mod file;
mod laws;
mod line;
mod piece;
mod token;
mod words;

pub use file::FileTokens;
pub use laws::tokens_are_spelled;
pub use line::{MAX_LINE, Tokens};
pub use token::{Place, Token};
pub use words::{MAX_FILE, Words};

#[cfg(test)]
mod tests;
