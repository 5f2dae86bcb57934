//! Tokens and their places.

/// A token: a part of a text that a grammar takes as one.
#[derive(Clone, Copy, Debug, PartialEq, Eq)]
pub enum Token<'a> {
    /// A sign that is a token by itself, such as `[` or `;`.
    Mark(u8),
    /// A word as it stands, of at least one byte.
    Word(&'a [u8]),
    /// What stands between two quotation marks. It may be empty.
    Quoted(&'a [u8]),
    /// A quotation mark that nothing closes, with the rest of its line. No grammar takes it.
    Unclosed,
}

/// Where a token begins, or where the text ends. Both numbers count from 1.
#[derive(Clone, Copy, Debug, PartialEq, Eq)]
pub struct Place {
    /// In a file, the line; in a line by itself, 1.
    pub line: u32,
    /// In a file, the byte in its line; in a line by itself, the token's number.
    pub column: u32,
}
