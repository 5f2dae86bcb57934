//! The words that statements begin with.

/// A statement, by its first word.
#[derive(Clone, Copy, Debug, PartialEq, Eq)]
pub enum Statement {
    Rise,
    Fall,
    Every,
    Turns,
    Run,
    Prefix,
    NextHop,
    UpMed,
    Down,
}
