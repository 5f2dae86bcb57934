//! What a text is cut into.
use crate::token::Token;

/// What begins with a byte: a token or none, and how many further bytes belong to it.
#[derive(Clone, Copy)]
pub struct Piece<'a> {
    pub token: Option<Token<'a>>,
    pub further: usize,
}
