//! The tokens of a line.
ghost use Rattle.std.specs.Prelude.{◌≡◌, ◌≤◌, ◌+◌, ◌<◌, ◌∷◌, length};
ghost use Rattle.std.specs.List.{prefix_len};
ghost use Rattle.token_reader.specs.Told.{piece_told};
ghost use Rattle.token_reader.specs.Signs.{is_blank, is_line_mark, is_line_word};
ghost use Rattle.token_reader.specs.LineTokens.{line_piece, line_tokens, numbered, nth};
ghost use Rattle.token_reader.specs.LineTokens.{tokens_of_line, end_of_line};

use crate::piece::Piece;
use crate::token::{Place, Token};
use crate::words::Words;
use std::marker::Model;

/// The most bytes that a line of tokens has.
pub const MAX_LINE: usize = 65_535;

/// The tokens of a line, in order: marks and words.
///
/// Each of `[`, `]`, `(`, `)` and `,` is a mark. Spaces and tabs part words, and all else makes words. The line of each
/// place is 1, and its column is the token's number, from 1; the end's is one more than there are tokens.
#[derive(Drop)]
pub struct Tokens<'a> {
    // The front token and its number, or None and one more than there were.
    front: Option<Token<'a>>,
    number: u32,
    // The bytes behind the front token.
    rest: &'a [u8],
}

impl<'a> Model for Tokens<'a> {
    ghost use Rattle.token_reader.specs.Tokens.{Unread};

    ghost Value = { Unread };

    ghost use Rattle.token_reader.specs.LineReading.{unread_line, IsLineReading};

    ghost view = { λ s. unread_line s.front s.number s.rest.now };

    ghost invariant = { λ s. IsLineReading s.front s.number s.rest.now };
}

impl<'a> Tokens<'a> {
    /// The tokens of a line of at most 65,535 bytes.
    pub fn new(line: &'a [u8]) -> Self
        requires { length line.now ≤ MAX_LINE }
        ensures left { result.left ≡ tokens_of_line line.now }
        ensures end { result.end ≡ end_of_line line.now }
    {
        reading(line, 1)
    }
}

impl Words for Tokens<'_> {
    ghost left = { λ words. words.left };

    ghost end = { λ words. words.end };

    fn peek(&self) -> Option<Token<'_>> {
        self.front
    }

    fn advance(&mut self) {
        if self.front.is_some() {
            *self = reading(self.rest, self.number + 1);
        }
    }

    fn place(&self) -> Place {
        Place {
            line: 1,
            column: self.number,
        }
    }
}

// The tokens of the bytes that are left, of which the first has this number.
fn reading(bytes: &[u8], number: u32) -> Tokens<'_>
    requires from_one { 0 < number }
    requires few { number + length bytes.now ≤ MAX_LINE + 1 }
    ensures left { result.left ≡ numbered number (line_tokens 0 bytes.now) }
    ensures end { result.end ≡ nth (number + length (line_tokens 0 bytes.now)) }
{
    let mut rest = bytes;
    'pieces: while let Some((b, others)) = rest.split_first() {
        let piece = piece_of(rest, *b, others);
        (_, rest) = others.split_at(piece.further);
        if piece.token.is_some() {
            return Tokens {
                front: piece.token,
                number,
                rest,
            };
        }
    }
    Tokens {
        front: None,
        number,
        rest,
    }
}

// What begins with the first byte of a text.
fn piece_of<'a>(text: &'a [u8], b: u8, others: &'a [u8]) -> Piece<'a>
    requires { text.now ≡ b ∷ others.now }
    ensures piece { piece_told result ≡ line_piece b others.now }
    ensures within { result.further ≤ length others.now }
{
    if is_blank(b) {
        return Piece {
            token: None,
            further: 0,
        };
    }
    if is_mark(b) {
        return Piece {
            token: Some(Token::Mark(b)),
            further: 0,
        };
    }
    let further = word_len(others);
    Piece {
        token: Some(Token::Word(&text[..further + 1])),
        further,
    }
}

fn is_blank(b: u8) -> bool
    ensures { result ≡ is_blank b }
{
    matches!(b, b' ' | b'\t')
}

fn is_mark(b: u8) -> bool
    ensures { result ≡ is_line_mark b }
{
    matches!(b, b'[' | b']' | b'(' | b')' | b',')
}

// How many bytes from the front on belong to a word.
fn word_len(text: &[u8]) -> usize
    ensures len { result ≡ prefix_len is_line_word text.now }
    ensures within { result ≤ length text.now }
{
    text.iter()
        .take_while(|b| !is_blank(**b) && !is_mark(**b))
        .count()
}
