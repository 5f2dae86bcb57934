//! The tokens of a file.
ghost use Rattle.std.specs.Prelude.{◌≡◌, ◌≤◌, ◌+◌, ◌<◌, ◌∷◌, length};
ghost use Rattle.std.specs.List.{prefix_len, position_or_len};
ghost use Rattle.token_reader.specs.Told.{piece_told};
ghost use Rattle.token_reader.specs.Signs.{is_separator, is_file_mark, is_file_word, is_line_feed};
ghost use Rattle.token_reader.specs.Signs.{is_quote, is_quotable, begins};
ghost use Rattle.token_reader.specs.FileTokens.{file_piece, quoted_piece, file_tokens};
ghost use Rattle.token_reader.specs.FileTokens.{tokens_of_file, end_of_file};
ghost use Rattle.token_reader.specs.Places.{along, behind_byte, behind_bytes, IsInFile};

use crate::piece::Piece;
use crate::token::{Place, Token};
use crate::words::{MAX_FILE, Words};
use std::marker::Model;

/// The tokens of a file, in order: marks, words and quoted words.
///
/// Each of `{`, `}`, `[`, `]`, `(`, `)`, `,` and `;` is a mark. Spaces, tabs, carriage returns and line feeds part
/// words, and all else makes words. Where a token would begin, `#` begins a comment to the end of its line, and `"`
/// begins a quoted word to the next `"` of its line; without that one it is `Unclosed`, and takes the rest of its
/// line. Lines count from 1, and columns count the bytes of a line from 1. The end's place is the one behind the last
/// byte.
#[derive(Drop)]
pub struct FileTokens<'a> {
    // The front token and its place, or None and that of the end.
    front: Option<Token<'a>>,
    place: Place,
    // The bytes behind the front token, and where they begin.
    rest: &'a [u8],
    behind: Place,
}

impl<'a> Model for FileTokens<'a> {
    ghost use Rattle.token_reader.specs.Tokens.{Unread};

    ghost Value = { Unread };

    ghost use Rattle.token_reader.specs.FileReading.{unread_file, IsFileReading};

    ghost view = { λ s. unread_file s.front s.place s.rest.now s.behind };

    ghost invariant = { λ s. IsFileReading s.front s.place s.rest.now s.behind };
}

impl<'a> FileTokens<'a> {
    /// The tokens of a file of at most 1,048,576 bytes.
    pub fn new(bytes: &'a [u8]) -> Self
        requires { length bytes.now ≤ MAX_FILE }
        ensures left { result.left ≡ tokens_of_file bytes.now }
        ensures end { result.end ≡ end_of_file bytes.now }
    {
        reading(bytes, Place { line: 1, column: 1 })
    }
}

impl Words for FileTokens<'_> {
    ghost left = { λ words. words.left };

    ghost end = { λ words. words.end };

    fn peek(&self) -> Option<Token<'_>> {
        self.front
    }

    fn advance(&mut self) {
        *self = reading(self.rest, self.behind);
    }

    fn place(&self) -> Place {
        self.place
    }
}

// The tokens of the bytes that are left, which begin at a place.
fn reading(bytes: &[u8], start: Place) -> FileTokens<'_>
    requires { IsInFile start (length bytes.now) }
    ensures left { result.left ≡ file_tokens start 0 bytes.now }
    ensures end { result.end ≡ behind_bytes start bytes.now }
{
    let mut rest = bytes;
    let mut place = start;
    'pieces: while let Some((b, others)) = rest.split_first() {
        let piece = piece_of(rest, *b, others);
        let behind = place_behind(place, *b, piece.further);
        (_, rest) = others.split_at(piece.further);
        if piece.token.is_some() {
            return FileTokens {
                front: piece.token,
                place,
                rest,
                behind,
            };
        }
        place = behind;
    }
    FileTokens {
        front: None,
        place,
        rest,
        behind: place,
    }
}

// The place behind a byte and some further ones of its line.
fn place_behind(place: Place, b: u8, further: usize) -> Place
    requires { IsInFile place (1 + further) }
    ensures { result ≡ along (behind_byte place b) further }
{
    let further = further as u32;
    if b == b'\n' {
        Place {
            line: place.line + 1,
            column: 1 + further,
        }
    } else {
        Place {
            line: place.line,
            column: place.column + 1 + further,
        }
    }
}

// What begins with the first byte of a text.
fn piece_of<'a>(text: &'a [u8], b: u8, others: &'a [u8]) -> Piece<'a>
    requires { text.now ≡ b ∷ others.now }
    ensures piece { piece_told result ≡ file_piece b others.now }
    ensures within { result.further ≤ length others.now }
{
    if is_separator(b) {
        return Piece {
            token: None,
            further: 0,
        };
    }
    if b == b'#' {
        return Piece {
            token: None,
            further: line_len(others),
        };
    }
    if is_mark(b) {
        return Piece {
            token: Some(Token::Mark(b)),
            further: 0,
        };
    }
    if b == b'"' {
        return quoted(others);
    }
    let further = word_len(others);
    Piece {
        token: Some(Token::Word(&text[..further + 1])),
        further,
    }
}

// What a quotation mark begins, with the text behind it.
fn quoted(text: &[u8]) -> Piece<'_>
    ensures piece { piece_told result ≡ quoted_piece text.now }
    ensures within { result.further ≤ length text.now }
{
    let len = quotable_len(text);
    let (inner, rest) = text.split_at(len);
    if begins_quote(rest) {
        Piece {
            token: Some(Token::Quoted(inner)),
            further: len + 1,
        }
    } else {
        Piece {
            token: Some(Token::Unclosed),
            further: len,
        }
    }
}

fn begins_quote(text: &[u8]) -> bool
    ensures { result ≡ begins is_quote text.now }
{
    match text.split_first() {
        Some((b, _)) => *b == b'"',
        None => false,
    }
}

fn is_separator(b: u8) -> bool
    ensures { result ≡ is_separator b }
{
    matches!(b, b' ' | b'\t' | b'\r' | b'\n')
}

fn is_mark(b: u8) -> bool
    ensures { result ≡ is_file_mark b }
{
    matches!(b, b'{' | b'}' | b'[' | b']' | b'(' | b')' | b',' | b';')
}

// How many bytes from the front on belong to a word.
fn word_len(text: &[u8]) -> usize
    ensures len { result ≡ prefix_len is_file_word text.now }
    ensures within { result ≤ length text.now }
{
    text.iter()
        .take_while(|b| !is_separator(**b) && !is_mark(**b))
        .count()
}

// How many bytes from the front on a quoted word can hold.
fn quotable_len(text: &[u8]) -> usize
    ensures len { result ≡ prefix_len is_quotable text.now }
    ensures within { result ≤ length text.now }
{
    text.iter()
        .take_while(|b| **b != b'"' && **b != b'\n')
        .count()
}

// How many bytes stand before the first line feed.
fn line_len(text: &[u8]) -> usize
    ensures len { result ≡ position_or_len is_line_feed text.now }
    ensures within { result ≤ length text.now }
{
    text.iter().take_while(|b| **b != b'\n').count()
}
