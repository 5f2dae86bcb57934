//! The forms of lines that hold bytes in hexadecimal digits.
ghost use Rattle.std.specs.Prelude.{◌≡◌, ◌++◌, ◌↔◌, [], List, ℕ, IfSome, IfNone, IsTrue};
ghost use Rattle.text_forms.specs.Lines.{without_return};
ghost use Rattle.text_printer.specs.Forms.{AreIntroducing, IsDigitsOf, IsIntroduction};
ghost use Rattle.text_printer.specs.Forms.{IsNeighbor, IsPlace};

use crate::reading::is;
use text_forms::{cut, octet};

// The word that the line of a printed message begins with.
const UPDATE: &[u8] = b"update";

// What stands between the words of a line.
const SPACE: u8 = b' ';

// How many neighbours there are, counted from 0.
const NEIGHBORS: u8 = 64;

/// The line without one carriage return at its end.
pub fn without_return(line: &[u8]) -> &[u8]
    ensures { result.now ≡ without_return line.now }
{
    match line.split_last() {
        Some((last, front)) if *last == b'\r' => front,
        _ => line,
    }
}

/// What stands behind a line's introduction, or the whole line where it has none.
pub fn digits_in(line: &[u8]) -> &[u8]
    ensures { IsDigitsOf line.now result.now }
{
    match introduced(line) {
        Some(digits) => digits,
        None => line,
    }
}

// What stands behind an introduction: `update`, a neighbour's number and its message's place in the batch.
fn introduced(line: &[u8]) -> Option<&[u8]>
    ensures found { IfSome result (λ rest. (front : List ℕ) × IsIntroduction front
        × (line.now ≡ front ++ rest.now)) }
    ensures none { IfNone result ((front rest : List ℕ) → IsIntroduction front
        → line.now ≡ front ++ rest → ⊥) }
{
    let (word, rest) = cut(line, SPACE)?;
    let (number, rest) = cut(rest, SPACE)?;
    let (place, digits) = cut(rest, SPACE)?;
    if is_introduction(word, number, place) {
        Some(digits)
    } else {
        None
    }
}

// Whether three words introduce a message.
fn is_introduction(word: &[u8], number: &[u8], place: &[u8]) -> bool
    ensures { IsTrue result ↔ AreIntroducing word.now number.now place.now }
{
    is(word, UPDATE) && is_neighbor(number) && is_place(place)
}

fn is_neighbor(number: &[u8]) -> bool
    ensures { IsTrue result ↔ IsNeighbor number.now }
{
    match octet(number) {
        Some(number) => number < NEIGHBORS,
        None => false,
    }
}

fn is_place(word: &[u8]) -> bool
    ensures { IsTrue result ↔ IsPlace word.now }
{
    is(word, b"more") || is(word, b"last")
}
