//! Operands: numbers, slots, and the line of a helper.
ghost use Rattle.std.specs.Prelude.{◌≡◌, ◌≢◌, ◌<◌, ◌^◌, ℕ, None};
ghost use Rattle.std.specs.Prelude.{Some, decimal, IfNone, IfSome, option_map};
ghost use Rattle.std.specs.List.{list_all};
ghost use Rattle.text_forms.specs.Blanks.{is_blank_byte};
ghost use Rattle.text_forms.specs.LineTold.{line_told};
ghost use Rattle.script_grammar.specs.Reading.{helper_line, neighbor_in, numbered_in};
ghost use Rattle.script_grammar.specs.Words.{first_word, helpers, longs, number_below, parted};

use itoa::Buffer;
use text_forms::{Line, cut, is_blank, octet};

// How many helper slots there are.
const HELPERS: u8 = 16;

// How many neighbour slots there are.
const NEIGHBORS: u8 = 64;

// How many bytes the line of a helper has at most.
const MAX_TEXT: usize = 65_535;

/// A helper slot, and a moment or an incarnation.
#[derive(Clone, Copy)]
pub struct Numbered {
    pub h: usize,
    pub number: u64,
}

/// The helper slot and the number that a text names.
#[tactic(auto, unfolding(crate::specs::Reading::numbered_in))]
pub fn numbered_in(text: &[u8]) -> Option<Numbered>
    ensures { result ≡ numbered_in text.now }
{
    let Some((slot, rest)) = first_word(text) else {
        return None;
    };
    let Some(h) = helper(slot) else {
        return None;
    };
    let Some(number) = long(rest) else {
        return None;
    };
    Some(Numbered { h, number })
}

/// The neighbour slot that a text names.
#[tactic(auto, unfolding(crate::specs::Reading::neighbor_in))]
pub fn neighbor_in(text: &[u8]) -> Option<usize>
    ensures { result ≡ neighbor_in text.now }
{
    slot_below(text, NEIGHBORS)
}

/// The helper slot that a word names.
pub fn helper(word: &[u8]) -> Option<usize>
    ensures { result ≡ number_below helpers word.now }
{
    slot_below(word, HELPERS)
}

/// The line of a helper that a text is; a blank text is none.
#[tactic(auto, unfolding(crate::specs::Reading::helper_line))]
pub fn helper_line(text: &[u8]) -> Option<Line<'_>>
    ensures { option_map line_told result ≡ helper_line text.now }
{
    if is_blank_text(text) {
        return None;
    }
    if text.len() > MAX_TEXT {
        return Some(Line::TooLong);
    }
    Some(Line::Text(text))
}

/// Whether a text is spaces and tabs alone.
pub fn is_blank_text(text: &[u8]) -> bool
    ensures { result ≡ list_all is_blank_byte text.now }
{
    text.iter().all(|b| is_blank(*b))
}

/// The first word of a text, and what stands behind the space that ends it.
pub fn first_word(text: &[u8]) -> Option<(&[u8], &[u8])>
    ensures found { IfSome result
        (λ parts. first_word text.now ≡ Some (parted parts.0.now parts.1.now)) }
    ensures none { IfNone result (first_word text.now ≡ None) }
{
    cut(text, b' ')
}

// The slot below a bound that a word names.
fn slot_below(word: &[u8], bound: u8) -> Option<usize>
    requires { bound < 256 }
    ensures { result ≡ number_below bound word.now }
{
    let Some(number) = octet(word) else {
        return None;
    };
    if number < bound {
        Some(number as usize)
    } else {
        None
    }
}

/// The number of 64 bits that a word spells in decimal digits, without leading zeros.
pub fn long(word: &[u8]) -> Option<u64>
    ensures { result ≡ number_below longs word.now }
{
    match str::from_utf8(word) {
        Ok(text) => long_in(text),
        Err(_) => None,
    }
}

// `parse` takes a sign and leading zeros too, so that the text is compared with the number's own.
fn long_in(text: &str) -> Option<u64>
    ensures { result ≡ number_below longs text.now }
{
    match text.parse::<u64>() {
        Ok(number) => {
            let mut buffer = Buffer::new();
            if buffer.format(number) == text {
                Some(number)
            } else {
                None
            }
        }
        Err(_) => None,
    }
}
