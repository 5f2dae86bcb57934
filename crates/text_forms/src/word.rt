//! The words of a line.
ghost use Rattle.std.specs.Prelude.{◌≡◌, ◌<◌, ◌≤◌, [], ◌∷◌, true, false, map, take, drop, length};
ghost use Rattle.std.specs.Prelude.{IfSome, IfNone, IfOk};
ghost use Rattle.text_forms.specs.Blanks.{is_blank_byte, HasNoBlank, IsBehindBlanks};
ghost use Rattle.text_forms.specs.Words.{begins_word, words_of, IsFirstWord};

use route_values::NoMemory;
use std::alloc::Global;

/// Whether a byte is a space or a tab, which part words and are part of none.
pub fn is_blank(byte: u8) -> bool
    ensures { result ≡ is_blank_byte byte }
{
    byte == b' ' || byte == b'\t'
}

/// The first word, and all that follows it; None where the text has no word.
pub fn first_word(text: &[u8]) -> Option<(&[u8], &[u8])>
    ensures place { IfSome result (λ parts. IsFirstWord text.now parts.0.now parts.1.now) }
    ensures found { IfSome result
        (λ parts. words_of text.now ≡ parts.0.now ∷ words_of parts.1.now) }
    ensures shorter { IfSome result (λ parts. length parts.1.now < length text.now) }
    ensures none { IfNone result (words_of text.now ≡ []) }
{
    let rest = without_blanks(text);
    let len = word_len(rest);
    if len == 0 {
        None
    } else {
        Some(rest.split_at(len))
    }
}

/// The words of a line, in order. Every byte that is no space and no tab is part of a word.
pub fn words(alloc: Global, line: &[u8]) -> Result<Vec<&[u8]>, NoMemory>
    ensures { IfOk result (λ found. map (λ word. word.now) found.items ≡ words_of line.now) }
{
    let mut words = Vec::new(alloc);
    let mut rest = line;
    'words: while let Some((word, after)) = first_word(rest) {
        words.push(word)?;
        rest = after;
    }
    Ok(words)
}

// What is left behind spaces and tabs.
fn without_blanks(text: &[u8]) -> &[u8]
    ensures behind { IsBehindBlanks text.now result.now }
    ensures begins { 0 < length result.now → begins_word result.now ≡ true }
{
    let mut rest = text;
    'blanks: while let Some((b, after)) = rest.split_first() {
        if !is_blank(*b) {
            break;
        }
        rest = after;
    }
    rest
}

// How long the word is that a text begins with.
fn word_len(text: &[u8]) -> usize
    ensures within { result ≤ length text.now }
    ensures word { HasNoBlank (take result text.now) }
    ensures end { begins_word (drop result text.now) ≡ false }
{
    for (i, b) in text.iter().enumerate() {
        if is_blank(*b) {
            return i;
        }
    }
    text.len()
}
