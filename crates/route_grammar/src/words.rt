//! Words that spell values, and the tokens at which a reader stops.
ghost use Rattle.std.specs.Prelude.{◌≡◌, ◌↔◌, List, ℕ, Some, IfSome, IfNone, IsTrue};
ghost use Rattle.token_reader.specs.Tokens.{Mark, Word, front_token};
ghost use Rattle.route_grammar.specs.declared.fault.LineFault.TheVariants.{BadToken, TooMany};
ghost use Rattle.route_grammar.specs.declared.fault.ReadFault.TheVariants.{Line};
ghost use Rattle.route_grammar.specs.Limits.{in_force};
ghost use Rattle.route_grammar.specs.Productions.{OneWord, nothing_further};
ghost use Rattle.route_grammar.specs.Answered.{column, Answers};

use crate::fault::{LineFault, ReadFault};
use token_reader::{Token, Words};

/// A kind of word, which spells a value or none.
pub trait Spelling {
    /// What such a word spells.
    type Value: Drop;

    /// Which words spell which values.
    ghost spells: { Self → List ℕ → Self.Value → Type 0 };

    /// The value that a word spells, or None where it spells none.
    fn read(&self, word: &[u8]) -> Option<Self::Value>
        ensures found { IfSome result (λ value. spells self.now word.now value) }
        ensures only { IfSome result
            (λ value. (other : Self.Value) → spells self.now word.now other → other ≡ value) }
        ensures none { IfNone result
            ((other : Self.Value) → spells self.now word.now other → ⊥) };

    /// Some word spells a value.
    ghost is_some: { (kind : Self) → (word : List ℕ) × (value : Self.Value)
        × spells kind word value };
}

/// The value that the front word spells, which is then passed. Where the front token is no word or spells nothing, it
/// is a fault, and stands at the front still.
pub fn read_word<W: Words, S: Spelling>(words: &mut W, spelling: &S) -> Result<S::Value, ReadFault>
    ensures answers { Answers (OneWord (S.spells spelling.now)) nothing_further in_force
        (W.left words.old) (W.left words.new) (W.end words.new) result }
    ensures end { W.end words.new ≡ W.end words.old }
{
    let Some(value) = front_value(words, spelling) else {
        return Err(bad_token(words));
    };
    words.advance();
    Ok(value)
}

/// The value that the front word spells, or None where the front token is no word, or spells none.
pub fn front_value<W: Words, S: Spelling>(words: &W, spelling: &S) -> Option<S::Value>
    ensures found { IfSome result (λ value. (word : List ℕ)
        × (front_token (W.left words.now) ≡ Some (Word word)) × S.spells spelling.now word value
        × ((other : S.Value) → S.spells spelling.now word other → other ≡ value)) }
    ensures none { IfNone result ((word : List ℕ) (value : S.Value)
        → front_token (W.left words.now) ≡ Some (Word word)
        → S.spells spelling.now word value → ⊥) }
{
    match words.peek() {
        Some(Token::Word(word)) => spelling.read(word),
        _ => None,
    }
}

/// That the front token, or the end, goes on with no reading.
pub fn bad_token<W: Words>(words: &W) -> ReadFault
    ensures { result ≡ Line (BadToken (column (W.left words.now) (W.end words.now))) }
{
    ReadFault::Line(LineFault::BadToken {
        place: words.place().column,
    })
}

/// That the front token would be one element more than so many.
pub fn too_many<W: Words>(words: &W, limit: u32) -> ReadFault
    ensures { result ≡ Line (TooMany (column (W.left words.now) (W.end words.now)) limit) }
{
    ReadFault::Line(LineFault::TooMany {
        place: words.place().column,
        limit,
    })
}

/// Whether the front token is this sign.
pub fn is_mark<W: Words>(words: &W, sign: u8) -> bool
    ensures { IsTrue result ↔ (front_token (W.left words.now) ≡ Some (Mark sign)) }
{
    match words.peek() {
        Some(Token::Mark(front)) => front == sign,
        _ => false,
    }
}
