//! Lists of values: one word, or words between brackets.
ghost use Rattle.std.specs.Prelude.{◌≡◌, ◌<◌, ◌^◌, Some};
ghost use Rattle.token_reader.specs.Tokens.{Mark, front_token};
ghost use Rattle.route_grammar.specs.Limits.{Counted, in_force};
ghost use Rattle.route_grammar.specs.Productions.{OneWord, Saying, Bracketed, nothing_further};
ghost use Rattle.route_grammar.specs.Answered.{Answers, IsNoRoom};
ghost use Rattle.route_grammar.specs.Lists.{ListOf, AreFew, opening_bracket, closing_bracket};
ghost use Rattle.route_grammar.specs.Lists.{single};

use crate::fault::ReadFault;
use crate::words::{Spelling, bad_token, front_value, is_mark, read_word, too_many};
use route_values::Items;
use std::alloc::Global;
use token_reader::Words;

/// The values of one word, or of at most so many words between brackets.
pub fn read_list<W: Words, S: Spelling>(
    alloc: Global,
    words: &mut W,
    spelling: &S,
    limit: u32,
) -> Result<Items<S::Value>, ReadFault>
    ensures answers { (which : Counted) → limit ≡ in_force which
        → Answers (ListOf which (S.spells spelling.now)) nothing_further in_force
        (W.left words.old) (W.left words.new) (W.end words.new) result }
    ensures end { W.end words.new ≡ W.end words.old }
{
    if is_mark(words, b'[') {
        read_bracketed(alloc, words, spelling, limit)
    } else {
        read_single(alloc, words, spelling)
    }
}

// The value of one word.
fn read_single<W: Words, S: Spelling>(
    alloc: Global,
    words: &mut W,
    spelling: &S,
) -> Result<Items<S::Value>, ReadFault>
    ensures answers { Answers (Saying single (OneWord (S.spells spelling.now))) nothing_further
        in_force (W.left words.old) (W.left words.new) (W.end words.new) result }
    ensures end { W.end words.new ≡ W.end words.old }
{
    let value = read_word(words, spelling)?;
    let mut values = Items::new(alloc);
    values.push(value)?;
    Ok(values)
}

// The values of words between brackets.
fn read_bracketed<W: Words, S: Spelling>(
    alloc: Global,
    words: &mut W,
    spelling: &S,
    limit: u32,
) -> Result<Items<S::Value>, ReadFault>
    requires { front_token (W.left words.old) ≡ Some (Mark 91) }
    ensures answers { (which : Counted) → limit ≡ in_force which
        → Answers (Bracketed opening_bracket closing_bracket (OneWord (S.spells spelling.now))
        (AreFew which)) nothing_further in_force (W.left words.old) (W.left words.new)
        (W.end words.new) result }
    ensures end { W.end words.new ≡ W.end words.old }
{
    words.advance();
    let mut values = Items::new(alloc);
    'values: while !is_mark(words, b']') {
        if values.len() >= limit as usize {
            return Err(no_room(words, spelling, limit));
        }
        let value = read_word(words, spelling)?;
        values.push(value)?;
    }
    words.advance();
    Ok(values)
}

/// That there is no room for the front token: it would be one element too many, or is none.
pub fn no_room<W: Words, S: Spelling>(words: &W, spelling: &S, limit: u32) -> ReadFault
    ensures { IsNoRoom (S.spells spelling.now) (W.left words.now) (W.end words.now) limit result }
{
    match front_value(words, spelling) {
        Some(_) => too_many(words, limit),
        None => bad_token(words),
    }
}
