//! Reads prefixes of one family.
ghost use Rattle.std.specs.Prelude.{◌≡◌, ◌↔◌, ℕ, List, Some, IsTrue, IfSome, IfNone};
ghost use Rattle.route_values.specs.Prefix.{Block};
ghost use Rattle.token_reader.specs.Tokens.{Word, front_token};
ghost use Rattle.route_grammar.specs.Answered.{Answers, IsNoRoom};
ghost use Rattle.route_grammar.specs.Limits.{in_force};
ghost use Rattle.route_grammar.specs.Numbers.{IsOfFamily};
ghost use Rattle.route_grammar.specs.Productions.{OneWord, nothing_further, all_further};
ghost use Rattle.command_grammar.specs.Routes.{IsBlockOf, KeysOf};

use crate::words::{bad_token, front_word, is_end};
use route_grammar::{ReadFault, too_many};
use route_values::{Family, Items, Key, Keys, Prefix};
use std::alloc::Global;
use text_forms::prefix;
use token_reader::{Tokens, Words};

// The most prefixes of a line.
const MAX_PREFIXES: u32 = 1_024;

/// The keys of prefixes with an identifier, up to the line's end. The first prefix has the wanted family, where one is
/// wanted, and all others have that of the first.
pub fn keys_at(
    alloc: Global,
    words: &mut Tokens<'_>,
    id: u32,
    wanted: Option<Family>,
) -> Result<Keys, ReadFault>
    ensures read { Answers (KeysOf id wanted) all_further in_force words.old.left words.new.left
        words.new.end result }
    ensures end { words.new.end ≡ words.old.end }
{
    let first = block_at(words, wanted)?;
    let family = first.family();
    let mut keys = Items::new(alloc);
    keys.push(Key { prefix: first, id })?;
    'prefixes: while !is_end(words) {
        if keys.len() >= MAX_PREFIXES as usize {
            return Err(no_room(words, Some(family)));
        }
        let prefix = block_at(words, Some(family))?;
        keys.push(Key { prefix, id })?;
    }
    Ok(keys)
}

// A prefix of the wanted family, where one is wanted.
fn block_at(words: &mut Tokens<'_>, wanted: Option<Family>) -> Result<Prefix, ReadFault>
    ensures read { Answers (OneWord (IsBlockOf wanted)) nothing_further in_force words.old.left
        words.new.left words.new.end result }
    ensures end { words.new.end ≡ words.old.end }
{
    let Some(prefix) = front_block(words, wanted) else {
        return Err(bad_token(words));
    };
    words.advance();
    Ok(prefix)
}

// That there is no room for the front token: it would be one prefix too many, or is none.
fn no_room(words: &Tokens<'_>, wanted: Option<Family>) -> ReadFault
    ensures { IsNoRoom (IsBlockOf wanted) words.now.left words.now.end MAX_PREFIXES result }
{
    match front_block(words, wanted) {
        Some(_) => too_many(words, MAX_PREFIXES),
        None => bad_token(words),
    }
}

// The prefix that the front word spells, if it has the wanted family, where one is wanted.
fn front_block(words: &Tokens<'_>, wanted: Option<Family>) -> Option<Prefix>
    ensures found { IfSome result (λ prefix. (word : List ℕ)
        × (front_token words.now.left ≡ Some (Word word)) × IsBlockOf wanted word prefix
        × ((other : Block) → IsBlockOf wanted word other → other ≡ prefix)) }
    ensures none { IfNone result ((word : List ℕ) (block : Block)
        → front_token words.now.left ≡ Some (Word word) → IsBlockOf wanted word block → ⊥) }
{
    let Some(word) = front_word(words) else {
        return None;
    };
    let Some(prefix) = prefix(word) else {
        return None;
    };
    if !is_wanted(&prefix, wanted) {
        return None;
    }
    Some(prefix)
}

fn is_wanted(prefix: &Prefix, wanted: Option<Family>) -> bool
    ensures { IsTrue result ↔ IsOfFamily wanted prefix.now.addr }
{
    match wanted {
        Some(family) => prefix.family() == family,
        None => true,
    }
}
