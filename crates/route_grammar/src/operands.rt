//! What stands behind the word of an item.
ghost use Rattle.std.specs.Prelude.{◌≡◌, Some};
ghost use Rattle.token_reader.specs.Tokens.{Mark, front_token};
ghost use Rattle.route_grammar.specs.Answered.{Answers};
ghost use Rattle.route_grammar.specs.Items.{Operand};
ghost use Rattle.route_grammar.specs.Limits.{in_force};
ghost use Rattle.route_grammar.specs.Lists.{AloneOrIn};
ghost use Rattle.route_grammar.specs.Productions.{nothing_further};

use crate::fault::ReadFault;
use crate::item_words::{
    AggregatorWord, CommunityWord, ExtendedWord, HopWord, LargeWord, OriginWord, PathIdWord,
};
use crate::items::Item;
use crate::kind::Kind;
use crate::lists::read_list;
use crate::path::read_path;
use crate::spellings::{Ipv4, Number};
use crate::words::{Spelling, bad_token, is_mark, read_word};
use route_values::{Family, MAX_CLUSTERS, MAX_COMMUNITIES, MAX_EXTENDED, MAX_LARGE};
use std::alloc::Global;
use token_reader::Words;

// How long the lists of a route may be.
const COMMUNITIES: u32 = MAX_COMMUNITIES as u32;

const CLUSTERS: u32 = MAX_CLUSTERS as u32;

const EXTENDED: u32 = MAX_EXTENDED as u32;

const LARGE: u32 = MAX_LARGE as u32;

/// What an item of a kind says behind its word.
pub fn read_operand<W: Words>(
    alloc: Global,
    words: &mut W,
    family: Option<Family>,
    kind: Kind,
) -> Result<Item, ReadFault>
    ensures answers { Answers (Operand family kind) nothing_further in_force (W.left words.old)
        (W.left words.new) (W.end words.new) result }
    ensures end { W.end words.new ≡ W.end words.old }
{
    match kind {
        Kind::NextHop => read_word(words, &HopWord { family }).map(Item::NextHop),
        Kind::Origin => read_word(words, &OriginWord).map(Item::Origin),
        Kind::Path => read_path(alloc, words).map(Item::Path),
        Kind::Med => read_word(words, &Number).map(Item::Med),
        Kind::LocalPref => read_word(words, &Number).map(Item::LocalPref),
        Kind::Atomic => Ok(Item::Atomic),
        Kind::Aggregator => read_alone_or_in(words, &AggregatorWord).map(Item::Aggregator),
        Kind::Communities => {
            read_list(alloc, words, &CommunityWord, COMMUNITIES).map(Item::Communities)
        }
        Kind::Originator => read_word(words, &Ipv4).map(Item::Originator),
        Kind::Clusters => read_list(alloc, words, &Ipv4, CLUSTERS).map(Item::Clusters),
        Kind::Extended => read_list(alloc, words, &ExtendedWord, EXTENDED).map(Item::Extended),
        Kind::Large => read_list(alloc, words, &LargeWord, LARGE).map(Item::Large),
        Kind::PathId => read_word(words, &PathIdWord).map(Item::PathId),
    }
}

// The value of one word, alone or between parentheses.
fn read_alone_or_in<W: Words, S: Spelling>(
    words: &mut W,
    spelling: &S,
) -> Result<S::Value, ReadFault>
    ensures answers { Answers (AloneOrIn (S.spells spelling.now)) nothing_further in_force
        (W.left words.old) (W.left words.new) (W.end words.new) result }
    ensures end { W.end words.new ≡ W.end words.old }
{
    if is_mark(words, b'(') {
        read_enclosed(words, spelling)
    } else {
        read_word(words, spelling)
    }
}

// The value of one word between parentheses.
fn read_enclosed<W: Words, S: Spelling>(words: &mut W, spelling: &S) -> Result<S::Value, ReadFault>
    requires { front_token (W.left words.old) ≡ Some (Mark 40) }
    ensures answers { Answers (AloneOrIn (S.spells spelling.now)) nothing_further in_force
        (W.left words.old) (W.left words.new) (W.end words.new) result }
    ensures end { W.end words.new ≡ W.end words.old }
{
    words.advance();
    let value = read_word(words, spelling)?;
    if !is_mark(words, b')') {
        return Err(bad_token(words));
    }
    words.advance();
    Ok(value)
}
