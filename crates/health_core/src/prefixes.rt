//! Reads prefixes and their next hop.
ghost use Rattle.std.specs.Prelude.{◌≡◌, None};
ghost use Rattle.route_grammar.specs.Numbers.{IsHop};
ghost use Rattle.text_forms.specs.Families.{IsBlockText};
ghost use Rattle.config_reader.specs.Answered.{Answers};
ghost use Rattle.config_reader.specs.Neighbors.{same_family};
ghost use Rattle.config_reader.specs.Words.{word_or};
ghost use Rattle.health_core.specs.Prefixes.{stands, addr_before, is_other, prefix_wrong};
ghost use Rattle.health_core.specs.Prefixes.{hop_wrong};
ghost use Rattle.health_core.specs.Prefixes.{prefix_more, prefixes_further, prefixes_listed};
ghost use Rattle.health_core.specs.Prefixes.{prefixes_at};
ghost use Rattle.health_core.specs.Prefixes.{hop_at};

use crate::health::MAX_PREFIXES;
use crate::spellings::{HopWord, PrefixWord};
use config_model::ConfigKind;
use config_reader::ConfigError;
use config_reader::words::{fault, front_value, is_mark, sign};
use route_values::{Addr, Hop, Items, Key, Keys, Prefix};
use std::alloc::Global;
use token_reader::{FileTokens, Words};

/// One prefix or more of one family, which is that of an address where one stands before, and `;`.
pub fn prefixes_at(
    alloc: Global,
    words: &mut FileTokens<'_>,
    hop: Option<Addr>,
) -> Result<Keys, ConfigError>
    ensures read { Answers (prefixes_at hop) words.old.end words.old.left words.new.left result }
    ensures end { words.new.end ≡ words.old.end }
{
    let keys = prefixes_listed(alloc, words, hop)?;
    sign(words, b';')?;
    Ok(keys)
}

// One prefix or more up to `;`.
fn prefixes_listed(
    alloc: Global,
    words: &mut FileTokens<'_>,
    hop: Option<Addr>,
) -> Result<Keys, ConfigError>
    ensures read { Answers (prefixes_listed hop) words.old.end words.old.left words.new.left
        result }
    ensures end { words.new.end ≡ words.old.end }
{
    let first = prefix_more(words, hop, Items::new(alloc))?;
    prefixes_further(words, hop, first)
}

// Further prefixes up to `;`.
fn prefixes_further(
    words: &mut FileTokens<'_>,
    hop: Option<Addr>,
    first: Keys,
) -> Result<Keys, ConfigError>
    ensures read { Answers (prefixes_further hop first) words.old.end words.old.left words.new.left
        result }
    ensures end { words.new.end ≡ words.old.end }
{
    let mut keys = first;
    'prefixes: while !is_mark(words, b';') {
        keys = prefix_more(words, hop, keys)?;
    }
    Ok(keys)
}

// A prefix behind others.
fn prefix_more(
    words: &mut FileTokens<'_>,
    hop: Option<Addr>,
    keys: Keys,
) -> Result<Keys, ConfigError>
    ensures read { Answers (prefix_more hop keys) words.old.end words.old.left words.new.left
        result }
    ensures end { words.new.end ≡ words.old.end }
{
    let prefix = prefix_at(words, hop, &keys)?;
    let mut all = keys;
    all.push(Key { prefix, id: 0 })?;
    Ok(all)
}

// A prefix with which nothing is wrong behind these.
fn prefix_at(
    words: &mut FileTokens<'_>,
    hop: Option<Addr>,
    keys: &Keys,
) -> Result<Prefix, ConfigError>
    ensures read { Answers (word_or IsBlockText (prefix_wrong hop keys.now)) words.old.end
        words.old.left words.new.left result }
    ensures end { words.new.end ≡ words.old.end }
{
    let Some(prefix) = front_value(words, &PrefixWord) else {
        return Err(fault(words, ConfigKind::Token));
    };
    if let Some(kind) = prefix_wrong(hop, keys.as_slice(), &prefix) {
        return Err(fault(words, kind));
    }
    words.advance();
    Ok(prefix)
}

// What is wrong with a prefix behind these.
fn prefix_wrong(hop: Option<Addr>, keys: &[Key], prefix: &Prefix) -> Option<ConfigKind>
    ensures { result ≡ prefix_wrong hop keys.now prefix.now }
{
    if stands(keys, prefix) {
        return Some(ConfigKind::Twice);
    }
    if is_other(addr_before(hop, keys), prefix.addr()) {
        return Some(ConfigKind::Family);
    }
    if keys.len() >= MAX_PREFIXES {
        return Some(ConfigKind::Many);
    }
    None
}

// Whether a prefix is among these.
fn stands(keys: &[Key], prefix: &Prefix) -> bool
    ensures { result ≡ stands prefix.now keys.now }
{
    let wanted = Key {
        prefix: *prefix,
        id: 0,
    };
    keys.iter().any(|key| key.is_same(&wanted))
}

// An address that stands before and gives the family.
fn addr_before(hop: Option<Addr>, keys: &[Key]) -> Option<Addr>
    ensures { result ≡ addr_before hop keys.now }
{
    match keys.first() {
        Some(key) => Some(key.prefix.addr()),
        None => hop,
    }
}

fn is_other(before: Option<Addr>, addr: Addr) -> bool
    ensures { result ≡ is_other before addr }
{
    match before {
        Some(before) => !same_family(before, addr),
        None => false,
    }
}

fn same_family(one: Addr, other: Addr) -> bool
    ensures { result ≡ same_family one other }
{
    match (one, other) {
        (Addr::V4(_), Addr::V4(_)) | (Addr::V6(_), Addr::V6(_)) => true,
        (Addr::V4(_), Addr::V6(_)) | (Addr::V6(_), Addr::V4(_)) => false,
    }
}

/// A next hop, of the family of these prefixes where it is an address, and `;`.
pub fn hop_at(words: &mut FileTokens<'_>, keys: &Keys) -> Result<Hop, ConfigError>
    ensures read { Answers (hop_at keys.now) words.old.end words.old.left words.new.left result }
    ensures end { words.new.end ≡ words.old.end }
{
    let hop = hop_like(words, keys)?;
    sign(words, b';')?;
    Ok(hop)
}

// A next hop with which nothing is wrong behind these prefixes.
fn hop_like(words: &mut FileTokens<'_>, keys: &Keys) -> Result<Hop, ConfigError>
    ensures read { Answers (word_or (IsHop None) (hop_wrong keys.now)) words.old.end words.old.left
        words.new.left result }
    ensures end { words.new.end ≡ words.old.end }
{
    let Some(hop) = front_value(words, &HopWord) else {
        return Err(fault(words, ConfigKind::Token));
    };
    if let Some(kind) = hop_wrong(keys.as_slice(), hop) {
        return Err(fault(words, kind));
    }
    words.advance();
    Ok(hop)
}

// What is wrong with a next hop behind these prefixes.
fn hop_wrong(keys: &[Key], hop: Hop) -> Option<ConfigKind>
    ensures { result ≡ hop_wrong keys.now hop }
{
    let Hop::Is(addr) = hop else {
        return None;
    };
    if is_other(addr_before(None, keys), addr) {
        Some(ConfigKind::Family)
    } else {
        None
    }
}
