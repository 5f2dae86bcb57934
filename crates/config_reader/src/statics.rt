//! Static routes: a prefix and items, as in a line that announces it.
ghost use Rattle.std.specs.Prelude.{◌≡◌};
ghost use Rattle.config_reader.specs.Answered.{Answers};
ghost use Rattle.config_reader.specs.Rules.{is_sign, until};
ghost use Rattle.config_reader.specs.Statics.{items_at, route_wrong, route_statement, statics_at};
ghost use Rattle.config_reader.specs.Keyed.{kind_of, route_ended};

use crate::fault::ConfigError;
use crate::keyed::KeyedStatics;
use crate::spellings::{PrefixWord, Text};
use crate::words::{fault, is_mark, sign, sign_or, word};
use config_model::{ConfigKind, StaticRoute};
use route_grammar::{Items, LineFault, ReadFault, read_items};
use route_values::{Family, Key, Prefix};
use std::alloc::Global;
use token_reader::FileTokens;

/// Behind the word `static`: the routes between braces, behind these.
pub fn statics_at(
    alloc: Global,
    words: &mut FileTokens<'_>,
    routes: KeyedStatics,
) -> Result<KeyedStatics, ConfigError>
    ensures read { Answers (statics_at routes) words.old.end words.old.left words.new.left result }
    ensures end { words.new.end ≡ words.old.end }
{
    sign(words, b'{')?;
    let all = routes_listed(alloc, words, routes)?;
    sign(words, b'}')?;
    Ok(all)
}

// Routes up to a closing brace.
fn routes_listed(
    alloc: Global,
    words: &mut FileTokens<'_>,
    routes: KeyedStatics,
) -> Result<KeyedStatics, ConfigError>
    ensures read { Answers (until (is_sign 125) route_statement routes) words.old.end words.old.left
        words.new.left result }
    ensures end { words.new.end ≡ words.old.end }
{
    let mut all = routes;
    'listed: while !is_mark(words, b'}') {
        all = route_statement(alloc, words, all)?;
    }
    Ok(all)
}

// A route behind those before it.
fn route_statement(
    alloc: Global,
    words: &mut FileTokens<'_>,
    routes: KeyedStatics,
) -> Result<KeyedStatics, ConfigError>
    ensures read { Answers (route_statement routes) words.old.end words.old.left words.new.left
        result }
    ensures end { words.new.end ≡ words.old.end }
{
    word(words, &Text(b"route"))?;
    let prefix = word(words, &PrefixWord)?;
    let items = items_at(alloc, words, prefix.family())?;
    route_ended(words, routes, prefix, items)
}

// The items of a route of a family.
fn items_at(alloc: Global, words: &mut FileTokens<'_>, family: Family) -> Result<Items, ConfigError>
    ensures read { Answers (items_at family) words.old.end words.old.left words.new.left result }
    ensures end { words.new.end ≡ words.old.end }
{
    match read_items(alloc, words, Some(family)) {
        Ok(items) => Ok(items),
        Err(ReadFault::Line(line)) => Err(fault(words, kind_of(line))),
        Err(ReadFault::NoMemory) => Err(ConfigError::NoMemory),
    }
}

// The kind of a fault in items.
fn kind_of(fault: LineFault) -> ConfigKind
    ensures { result ≡ kind_of fault }
{
    match fault {
        LineFault::TooMany { .. } => ConfigKind::Many,
        LineFault::BadToken { .. } | LineFault::TooLong => ConfigKind::Token,
    }
}

// The end of a route, which is put behind those before it where nothing is wrong with it.
fn route_ended(
    words: &mut FileTokens<'_>,
    routes: KeyedStatics,
    prefix: Prefix,
    items: Items,
) -> Result<KeyedStatics, ConfigError>
    ensures read { Answers (route_ended routes prefix items) words.old.end words.old.left
        words.new.left result }
    ensures end { words.new.end ≡ words.old.end }
{
    sign_or(words, b';', route_wrong(&routes, prefix, &items))?;
    let all = routes.with(StaticRoute {
        key: Key {
            prefix,
            id: items.id,
        },
        attrs: items.attrs,
    })?;
    Ok(all)
}

// What is wrong with a route: no next hop, or a key that stood before.
fn route_wrong(routes: &KeyedStatics, prefix: Prefix, items: &Items) -> Option<ConfigKind>
    ensures { result ≡ route_wrong routes.now prefix items.now }
{
    if !items.has_hop {
        return Some(ConfigKind::Token);
    }
    let key = Key {
        prefix,
        id: items.id,
    };
    if routes.stood(&key) {
        return Some(ConfigKind::Twice);
    }
    None
}
