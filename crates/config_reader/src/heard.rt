//! The processes that a neighbour hears.
ghost use Rattle.std.specs.Prelude.{◌≡◌};
ghost use Rattle.config_reader.specs.Answered.{Answers};
ghost use Rattle.config_reader.specs.Heard.{section_name, heard_opened, heard_closed, heard_at};
ghost use Rattle.config_reader.specs.Heard.{name_heard, comma_heard, further_heard};
ghost use Rattle.config_reader.specs.Heard.{names_further, names_listed, names_heard};

use crate::fault::ConfigError;
use crate::spellings::{NameWord, Text};
use crate::words::{is_mark, sign, word};
use crate::written::Heard;
use route_values::Items;
use token_reader::{FileTokens, Words};

/// Behind the word `api`: the names that are listed there, behind these.
pub fn heard_at(
    words: &mut FileTokens<'_>,
    heard: Items<Heard>,
) -> Result<Items<Heard>, ConfigError>
    ensures read { Answers (heard_at heard) words.old.end words.old.left words.new.left result }
    ensures end { words.new.end ≡ words.old.end }
{
    heard_opened(words)?;
    let all = names_heard(words, heard)?;
    heard_closed(words)?;
    Ok(all)
}

// What stands before the names.
fn heard_opened(words: &mut FileTokens<'_>) -> Result<(), ConfigError>
    ensures read { Answers heard_opened words.old.end words.old.left words.new.left result }
    ensures end { words.new.end ≡ words.old.end }
{
    section_name(words)?;
    sign(words, b'{')?;
    word(words, &Text(b"processes"))?;
    sign(words, b'[')
}

// What stands behind them.
fn heard_closed(words: &mut FileTokens<'_>) -> Result<(), ConfigError>
    ensures read { Answers heard_closed words.old.end words.old.left words.new.left result }
    ensures end { words.new.end ≡ words.old.end }
{
    sign(words, b']')?;
    sign(words, b';')?;
    sign(words, b'}')
}

// A name of the section, if it has one.
fn section_name(words: &mut FileTokens<'_>) -> Result<(), ConfigError>
    ensures read { Answers section_name words.old.end words.old.left words.new.left result }
    ensures end { words.new.end ≡ words.old.end }
{
    if is_mark(words, b'{') {
        return Ok(());
    }
    word(words, &NameWord)?;
    Ok(())
}

// Names up to a bracket.
fn names_heard(words: &mut FileTokens<'_>, heard: Items<Heard>) -> Result<Items<Heard>, ConfigError>
    ensures read { Answers (names_heard heard) words.old.end words.old.left words.new.left
        result }
    ensures end { words.new.end ≡ words.old.end }
{
    if is_mark(words, b']') {
        return Ok(heard);
    }
    names_listed(words, heard)
}

// At least one name.
fn names_listed(
    words: &mut FileTokens<'_>,
    heard: Items<Heard>,
) -> Result<Items<Heard>, ConfigError>
    ensures read { Answers (names_listed heard) words.old.end words.old.left words.new.left
        result }
    ensures end { words.new.end ≡ words.old.end }
{
    let first = name_heard(words, heard)?;
    names_further(words, first)
}

// The names behind the first one.
fn names_further(
    words: &mut FileTokens<'_>,
    first: Items<Heard>,
) -> Result<Items<Heard>, ConfigError>
    ensures read { Answers (names_further first) words.old.end words.old.left words.new.left
        result }
    ensures end { words.new.end ≡ words.old.end }
{
    let mut all = first;
    'names: while !is_mark(words, b']') {
        all = further_heard(words, all)?;
    }
    Ok(all)
}

// A further name, with or without a comma before it.
fn further_heard(
    words: &mut FileTokens<'_>,
    heard: Items<Heard>,
) -> Result<Items<Heard>, ConfigError>
    ensures read { Answers (further_heard heard) words.old.end words.old.left words.new.left
        result }
    ensures end { words.new.end ≡ words.old.end }
{
    if is_mark(words, b',') {
        return comma_heard(words, heard);
    }
    name_heard(words, heard)
}

// A comma and a name.
fn comma_heard(words: &mut FileTokens<'_>, heard: Items<Heard>) -> Result<Items<Heard>, ConfigError>
    ensures read { Answers (comma_heard heard) words.old.end words.old.left words.new.left
        result }
    ensures end { words.new.end ≡ words.old.end }
{
    sign(words, b',')?;
    name_heard(words, heard)
}

// A name behind those before it, and where it stands.
fn name_heard(words: &mut FileTokens<'_>, heard: Items<Heard>) -> Result<Items<Heard>, ConfigError>
    ensures read { Answers (name_heard heard) words.old.end words.old.left words.new.left result }
    ensures end { words.new.end ≡ words.old.end }
{
    let place = words.place();
    let name = word(words, &NameWord)?;
    let mut all = heard;
    all.push(Heard { name, place })?;
    Ok(all)
}
