//! Sections that list families.
ghost use Rattle.std.specs.Prelude.{◌≡◌};
ghost use Rattle.config_model.specs.declared.fault.ConfigKind.TheVariants as kind;
ghost use Rattle.config_reader.specs.Answered.{Answers};
ghost use Rattle.config_reader.specs.Rules.{where_so};
ghost use Rattle.config_reader.specs.Words.{word_or};
ghost use Rattle.config_reader.specs.Families.{IsFamilyWord, no_family, lists, with_family};
ghost use Rattle.config_reader.specs.Families.{family_statement, families_listed, families_at};

use crate::fault::ConfigError;
use crate::spellings::{FamilyWord, Text};
use crate::words::{fault, front_value, is_mark, sign, word};
use crate::written::Families;
use config_model::ConfigKind;
use route_values::Family;
use token_reader::{FileTokens, Words};

/// Families between braces.
pub fn families_at(words: &mut FileTokens<'_>) -> Result<Families, ConfigError>
    ensures read { Answers families_at words.old.end words.old.left words.new.left result }
    ensures end { words.new.end ≡ words.old.end }
{
    sign(words, b'{')?;
    let listed = families_listed(words)?;
    sign(words, b'}')?;
    Ok(listed)
}

// Families up to a closing brace.
fn families_listed(words: &mut FileTokens<'_>) -> Result<Families, ConfigError>
    ensures read { Answers families_listed words.old.end words.old.left words.new.left result }
    ensures end { words.new.end ≡ words.old.end }
{
    let mut listed = no_family();
    'families: while !is_mark(words, b'}') {
        listed = family_statement(words, listed)?;
    }
    Ok(listed)
}

fn no_family() -> Families
    ensures { result ≡ no_family }
{
    Families {
        ipv4: false,
        ipv6: false,
    }
}

// A family besides those that are listed.
fn family_statement(words: &mut FileTokens<'_>, listed: Families) -> Result<Families, ConfigError>
    ensures read { Answers (family_statement listed) words.old.end words.old.left words.new.left
        result }
    ensures end { words.new.end ≡ words.old.end }
{
    let family = family_at(words, &listed)?;
    word(words, &Text(b"unicast"))?;
    sign(words, b';')?;
    Ok(with(listed, family))
}

// The word of a family that isn't listed.
fn family_at(words: &mut FileTokens<'_>, listed: &Families) -> Result<Family, ConfigError>
    ensures read { Answers
        (word_or IsFamilyWord (λ family. where_so kind.Twice (lists listed.now family)))
        words.old.end words.old.left words.new.left result }
    ensures end { words.new.end ≡ words.old.end }
{
    let Some(family) = front_value(words, &FamilyWord) else {
        return Err(fault(words, ConfigKind::Token));
    };
    if lists(listed, family) {
        return Err(fault(words, ConfigKind::Twice));
    }
    words.advance();
    Ok(family)
}

/// Whether a family is listed.
pub fn lists(listed: &Families, family: Family) -> bool
    ensures { result ≡ lists listed.now family }
{
    match family {
        Family::Ipv4 => listed.ipv4,
        Family::Ipv6 => listed.ipv6,
    }
}

fn with(listed: Families, family: Family) -> Families
    ensures { result ≡ with_family listed family }
{
    match family {
        Family::Ipv4 => Families {
            ipv4: true,
            ..listed
        },
        Family::Ipv6 => Families {
            ipv6: true,
            ..listed
        },
    }
}
