//! The kinds of words that a file of a health check has.
ghost use Rattle.std.specs.Prelude.{◌≡◌, ◌≢◌, ◌↔◌, ◌<◌, ◌^◌, ℕ, decimal, IsTrue, IfSome, IfNone};

use crate::keywords::Statement;
use config_reader::words::Kind;
use itoa::Buffer;
use route_values::{Hop, Prefix};
use text_forms::{addr, number, prefix};

/// The first word of a statement.
pub struct StatementWord;

impl Kind for StatementWord {
    ghost use Rattle.health_core.specs.Words.{IsStatement};

    type Value = Statement;

    ghost spells = { λ kind word value. IsStatement word value };

    fn read(&self, word: &[u8]) -> Option<Statement> {
        if is(word, b"rise") {
            return Some(Statement::Rise);
        }
        if is(word, b"fall") {
            return Some(Statement::Fall);
        }
        if is(word, b"every") {
            return Some(Statement::Every);
        }
        if is(word, b"turns") {
            return Some(Statement::Turns);
        }
        if is(word, b"run") {
            return Some(Statement::Run);
        }
        if is(word, b"prefix") {
            return Some(Statement::Prefix);
        }
        if is(word, b"next-hop") {
            return Some(Statement::NextHop);
        }
        if is(word, b"up-med") {
            return Some(Statement::UpMed);
        }
        if is(word, b"down") {
            return Some(Statement::Down);
        }
        None
    }
}

/// A number of 32 bits between two others, both taken in.
pub struct NumberWord {
    pub least: u32,
    pub most: u32,
}

impl Kind for NumberWord {
    ghost use Rattle.health_core.specs.Words.{IsBetween};

    type Value = u32;

    ghost spells = { λ kind word value. IsBetween kind.least kind.most word value };

    fn read(&self, word: &[u8]) -> Option<u32> {
        let (least, most) = (self.least, self.most);
        let number = number(word)?;
        if number < least || number > most {
            return None;
        }
        Some(number)
    }
}

/// A number of 64 bits between two others, both taken in.
pub struct LongWord {
    pub least: u64,
    pub most: u64,
}

impl Kind for LongWord {
    ghost use Rattle.health_core.specs.Words.{IsBetween};

    type Value = u64;

    ghost spells = { λ kind word value. IsBetween kind.least kind.most word value };

    fn read(&self, word: &[u8]) -> Option<u64> {
        let (least, most) = (self.least, self.most);
        let number = long(word)?;
        if number < least || number > most {
            return None;
        }
        Some(number)
    }
}

/// A next hop.
pub struct HopWord;

impl Kind for HopWord {
    ghost use Rattle.std.specs.Prelude.{None};
    ghost use Rattle.route_grammar.specs.Numbers.{IsHop};

    type Value = Hop;

    ghost spells = { λ kind word value. IsHop None word value };

    fn read(&self, word: &[u8]) -> Option<Hop> {
        if is(word, b"self") {
            return Some(Hop::Own);
        }
        let addr = addr(word)?;
        Some(Hop::Is(addr))
    }
}

/// A prefix of either family.
pub struct PrefixWord;

impl Kind for PrefixWord {
    ghost use Rattle.text_forms.specs.Families.{IsBlockText};

    type Value = Prefix;

    ghost spells = { λ kind word value. IsBlockText word value };

    fn read(&self, word: &[u8]) -> Option<Prefix> {
        prefix(word)
    }
}

/// What is done while the service is down: whether it is announced with a MED.
pub struct DownWord;

impl Kind for DownWord {
    ghost use Rattle.health_core.specs.Words.{IsDownWord};

    type Value = bool;

    ghost spells = { λ kind word value. IsDownWord word value };

    fn read(&self, word: &[u8]) -> Option<bool> {
        if is(word, b"med") {
            return Some(true);
        }
        if is(word, b"withdraw") {
            return Some(false);
        }
        None
    }
}

// The number below 2^64 that a word spells in decimal digits: no sign, and no leading zero but in `0` itself.
fn long(word: &[u8]) -> Option<u64>
    ensures found { IfSome result (λ number. word.now ≡ decimal number) }
    ensures only { IfSome result
        (λ number. (other : ℕ) → other < 2 ^ 64 → word.now ≡ decimal other → other ≡ number) }
    ensures none { IfNone result ((other : ℕ) → other < 2 ^ 64 → word.now ≢ decimal other) }
{
    match str::from_utf8(word) {
        Ok(text) => long_in(text),
        Err(_) => None,
    }
}

// `parse` takes a sign and leading zeros too, so that the text is compared with the number's own.
fn long_in(text: &str) -> Option<u64>
    ensures found { IfSome result (λ number. text.now ≡ decimal number) }
    ensures only { IfSome result
        (λ number. (other : ℕ) → other < 2 ^ 64 → text.now ≡ decimal other → other ≡ number) }
    ensures none { IfNone result ((other : ℕ) → other < 2 ^ 64 → text.now ≢ decimal other) }
{
    match text.parse::<u64>() {
        Ok(number) => {
            let mut buffer = Buffer::new();
            if buffer.format(number) == text {
                Some(number)
            } else {
                None
            }
        }
        Err(_) => None,
    }
}

// Whether a word is this text.
fn is(word: &[u8], text: &[u8]) -> bool
    ensures { IsTrue result ↔ (word.now ≡ text.now) }
{
    word == text
}
