//! Reads the statements of a file.
ghost use Rattle.std.specs.Prelude.{◌≡◌};
ghost use Rattle.config_model.specs.declared.fault.ConfigKind.TheVariants as kind;
ghost use Rattle.health_core.specs.declared.keywords.Statement.TheVariants as says;
ghost use Rattle.config_reader.specs.Answered.{Answers};
ghost use Rattle.token_reader.specs.Tokens.{front_token};
ghost use Rattle.config_reader.specs.Rules.{is_end, where_so};
ghost use Rattle.config_reader.specs.Words.{word_or};
ghost use Rattle.health_core.specs.Statements.{unwritten, states, hop_before, statement_operand};
ghost use Rattle.health_core.specs.Statements.{statement_at, statements_read};
ghost use Rattle.health_core.specs.Words.{IsStatement};

use crate::keywords::Statement;
use crate::operands::{down_at, run_at};
use crate::prefixes::{hop_at, prefixes_at};
use crate::spellings::{LongWord, NumberWord, StatementWord};
use crate::written::Written;
use config_model::ConfigKind;
use config_reader::ConfigError;
use config_reader::words::{fault, front_value, word_ended};
use route_values::{Addr, Hop, Items};
use std::alloc::Global;
use token_reader::{FileTokens, Words};

// How many checks in a row may be asked for.
const MAX_TALLY: u32 = 1_000;

// How long a pause may be, in milliseconds: a day.
const MAX_PAUSE: u64 = 86_400_000;

// How many checks there may be: 2^40.
const MAX_TURNS: u64 = 1_099_511_627_776;

/// The statements of a file.
pub fn statements_read(alloc: Global, words: &mut FileTokens<'_>) -> Result<Written, ConfigError>
    ensures read { Answers statements_read words.old.end words.old.left words.new.left result }
    ensures end { words.new.end ≡ words.old.end }
{
    let mut written = unwritten(alloc);
    'statements: while !is_end(words) {
        written = statement_at(alloc, words, written)?;
    }
    Ok(written)
}

fn is_end(words: &FileTokens<'_>) -> bool
    ensures { result ≡ is_end (front_token words.now.left) }
{
    words.peek().is_none()
}

fn unwritten(alloc: Global) -> Written
    ensures { result ≡ unwritten }
{
    Written {
        rise: None,
        fall: None,
        every: None,
        turns: None,
        run: None,
        prefixes: Items::new(alloc),
        hop: None,
        up_med: None,
        down: None,
    }
}

// A statement besides those that are written.
fn statement_at(
    alloc: Global,
    words: &mut FileTokens<'_>,
    written: Written,
) -> Result<Written, ConfigError>
    ensures read { Answers (statement_at written) words.old.end words.old.left words.new.left
        result }
    ensures end { words.new.end ≡ words.old.end }
{
    let which = first_word(words, &written)?;
    statement_operand(alloc, words, written, which)
}

// The first word of a statement that isn't written.
fn first_word(words: &mut FileTokens<'_>, written: &Written) -> Result<Statement, ConfigError>
    ensures read { Answers
        (word_or IsStatement (λ which. where_so kind.Twice (states written.now which)))
        words.old.end words.old.left words.new.left result }
    ensures end { words.new.end ≡ words.old.end }
{
    let Some(which) = front_value(words, &StatementWord) else {
        return Err(fault(words, ConfigKind::Token));
    };
    if states(written, which) {
        return Err(fault(words, ConfigKind::Twice));
    }
    words.advance();
    Ok(which)
}

fn states(written: &Written, which: Statement) -> bool
    ensures { result ≡ states written.now which }
{
    match which {
        Statement::Rise => written.rise.is_some(),
        Statement::Fall => written.fall.is_some(),
        Statement::Every => written.every.is_some(),
        Statement::Turns => written.turns.is_some(),
        Statement::Run => written.run.is_some(),
        Statement::Prefix => !written.prefixes.as_slice().is_empty(),
        Statement::NextHop => written.hop.is_some(),
        Statement::UpMed => written.up_med.is_some(),
        Statement::Down => written.down.is_some(),
    }
}

// What stands behind the first word of a statement, besides what is written.
fn statement_operand(
    alloc: Global,
    words: &mut FileTokens<'_>,
    written: Written,
    which: Statement,
) -> Result<Written, ConfigError>
    ensures read { Answers (statement_operand written which) words.old.end words.old.left
        words.new.left result }
    ensures end { words.new.end ≡ words.old.end }
{
    match which {
        Statement::Rise => rise(words, written),
        Statement::Fall => fall(words, written),
        Statement::Every => every(words, written),
        Statement::Turns => turns(words, written),
        Statement::Run => run(words, written),
        Statement::Prefix => prefix(alloc, words, written),
        Statement::NextHop => next_hop(words, written),
        Statement::UpMed => up_med(words, written),
        Statement::Down => down(words, written),
    }
}

// After how many checks in a row the service is up.
fn rise(words: &mut FileTokens<'_>, written: Written) -> Result<Written, ConfigError>
    ensures read { Answers (statement_operand written says.Rise) words.old.end words.old.left
        words.new.left result }
    ensures end { words.new.end ≡ words.old.end }
{
    let value = word_ended(
        words,
        &NumberWord {
            least: 1,
            most: MAX_TALLY,
        },
    )?;
    Ok(Written {
        rise: Some(value),
        ..written
    })
}

// After how many it is down.
fn fall(words: &mut FileTokens<'_>, written: Written) -> Result<Written, ConfigError>
    ensures read { Answers (statement_operand written says.Fall) words.old.end words.old.left
        words.new.left result }
    ensures end { words.new.end ≡ words.old.end }
{
    let value = word_ended(
        words,
        &NumberWord {
            least: 1,
            most: MAX_TALLY,
        },
    )?;
    Ok(Written {
        fall: Some(value),
        ..written
    })
}

// The pause between checks.
fn every(words: &mut FileTokens<'_>, written: Written) -> Result<Written, ConfigError>
    ensures read { Answers (statement_operand written says.Every) words.old.end words.old.left
        words.new.left result }
    ensures end { words.new.end ≡ words.old.end }
{
    let value = word_ended(
        words,
        &LongWord {
            least: 1,
            most: MAX_PAUSE,
        },
    )?;
    Ok(Written {
        every: Some(value),
        ..written
    })
}

// How many checks are made.
fn turns(words: &mut FileTokens<'_>, written: Written) -> Result<Written, ConfigError>
    ensures read { Answers (statement_operand written says.Turns) words.old.end words.old.left
        words.new.left result }
    ensures end { words.new.end ≡ words.old.end }
{
    let value = word_ended(
        words,
        &LongWord {
            least: 1,
            most: MAX_TURNS,
        },
    )?;
    Ok(Written {
        turns: Some(value),
        ..written
    })
}

// The program.
fn run(words: &mut FileTokens<'_>, written: Written) -> Result<Written, ConfigError>
    ensures read { Answers (statement_operand written says.Run) words.old.end words.old.left
        words.new.left result }
    ensures end { words.new.end ≡ words.old.end }
{
    let value = run_at(words)?;
    Ok(Written {
        run: Some(value),
        ..written
    })
}

// The prefixes.
fn prefix(
    alloc: Global,
    words: &mut FileTokens<'_>,
    written: Written,
) -> Result<Written, ConfigError>
    ensures read { Answers (statement_operand written says.Prefix) words.old.end words.old.left
        words.new.left result }
    ensures end { words.new.end ≡ words.old.end }
{
    let prefixes = prefixes_at(alloc, words, hop_before(&written))?;
    Ok(Written {
        prefixes,
        ..written
    })
}

// Their next hop.
fn next_hop(words: &mut FileTokens<'_>, written: Written) -> Result<Written, ConfigError>
    ensures read { Answers (statement_operand written says.NextHop) words.old.end words.old.left
        words.new.left result }
    ensures end { words.new.end ≡ words.old.end }
{
    let value = hop_at(words, &written.prefixes)?;
    Ok(Written {
        hop: Some(value),
        ..written
    })
}

// The MED while the service is up.
fn up_med(words: &mut FileTokens<'_>, written: Written) -> Result<Written, ConfigError>
    ensures read { Answers (statement_operand written says.UpMed) words.old.end words.old.left
        words.new.left result }
    ensures end { words.new.end ≡ words.old.end }
{
    let value = word_ended(
        words,
        &NumberWord {
            least: 0,
            most: u32::MAX,
        },
    )?;
    Ok(Written {
        up_med: Some(value),
        ..written
    })
}

// What is done while it is down.
fn down(words: &mut FileTokens<'_>, written: Written) -> Result<Written, ConfigError>
    ensures read { Answers (statement_operand written says.Down) words.old.end words.old.left
        words.new.left result }
    ensures end { words.new.end ≡ words.old.end }
{
    let value = down_at(words)?;
    Ok(Written {
        down: Some(value),
        ..written
    })
}

// The address of the next hop that is written.
fn hop_before(written: &Written) -> Option<Addr>
    ensures { result ≡ hop_before written.now }
{
    match written.hop {
        Some(Hop::Is(addr)) => Some(addr),
        Some(Hop::Own) | None => None,
    }
}
