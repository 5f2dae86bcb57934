//! The section of a process.
ghost use Rattle.std.specs.Prelude.{◌≡◌, is_some, is_none};
ghost use Rattle.config_model.specs.declared.fault.ConfigKind.TheVariants as kind;
ghost use Rattle.config_model.specs.Sections.{place_of_name};
ghost use Rattle.config_reader.specs.Answered.{Answers};
ghost use Rattle.config_reader.specs.Rules.{where_so};
ghost use Rattle.config_reader.specs.Words.{word_or, IsName};
ghost use Rattle.config_reader.specs.Processes.{IsProcessStatement, process_has, process_unwritten};
ghost use Rattle.config_reader.specs.Processes.{run_words, process_operand, process_statement};
ghost use Rattle.config_reader.specs.Processes.{process_statements, process_closed, process_at};

use crate::fault::ConfigError;
use crate::first_words::ProcessWord;
use crate::joined::words_joined;
use crate::keywords::ProcessStatement;
use crate::spellings::{EncoderWord, NameWord, TruthWord};
use crate::words::{fault, front_value, is_mark, sign, sign_or, word_ended};
use crate::written::ProcessWritten;
use arrayvec::ArrayVec;
use config_model::{ConfigKind, MAX_RUN, Name, Process, place_of_process};
use token_reader::{FileTokens, Words};

/// The process behind the word `process`, whose name none of these has.
pub fn process_at(words: &mut FileTokens<'_>, stood: &[Process]) -> Result<Process, ConfigError>
    ensures read { Answers (process_at stood.now) words.old.end words.old.left words.new.left
        result }
    ensures end { words.new.end ≡ words.old.end }
{
    let name = name_at(words, stood)?;
    sign(words, b'{')?;
    let written = process_statements(words)?;
    process_closed(words, name, written)
}

// Statements up to a closing brace.
fn process_statements(words: &mut FileTokens<'_>) -> Result<ProcessWritten, ConfigError>
    ensures read { Answers process_statements words.old.end words.old.left words.new.left result }
    ensures end { words.new.end ≡ words.old.end }
{
    let mut written = unwritten();
    'statements: while !is_mark(words, b'}') {
        written = process_statement(words, written)?;
    }
    Ok(written)
}

// The process, where `run` is written and its section ends here.
fn process_closed(
    words: &mut FileTokens<'_>,
    name: Name,
    written: ProcessWritten,
) -> Result<Process, ConfigError>
    ensures read { Answers (process_closed name written) words.old.end words.old.left
        words.new.left result }
    ensures end { words.new.end ≡ words.old.end }
{
    sign_or(words, b'}', missing(&written))?;
    let ProcessWritten { run, json, respawn } = written;
    let Some(run) = run else { unreachable!() };
    Ok(Process {
        name,
        run,
        json: json.unwrap_or(false),
        respawn: respawn.unwrap_or(true),
    })
}

fn missing(written: &ProcessWritten) -> Option<ConfigKind>
    ensures { result ≡ where_so kind.Missing (is_none written.now.run) }
{
    if written.run.is_none() {
        Some(ConfigKind::Missing)
    } else {
        None
    }
}

// A name that none of these processes has.
fn name_at(words: &mut FileTokens<'_>, stood: &[Process]) -> Result<Name, ConfigError>
    ensures read { Answers
        (word_or IsName
        (λ name. where_so kind.Twice (is_some (place_of_name stood.now name.items))))
        words.old.end words.old.left words.new.left result }
    ensures end { words.new.end ≡ words.old.end }
{
    let Some(name) = front_value(words, &NameWord) else {
        return Err(fault(words, ConfigKind::Token));
    };
    if place_of_process(stood, name.as_slice()).is_some() {
        return Err(fault(words, ConfigKind::Twice));
    }
    words.advance();
    Ok(name)
}

fn unwritten() -> ProcessWritten
    ensures { result ≡ process_unwritten }
{
    ProcessWritten {
        run: None,
        json: None,
        respawn: None,
    }
}

// A statement besides those that are written.
fn process_statement(
    words: &mut FileTokens<'_>,
    written: ProcessWritten,
) -> Result<ProcessWritten, ConfigError>
    ensures read { Answers (process_statement written) words.old.end words.old.left
        words.new.left result }
    ensures end { words.new.end ≡ words.old.end }
{
    let which = statement_at(words, &written)?;
    process_operand(words, written, which)
}

// The first word of a statement that isn't written.
fn statement_at(
    words: &mut FileTokens<'_>,
    written: &ProcessWritten,
) -> Result<ProcessStatement, ConfigError>
    ensures read { Answers
        (word_or IsProcessStatement (λ which. where_so kind.Twice (process_has written.now which)))
        words.old.end words.old.left words.new.left result }
    ensures end { words.new.end ≡ words.old.end }
{
    let Some(which) = front_value(words, &ProcessWord) else {
        return Err(fault(words, ConfigKind::Token));
    };
    if has(written, which) {
        return Err(fault(words, ConfigKind::Twice));
    }
    words.advance();
    Ok(which)
}

fn has(written: &ProcessWritten, which: ProcessStatement) -> bool
    ensures { result ≡ process_has written.now which }
{
    match which {
        ProcessStatement::Run => written.run.is_some(),
        ProcessStatement::Encoder => written.json.is_some(),
        ProcessStatement::Respawn => written.respawn.is_some(),
    }
}

// What stands behind the first word of a statement, besides what is written.
fn process_operand(
    words: &mut FileTokens<'_>,
    written: ProcessWritten,
    which: ProcessStatement,
) -> Result<ProcessWritten, ConfigError>
    ensures read { Answers (process_operand written which) words.old.end words.old.left
        words.new.left result }
    ensures end { words.new.end ≡ words.old.end }
{
    let mut with = written;
    match which {
        ProcessStatement::Run => with.run = Some(run_words(words)?),
        ProcessStatement::Encoder => with.json = Some(word_ended(words, &EncoderWord)?),
        ProcessStatement::Respawn => with.respawn = Some(word_ended(words, &TruthWord)?),
    }
    Ok(with)
}

// The words of `run`, joined by zero bytes, and `;`.
fn run_words(words: &mut FileTokens<'_>) -> Result<ArrayVec<u8, MAX_RUN>, ConfigError>
    ensures read { Answers run_words words.old.end words.old.left words.new.left result }
    ensures end { words.new.end ≡ words.old.end }
{
    let joined = words_joined(words)?;
    sign_or(words, b';', joined.wrong())?;
    Ok(joined.bytes)
}
