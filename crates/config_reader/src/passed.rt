//! Words that mean nothing.
ghost use Rattle.std.specs.Prelude.{◌≡◌};
ghost use Rattle.config_reader.specs.Answered.{Answers};
ghost use Rattle.config_reader.specs.Neighbors.{word_passed, words_further, words_passed};

use crate::fault::ConfigError;
use crate::words::{fault, front_bytes, is_mark, sign};
use config_model::ConfigKind;
use token_reader::{FileTokens, Words};

/// Words that mean nothing, of which there is one at least, and `;`.
pub fn words_passed(words: &mut FileTokens<'_>) -> Result<(), ConfigError>
    ensures read { Answers words_passed words.old.end words.old.left words.new.left result }
    ensures end { words.new.end ≡ words.old.end }
{
    word_passed(words)?;
    words_further(words)?;
    sign(words, b';')
}

// Words up to `;`.
fn words_further(words: &mut FileTokens<'_>) -> Result<(), ConfigError>
    ensures read { Answers words_further words.old.end words.old.left words.new.left result }
    ensures end { words.new.end ≡ words.old.end }
{
    'words: while !is_mark(words, b';') {
        word_passed(words)?;
    }
    Ok(())
}

// A word, which may be a quoted one.
fn word_passed(words: &mut FileTokens<'_>) -> Result<(), ConfigError>
    ensures read { Answers (word_passed tt) words.old.end words.old.left words.new.left result }
    ensures end { words.new.end ≡ words.old.end }
{
    if front_bytes(words).is_none() {
        return Err(fault(words, ConfigKind::Token));
    }
    words.advance();
    Ok(())
}
