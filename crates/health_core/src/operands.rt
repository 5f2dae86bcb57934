//! Reads what stands behind the words `run` and `down`.
ghost use Rattle.std.specs.Prelude.{◌≡◌};
ghost use Rattle.config_reader.specs.Answered.{Answers};
ghost use Rattle.config_reader.specs.Joined.{JoinedAnswers};
ghost use Rattle.config_reader.specs.Words.{any_word};
ghost use Rattle.health_core.specs.Statements.{run_at, down_with, down_at};

use crate::health::MAX_RUN;
use crate::spellings::{DownWord, NumberWord};
use arrayvec::ArrayVec;
use config_reader::ConfigError;
use config_reader::joined::Joined;
use config_reader::words::{sign, sign_or, word};
use token_reader::FileTokens;

/// The word of a program, and `;`.
pub fn run_at(words: &mut FileTokens<'_>) -> Result<ArrayVec<u8, MAX_RUN>, ConfigError>
    ensures read { Answers run_at words.old.end words.old.left words.new.left result }
    ensures end { words.new.end ≡ words.old.end }
{
    let run = program(words)?;
    sign_or(words, b';', run.wrong())?;
    Ok(run.bytes)
}

/// The MED of an announcement while the service is down, or none, and `;`.
pub fn down_at(words: &mut FileTokens<'_>) -> Result<Option<u32>, ConfigError>
    ensures read { Answers down_at words.old.end words.old.left words.new.left result }
    ensures end { words.new.end ≡ words.old.end }
{
    let announced = word(words, &DownWord)?;
    let med = down_with(words, announced)?;
    sign(words, b';')?;
    Ok(med)
}

// The word of a program.
fn program(words: &mut FileTokens<'_>) -> Result<Joined, ConfigError>
    ensures read { JoinedAnswers any_word words.old.end words.old.left words.new.left result }
    ensures end { words.new.end ≡ words.old.end }
{
    let mut run = Joined::new();
    run.put_word(words)?;
    Ok(run)
}

// The MED behind `med`, or none behind `withdraw`.
fn down_with(words: &mut FileTokens<'_>, announced: bool) -> Result<Option<u32>, ConfigError>
    ensures read { Answers (down_with announced) words.old.end words.old.left words.new.left
        result }
    ensures end { words.new.end ≡ words.old.end }
{
    if !announced {
        return Ok(None);
    }
    let med = word(
        words,
        &NumberWord {
            least: 0,
            most: u32::MAX,
        },
    )?;
    Ok(Some(med))
}
