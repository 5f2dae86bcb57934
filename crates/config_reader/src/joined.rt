//! The words of a process's `run`, while they are joined.
ghost use Rattle.std.specs.Prelude.{◌≡◌, List, ℕ, [], ◌++◌, length, nat_lt};
ghost use Rattle.config_model.specs.declared.fault.ConfigKind.TheVariants.{Many};
ghost use Rattle.config_reader.specs.Rules.{where_so};
ghost use Rattle.config_reader.specs.Joined.{Holds, Joins, JoinedAnswers};
ghost use Rattle.config_reader.specs.Processes.{words_joined};

use crate::fault::ConfigError;
use crate::words::{fault, front_bytes, is_mark};
use arrayvec::ArrayVec;
use config_model::{ConfigKind, MAX_RUN};
use token_reader::{FileTokens, Words};

/// Joined words, as far as there is room for them.
#[derive(Debug, Drop)]
pub struct Joined {
    pub bytes: ArrayVec<u8, MAX_RUN>,
    /// Whether there was no room for all of them. What is held then means nothing.
    pub over: bool,
}

/// The words up to `;`, of which there is one at least.
pub fn words_joined(words: &mut FileTokens<'_>) -> Result<Joined, ConfigError>
    ensures read { JoinedAnswers words_joined words.old.end words.old.left words.new.left result }
    ensures end { words.new.end ≡ words.old.end }
{
    let mut joined = Joined::new();
    joined.put_word(words)?;
    'words: while !is_mark(words, b';') {
        joined.put(&[0]);
        joined.put_word(words)?;
    }
    Ok(joined)
}

impl Joined {
    /// No words.
    pub fn new() -> Joined
        ensures { Holds result [] }
    {
        Joined {
            bytes: ArrayVec::new(),
            over: false,
        }
    }

    /// Puts bytes at the end.
    pub fn put(&mut self, more: &[u8])
        ensures { (run : List ℕ) → Holds self.old run → Holds self.new (run ++ more.now) }
    {
        if !self.over {
            self.over = self.bytes.try_extend_from_slice(more).is_err();
        }
    }

    /// What is wrong at the end of the words: whether they are too many bytes.
    pub fn wrong(&self) -> Option<ConfigKind>
        ensures { (run : List ℕ) → Holds self.now run
            → result ≡ where_so Many (nat_lt 1024 (length run)) }
    {
        if self.over {
            Some(ConfigKind::Many)
        } else {
            None
        }
    }

    /// Puts the front word at the end, which may be a quoted one, and passes it.
    pub fn put_word(&mut self, words: &mut FileTokens<'_>) -> Result<(), ConfigError>
        ensures read { (run : List ℕ) → Holds self.old run → Joins run self.new words.old.end
            words.old.left words.new.left result }
        ensures end { words.new.end ≡ words.old.end }
    {
        let Some(bytes) = front_bytes(words) else {
            return Err(fault(words, ConfigKind::Token));
        };
        self.put(bytes);
        words.advance();
        Ok(())
    }
}
