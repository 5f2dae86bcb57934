//! The front of a file's tokens: signs, words, and the faults there.
ghost use Rattle.std.specs.Prelude.{◌≡◌, ℕ, List, Some, IfSome, IfNone};
ghost use Rattle.token_reader.specs.Tokens.{Token as AnyToken, front_token, front_place};
ghost use Rattle.config_reader.specs.declared.fault.ConfigError.TheVariants.{Refused};
ghost use Rattle.config_reader.specs.Answered.{Answers};
ghost use Rattle.config_reader.specs.Rules.{fault_at, is_sign, sign, sign_or};
ghost use Rattle.config_reader.specs.Words.{SaysWord, SaysBytes, word, word_ended};

use crate::fault::ConfigError;
use config_model::{ConfigFault, ConfigKind};
use token_reader::{FileTokens, Token, Words};

/// A kind of word, which spells a value or none.
pub trait Kind {
    /// What such a word spells.
    type Value: Drop;

    /// Which words spell which values.
    ghost spells: { Self → List ℕ → Self.Value → Type 0 };

    /// A value that the word spells, or None where it spells none.
    fn read(&self, word: &[u8]) -> Option<Self::Value>
        ensures found { IfSome result (λ value. spells self.now word.now value) }
        ensures none { IfNone result
            ((other : Self.Value) → spells self.now word.now other → ⊥) };
}

/// A fault of a kind at the front token, or at the end of the file.
pub fn fault(words: &FileTokens<'_>, kind: ConfigKind) -> ConfigError
    ensures { result ≡ Refused (fault_at kind (front_place words.now.left words.now.end)) }
{
    let place = words.place();
    ConfigError::Refused(ConfigFault {
        line: place.line,
        column: place.column,
        kind,
    })
}

/// Whether the front token is this sign.
pub fn is_mark(words: &FileTokens<'_>, which: u8) -> bool
    ensures { result ≡ is_sign which (front_token words.now.left) }
{
    match words.peek() {
        Some(Token::Mark(front)) => front == which,
        _ => false,
    }
}

/// Goes past a sign.
pub fn sign(words: &mut FileTokens<'_>, which: u8) -> Result<(), ConfigError>
    ensures read { Answers (sign which) words.old.end words.old.left words.new.left result }
    ensures end { words.new.end ≡ words.old.end }
{
    sign_or(words, which, None)
}

/// Goes past a sign, where nothing is wrong at it.
pub fn sign_or(
    words: &mut FileTokens<'_>,
    which: u8,
    wrong: Option<ConfigKind>,
) -> Result<(), ConfigError>
    ensures read { Answers (sign_or which wrong) words.old.end words.old.left words.new.left
        result }
    ensures end { words.new.end ≡ words.old.end }
{
    if !is_mark(words, which) {
        return Err(fault(words, ConfigKind::Token));
    }
    if let Some(kind) = wrong {
        return Err(fault(words, kind));
    }
    words.advance();
    Ok(())
}

/// What the front word spells; None where it spells no such value, or no word is in front.
pub fn front_value<K: Kind>(words: &FileTokens<'_>, kind: &K) -> Option<K::Value>
    ensures found { IfSome result (λ value. (token : AnyToken)
        × (front_token words.now.left ≡ Some token) × SaysWord (K.spells kind.now) token value) }
    ensures none { IfNone result ((token : AnyToken) (value : K.Value)
        → front_token words.now.left ≡ Some token → SaysWord (K.spells kind.now) token value → ⊥) }
{
    match words.peek() {
        Some(Token::Word(word)) => kind.read(word),
        _ => None,
    }
}

/// What the front word spells, which is passed.
pub fn word<K: Kind>(words: &mut FileTokens<'_>, kind: &K) -> Result<K::Value, ConfigError>
    ensures read { Answers (word (K.spells kind.now)) words.old.end words.old.left words.new.left
        result }
    ensures end { words.new.end ≡ words.old.end }
{
    let Some(value) = front_value(words, kind) else {
        return Err(fault(words, ConfigKind::Token));
    };
    words.advance();
    Ok(value)
}

/// What the front word spells, which is passed with the `;` behind it.
pub fn word_ended<K: Kind>(words: &mut FileTokens<'_>, kind: &K) -> Result<K::Value, ConfigError>
    ensures read { Answers (word_ended (K.spells kind.now)) words.old.end words.old.left
        words.new.left result }
    ensures end { words.new.end ≡ words.old.end }
{
    let value = word(words, kind)?;
    sign(words, b';')?;
    Ok(value)
}

/// The bytes of the front word, which may be a quoted one; None where no word is in front.
pub fn front_bytes<'t>(words: &'t FileTokens<'_>) -> Option<&'t [u8]>
    ensures found { IfSome result (λ bytes. (token : AnyToken)
        × (front_token words.now.left ≡ Some token) × SaysBytes token bytes.now) }
    ensures none { IfNone result ((token : AnyToken) (bytes : List ℕ)
        → front_token words.now.left ≡ Some token → SaysBytes token bytes → ⊥) }
{
    match words.peek() {
        Some(Token::Word(bytes) | Token::Quoted(bytes)) => Some(bytes),
        _ => None,
    }
}
