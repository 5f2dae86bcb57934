//! The section of capabilities.
ghost use Rattle.std.specs.Prelude.{◌≡◌};
ghost use Rattle.config_model.specs.declared.fault.ConfigKind.TheVariants as kind;
ghost use Rattle.config_reader.specs.Answered.{Answers};
ghost use Rattle.config_reader.specs.Rules.{where_so};
ghost use Rattle.config_reader.specs.Words.{word_or};
ghost use Rattle.config_reader.specs.Capabilities.{IsCapability, no_capability, states};
ghost use Rattle.config_reader.specs.Capabilities.{capability_operand, capability_statement};
ghost use Rattle.config_reader.specs.Capabilities.{capabilities_written, capabilities_at};

use crate::fault::ConfigError;
use crate::first_words::CapabilityWord;
use crate::keywords::Capability;
use crate::spellings::{OfferWord, Text, WaysWord};
use crate::words::{fault, front_value, is_mark, sign, word};
use crate::written::Capabilities;
use config_model::ConfigKind;
use token_reader::{FileTokens, Words};

/// Capabilities between braces.
pub fn capabilities_at(words: &mut FileTokens<'_>) -> Result<Capabilities, ConfigError>
    ensures read { Answers capabilities_at words.old.end words.old.left words.new.left result }
    ensures end { words.new.end ≡ words.old.end }
{
    sign(words, b'{')?;
    let written = capabilities_written(words)?;
    sign(words, b'}')?;
    Ok(written)
}

// Capabilities up to a closing brace.
fn capabilities_written(words: &mut FileTokens<'_>) -> Result<Capabilities, ConfigError>
    ensures read { Answers capabilities_written words.old.end words.old.left words.new.left
        result }
    ensures end { words.new.end ≡ words.old.end }
{
    let mut written = no_capability();
    'capabilities: while !is_mark(words, b'}') {
        written = capability_statement(words, written)?;
    }
    Ok(written)
}

/// No capability is written.
pub fn no_capability() -> Capabilities
    ensures { result ≡ no_capability }
{
    Capabilities {
        paths: None,
        refresh: None,
        asn4: false,
        extended: None,
    }
}

// A capability besides those that are written.
fn capability_statement(
    words: &mut FileTokens<'_>,
    written: Capabilities,
) -> Result<Capabilities, ConfigError>
    ensures read { Answers (capability_statement written) words.old.end words.old.left
        words.new.left result }
    ensures end { words.new.end ≡ words.old.end }
{
    let which = capability_at(words, &written)?;
    let after = capability_operand(words, written, which)?;
    sign(words, b';')?;
    Ok(after)
}

// The first word of a capability that isn't written.
fn capability_at(
    words: &mut FileTokens<'_>,
    written: &Capabilities,
) -> Result<Capability, ConfigError>
    ensures read { Answers
        (word_or IsCapability (λ which. where_so kind.Twice (states written.now which)))
        words.old.end words.old.left words.new.left result }
    ensures end { words.new.end ≡ words.old.end }
{
    let Some(which) = front_value(words, &CapabilityWord) else {
        return Err(fault(words, ConfigKind::Token));
    };
    if states(written, which) {
        return Err(fault(words, ConfigKind::Twice));
    }
    words.advance();
    Ok(which)
}

fn states(written: &Capabilities, which: Capability) -> bool
    ensures { result ≡ states written.now which }
{
    match which {
        Capability::AddPath => written.paths.is_some(),
        Capability::RouteRefresh => written.refresh.is_some(),
        Capability::Asn4 => written.asn4,
        Capability::ExtendedMessage => written.extended.is_some(),
    }
}

// What stands behind the first word of a capability, besides what is written.
fn capability_operand(
    words: &mut FileTokens<'_>,
    written: Capabilities,
    which: Capability,
) -> Result<Capabilities, ConfigError>
    ensures read { Answers (capability_operand written which) words.old.end words.old.left
        words.new.left result }
    ensures end { words.new.end ≡ words.old.end }
{
    let mut with = written;
    match which {
        Capability::AddPath => with.paths = Some(word(words, &WaysWord)?),
        Capability::RouteRefresh => with.refresh = Some(word(words, &OfferWord)?),
        Capability::Asn4 => {
            word(words, &Text(b"enable"))?;
            with.asn4 = true;
        }
        Capability::ExtendedMessage => with.extended = Some(word(words, &OfferWord)?),
    }
    Ok(with)
}
