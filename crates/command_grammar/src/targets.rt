//! Reads what a line without routes wants of its neighbours, behind the word that says so and up to the line's end.
ghost use Rattle.std.specs.Prelude.{◌≡◌};
ghost use Rattle.route_grammar.specs.Answered.{Answers};
ghost use Rattle.route_grammar.specs.Limits.{in_force};
ghost use Rattle.route_grammar.specs.Productions.{nothing_further, all_further};
ghost use Rattle.command_grammar.specs.declared.keywords.Verb.TheVariants as verb;
ghost use Rattle.command_grammar.specs.Targets.{OutWords, Wanted};

use crate::command::Command;
use crate::words::{code_at, ended, is_end, keyword, prefix_at};
use route_grammar::ReadFault;
use route_values::Selector;
use token_reader::Tokens;

/// `flush adj-rib out`.
pub fn flushed(words: &mut Tokens<'_>, pick: Selector) -> Result<Command, ReadFault>
    ensures read { Answers (Wanted pick verb.Flush) all_further in_force words.old.left
        words.new.left words.new.end result }
    ensures end { words.new.end ≡ words.old.end }
{
    out_at(words)?;
    ended(words, Command::Flush(pick))
}

/// `clear adj-rib out`.
pub fn cleared(words: &mut Tokens<'_>, pick: Selector) -> Result<Command, ReadFault>
    ensures read { Answers (Wanted pick verb.Clear) all_further in_force words.old.left
        words.new.left words.new.end result }
    ensures end { words.new.end ≡ words.old.end }
{
    out_at(words)?;
    ended(words, Command::Clear(pick))
}

/// `show adj-rib out`, and a prefix where one is written.
pub fn shown(words: &mut Tokens<'_>, pick: Selector) -> Result<Command, ReadFault>
    ensures read { Answers (Wanted pick verb.Show) all_further in_force words.old.left
        words.new.left words.new.end result }
    ensures end { words.new.end ≡ words.old.end }
{
    out_at(words)?;
    if is_end(words) {
        return Ok(Command::Show { pick, within: None });
    }
    let prefix = prefix_at(words)?;
    let within = Some(prefix);
    ended(words, Command::Show { pick, within })
}

/// `teardown` and a code.
pub fn torn_down(words: &mut Tokens<'_>, pick: Selector) -> Result<Command, ReadFault>
    ensures read { Answers (Wanted pick verb.Teardown) all_further in_force words.old.left
        words.new.left words.new.end result }
    ensures end { words.new.end ≡ words.old.end }
{
    let code = code_at(words)?;
    ended(words, Command::Teardown(pick, code))
}

// The words `adj-rib out`.
fn out_at(words: &mut Tokens<'_>) -> Result<(), ReadFault>
    ensures read { Answers OutWords nothing_further in_force words.old.left words.new.left
        words.new.end result }
    ensures end { words.new.end ≡ words.old.end }
{
    keyword(words, b"adj-rib")?;
    keyword(words, b"out")
}
