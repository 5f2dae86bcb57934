//! Reads what a line wants of its neighbours.
ghost use Rattle.std.specs.Prelude.{◌≡◌};
ghost use Rattle.route_grammar.specs.Answered.{Answers};
ghost use Rattle.route_grammar.specs.Limits.{in_force};
ghost use Rattle.route_grammar.specs.Productions.{all_further};
ghost use Rattle.command_grammar.specs.declared.keywords.Verb.TheVariants as verb;
ghost use Rattle.command_grammar.specs.Targets.{Targeted, Wanted};

use crate::command::Command;
use crate::keywords::Verb;
use crate::routes::{announced, withdrawn};
use crate::targets::{cleared, flushed, shown, torn_down};
use crate::words::{form_at, verb_at};
use route_grammar::ReadFault;
use route_values::Selector;
use std::alloc::Global;
use token_reader::Tokens;

/// A verb, and what it wants of these neighbours.
pub fn targeted(alloc: Global, words: &mut Tokens<'_>, pick: Selector) -> Result<Command, ReadFault>
    ensures read { Answers (Targeted pick) all_further in_force words.old.left words.new.left
        words.new.end result }
    ensures end { words.new.end ≡ words.old.end }
{
    let verb = verb_at(words)?;
    wanted(alloc, words, pick, verb)
}

// What a verb wants of these neighbours, behind its word.
fn wanted(
    alloc: Global,
    words: &mut Tokens<'_>,
    pick: Selector,
    verb: Verb,
) -> Result<Command, ReadFault>
    ensures read { Answers (Wanted pick verb) all_further in_force words.old.left words.new.left
        words.new.end result }
    ensures end { words.new.end ≡ words.old.end }
{
    match verb {
        Verb::Announce => announcing(alloc, words, pick),
        Verb::Withdraw => withdrawing(alloc, words, pick),
        Verb::Flush => flushed(words, pick),
        Verb::Clear => cleared(words, pick),
        Verb::Show => shown(words, pick),
        Verb::Teardown => torn_down(words, pick),
    }
}

// Routes to announce, in either form.
fn announcing(alloc: Global, words: &mut Tokens<'_>, pick: Selector) -> Result<Command, ReadFault>
    ensures read { Answers (Wanted pick verb.Announce) all_further in_force words.old.left
        words.new.left words.new.end result }
    ensures end { words.new.end ≡ words.old.end }
{
    let form = form_at(words)?;
    announced(alloc, words, pick, form)
}

// Routes to withdraw, in either form.
fn withdrawing(alloc: Global, words: &mut Tokens<'_>, pick: Selector) -> Result<Command, ReadFault>
    ensures read { Answers (Wanted pick verb.Withdraw) all_further in_force words.old.left
        words.new.left words.new.end result }
    ensures end { words.new.end ≡ words.old.end }
{
    let form = form_at(words)?;
    withdrawn(alloc, words, pick, form)
}
