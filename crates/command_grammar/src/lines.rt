//! Reads the tokens of a line.
ghost use Rattle.std.specs.Prelude.{◌≡◌, ℕ, List, IfSome, IfNone};
ghost use Rattle.token_reader.specs.Tokens.{Word, front_token};
ghost use Rattle.route_grammar.specs.Answered.{Answers};
ghost use Rattle.route_grammar.specs.Limits.{in_force};
ghost use Rattle.route_grammar.specs.Productions.{all_further, Then};
ghost use Rattle.command_grammar.specs.declared.command.Command.{Command as AnyCommand};
ghost use Rattle.command_grammar.specs.Keywords.{IsSole};
ghost use Rattle.command_grammar.specs.Lines.{Spoken, is_remark};
ghost use Rattle.command_grammar.specs.Selectors.{Picks};
ghost use Rattle.command_grammar.specs.Targets.{Targeted};

use crate::command::Command;
use crate::keywords::sole_of;
use crate::selectors::{NEIGHBOR, picks_at};
use crate::verbs::targeted;
use crate::words::{ended, front_word, is_word};
use route_grammar::ReadFault;
use route_values::Items;
use std::alloc::Global;
use token_reader::{Tokens, Words};

// What a remark begins with.
const REMARK: u8 = b'#';

/// Whether the front token begins a remark.
pub fn begins_remark(words: &Tokens<'_>) -> bool
    ensures { result ≡ is_remark (front_token words.now.left) }
{
    match front_word(words) {
        Some(word) => word.first() == Some(&REMARK),
        None => false,
    }
}

/// A command that is no remark.
pub fn spoken(alloc: Global, words: &mut Tokens<'_>) -> Result<Command, ReadFault>
    ensures read { Answers Spoken all_further in_force words.old.left words.new.left
        words.new.end result }
    ensures end { words.new.end ≡ words.old.end }
{
    if let Some(command) = sole_at(words) {
        words.advance();
        return ended(words, command);
    }
    if is_word(words, NEIGHBOR) {
        return picked(alloc, words);
    }
    targeted(alloc, words, Items::new(alloc))
}

// The command that the front word says by itself.
fn sole_at(words: &Tokens<'_>) -> Option<Command>
    ensures found { IfSome result (λ command. (word : List ℕ)
        × (front_token words.now.left ≡ Some (Word word)) × IsSole word command) }
    ensures none { IfNone result ((word : List ℕ) (command : AnyCommand)
        → front_token words.now.left ≡ Some (Word word) → IsSole word command → ⊥) }
{
    match front_word(words) {
        Some(word) => sole_of(word),
        None => None,
    }
}

// A command for the neighbours that are picked.
fn picked(alloc: Global, words: &mut Tokens<'_>) -> Result<Command, ReadFault>
    ensures read { Answers (Then Picks Targeted) all_further in_force words.old.left
        words.new.left words.new.end result }
    ensures end { words.new.end ≡ words.old.end }
{
    let pick = picks_at(alloc, words)?;
    targeted(alloc, words, pick)
}
