//! The words of a line, each read as one kind of value. Where the front token is no such word, it is at fault.
ghost use Rattle.std.specs.Prelude.{◌≡◌, ◌≢◌, ◌↔◌, ℕ, List, [], IsTrue, IfSome, IfNone};
ghost use Rattle.text_forms.specs.Addresses.{IsIpv4};
ghost use Rattle.text_forms.specs.Families.{IsAddrText, IsBlockText};
ghost use Rattle.text_forms.specs.Numbers.{IsAsn};
ghost use Rattle.token_reader.specs.Tokens.{Mark as MarkOf, Word, front_token};
ghost use Rattle.route_grammar.specs.declared.fault.LineFault.TheVariants.{BadToken};
ghost use Rattle.route_grammar.specs.declared.fault.ReadFault.TheVariants.{Line};
ghost use Rattle.route_grammar.specs.Answered.{Answers, column};
ghost use Rattle.route_grammar.specs.Limits.{in_force};
ghost use Rattle.route_grammar.specs.Productions.{OneToken, OneWord, nothing_further, all_further};
ghost use Rattle.command_grammar.specs.Forms.{Ended, IsCode};
ghost use Rattle.command_grammar.specs.Keywords.{IsVerb, IsForm};

use crate::command::Command;
use crate::keywords::{Form, Verb, form_of, verb_of};
use route_grammar::{LineFault, ReadFault};
use route_values::{Addr, Prefix};
use text_forms::{addr, asn, ipv4, octet, prefix};
use token_reader::{Token, Tokens, Words};

/// The fault of the front token, or of the end.
pub fn bad_token(words: &Tokens<'_>) -> ReadFault
    ensures { result ≡ Line (BadToken (column words.now.left words.now.end)) }
{
    ReadFault::Line(LineFault::BadToken {
        place: words.place().column,
    })
}

/// The front token, where it is a word.
pub fn front_word<'t>(words: &'t Tokens<'_>) -> Option<&'t [u8]>
    ensures found { IfSome result (λ word. front_token words.now.left ≡ Some (Word word.now)) }
    ensures none { IfNone result
        ((word : List ℕ) → front_token words.now.left ≢ Some (Word word)) }
{
    match words.peek() {
        Some(Token::Word(word)) => Some(word),
        _ => None,
    }
}

/// Whether the front token is this word.
pub fn is_word(words: &Tokens<'_>, text: &[u8]) -> bool
    ensures { IsTrue result ↔ (front_token words.now.left ≡ Some (Word text.now)) }
{
    match front_word(words) {
        Some(word) => word == text,
        None => false,
    }
}

/// Whether the front token is this sign.
pub fn is_mark(words: &Tokens<'_>, sign: u8) -> bool
    ensures { IsTrue result ↔ (front_token words.now.left ≡ Some (MarkOf sign)) }
{
    match words.peek() {
        Some(Token::Mark(mark)) => mark == sign,
        _ => false,
    }
}

/// Whether no token is left.
pub fn is_end(words: &Tokens<'_>) -> bool
    ensures { IsTrue result ↔ (words.now.left ≡ []) }
{
    words.peek().is_none()
}

/// Goes past this word.
pub fn keyword(words: &mut Tokens<'_>, text: &[u8]) -> Result<(), ReadFault>
    ensures read { Answers (OneToken (Word text.now)) nothing_further in_force words.old.left
        words.new.left words.new.end result }
    ensures end { words.new.end ≡ words.old.end }
{
    if !is_word(words, text) {
        return Err(bad_token(words));
    }
    words.advance();
    Ok(())
}

/// The command, where no token is left.
pub fn ended(words: &Tokens<'_>, command: Command) -> Result<Command, ReadFault>
    ensures { Answers (Ended command) all_further in_force words.now.left words.now.left
        words.now.end result }
{
    if !is_end(words) {
        return Err(bad_token(words));
    }
    Ok(command)
}

/// An address of either family.
pub fn addr_at(words: &mut Tokens<'_>) -> Result<Addr, ReadFault>
    ensures read { Answers (OneWord IsAddrText) nothing_further in_force words.old.left
        words.new.left words.new.end result }
    ensures end { words.new.end ≡ words.old.end }
{
    let Some(word) = front_word(words) else {
        return Err(bad_token(words));
    };
    let Some(addr) = addr(word) else {
        return Err(bad_token(words));
    };
    words.advance();
    Ok(addr)
}

/// A prefix of either family.
pub fn prefix_at(words: &mut Tokens<'_>) -> Result<Prefix, ReadFault>
    ensures read { Answers (OneWord IsBlockText) nothing_further in_force words.old.left
        words.new.left words.new.end result }
    ensures end { words.new.end ≡ words.old.end }
{
    let Some(word) = front_word(words) else {
        return Err(bad_token(words));
    };
    let Some(prefix) = prefix(word) else {
        return Err(bad_token(words));
    };
    words.advance();
    Ok(prefix)
}

/// An AS number.
pub fn asn_at(words: &mut Tokens<'_>) -> Result<u32, ReadFault>
    ensures read { Answers (OneWord IsAsn) nothing_further in_force words.old.left words.new.left
        words.new.end result }
    ensures end { words.new.end ≡ words.old.end }
{
    let Some(word) = front_word(words) else {
        return Err(bad_token(words));
    };
    let Some(asn) = asn(word) else {
        return Err(bad_token(words));
    };
    words.advance();
    Ok(asn)
}

/// An IPv4 address, as a number.
pub fn ipv4_at(words: &mut Tokens<'_>) -> Result<u32, ReadFault>
    ensures read { Answers (OneWord IsIpv4) nothing_further in_force words.old.left words.new.left
        words.new.end result }
    ensures end { words.new.end ≡ words.old.end }
{
    let Some(word) = front_word(words) else {
        return Err(bad_token(words));
    };
    let Some(number) = ipv4(word) else {
        return Err(bad_token(words));
    };
    words.advance();
    Ok(number)
}

/// A number up to 255.
pub fn code_at(words: &mut Tokens<'_>) -> Result<u8, ReadFault>
    ensures read { Answers (OneWord IsCode) nothing_further in_force words.old.left words.new.left
        words.new.end result }
    ensures end { words.new.end ≡ words.old.end }
{
    let Some(word) = front_word(words) else {
        return Err(bad_token(words));
    };
    let Some(code) = octet(word) else {
        return Err(bad_token(words));
    };
    words.advance();
    Ok(code)
}

/// What a line for neighbours wants.
pub fn verb_at(words: &mut Tokens<'_>) -> Result<Verb, ReadFault>
    ensures read { Answers (OneWord IsVerb) nothing_further in_force words.old.left words.new.left
        words.new.end result }
    ensures end { words.new.end ≡ words.old.end }
{
    let Some(word) = front_word(words) else {
        return Err(bad_token(words));
    };
    let Some(verb) = verb_of(word) else {
        return Err(bad_token(words));
    };
    words.advance();
    Ok(verb)
}

/// How routes are written.
pub fn form_at(words: &mut Tokens<'_>) -> Result<Form, ReadFault>
    ensures read { Answers (OneWord IsForm) nothing_further in_force words.old.left words.new.left
        words.new.end result }
    ensures end { words.new.end ≡ words.old.end }
{
    let Some(word) = front_word(words) else {
        return Err(bad_token(words));
    };
    let Some(form) = form_of(word) else {
        return Err(bad_token(words));
    };
    words.advance();
    Ok(form)
}
