//! The words by which lines are told apart.
ghost use Rattle.std.specs.Prelude.{◌≡◌, ◌≢◌, ◌↔◌, IsTrue, IfSome, IfNone};
ghost use Rattle.command_grammar.specs.Keywords.{verb_word, form_word, qualifier_word, IsSole};
ghost use Rattle.command_grammar.specs.declared.keywords.Verb.{Verb as AnyVerb};
ghost use Rattle.command_grammar.specs.declared.keywords.Form.{Form as AnyForm};
ghost use Rattle.command_grammar.specs.declared.keywords.Qualifier.{Qualifier as AnyQualifier};
ghost use Rattle.command_grammar.specs.declared.command.Command.{Command as AnyCommand};

use crate::command::Command;

/// What a line for neighbours wants, by its first word.
#[derive(Clone, Copy, Debug, PartialEq, Eq)]
pub enum Verb {
    Announce,
    Withdraw,
    Flush,
    Clear,
    Show,
    Teardown,
}

/// How routes are written: a prefix with its items, or items with several prefixes.
#[derive(Clone, Copy, Debug, PartialEq, Eq)]
pub enum Form {
    Route,
    Attributes,
}

/// What a neighbour is picked by, besides its address.
#[derive(Clone, Copy, Debug, PartialEq, Eq)]
pub enum Qualifier {
    LocalIp,
    LocalAs,
    PeerAs,
    RouterId,
}

pub fn verb_of(word: &[u8]) -> Option<Verb>
    ensures found { IfSome result (λ verb. word.now ≡ verb_word verb) }
    ensures none { IfNone result ((verb : AnyVerb) → word.now ≢ verb_word verb) }
{
    if is(word, b"announce") {
        return Some(Verb::Announce);
    }
    if is(word, b"withdraw") {
        return Some(Verb::Withdraw);
    }
    if is(word, b"flush") {
        return Some(Verb::Flush);
    }
    if is(word, b"clear") {
        return Some(Verb::Clear);
    }
    if is(word, b"show") {
        return Some(Verb::Show);
    }
    if is(word, b"teardown") {
        return Some(Verb::Teardown);
    }
    None
}

pub fn form_of(word: &[u8]) -> Option<Form>
    ensures found { IfSome result (λ form. word.now ≡ form_word form) }
    ensures none { IfNone result ((form : AnyForm) → word.now ≢ form_word form) }
{
    if is(word, b"route") {
        return Some(Form::Route);
    }
    if is(word, b"attributes") {
        return Some(Form::Attributes);
    }
    None
}

pub fn qualifier_of(word: &[u8]) -> Option<Qualifier>
    ensures found { IfSome result (λ qualifier. word.now ≡ qualifier_word qualifier) }
    ensures none { IfNone result
        ((qualifier : AnyQualifier) → word.now ≢ qualifier_word qualifier) }
{
    if is(word, b"local-ip") {
        return Some(Qualifier::LocalIp);
    }
    if is(word, b"local-as") {
        return Some(Qualifier::LocalAs);
    }
    if is(word, b"peer-as") {
        return Some(Qualifier::PeerAs);
    }
    if is(word, b"router-id") {
        return Some(Qualifier::RouterId);
    }
    None
}

/// The command that is a line by itself.
pub fn sole_of(word: &[u8]) -> Option<Command>
    ensures found { IfSome result (λ command. IsSole word.now command) }
    ensures none { IfNone result ((command : AnyCommand) → IsSole word.now command → ⊥) }
{
    if is(word, b"reload") {
        return Some(Command::Reload);
    }
    if is(word, b"shutdown") {
        return Some(Command::Shutdown);
    }
    if is(word, b"disable-ack") {
        return Some(Command::DisableAck);
    }
    if is(word, b"enable-ack") {
        return Some(Command::EnableAck);
    }
    None
}

// Whether a word is this text.
fn is(word: &[u8], text: &[u8]) -> bool
    ensures { IsTrue result ↔ (word.now ≡ text.now) }
{
    word == text
}
