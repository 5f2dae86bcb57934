//! The words by which lines are told apart.
ghost use Rattle.std.specs.Prelude.{◌≡◌};
ghost use Rattle.std.specs.Str.{bytes_eq};
ghost use Rattle.script_grammar.specs.Caps.{cap_in};
ghost use Rattle.script_grammar.specs.Words.{family_in, first_named, name_in, slot_names};

use route_values::Family;

/// The first word of a line that has operands.
#[derive(Clone, Copy)]
pub enum Name {
    Spawn,
    Line,
    Take,
    Deaf,
    Gone,
    Peer,
    Up,
    Down,
    Refresh,
    Cut,
    Drain,
    Reload,
}

/// A capability of a session.
#[derive(Clone, Copy)]
pub enum Cap {
    Ipv4,
    Ipv6,
    Ipv4Path,
    Ipv6Path,
    Extended,
}

/// The name that a word is.
#[tactic(auto, unfolding(crate::specs::Words::name_in))]
pub fn name_of(word: &[u8]) -> Option<Name>
    ensures { result ≡ name_in word.now }
{
    if is(word, b"spawn") {
        return Some(Name::Spawn);
    }
    if is(word, b"line") {
        return Some(Name::Line);
    }
    if is(word, b"take") {
        return Some(Name::Take);
    }
    if is(word, b"deaf") {
        return Some(Name::Deaf);
    }
    if is(word, b"gone") {
        return Some(Name::Gone);
    }
    slot_name(word)
}

// The name of an event that is no helper's.
fn slot_name(word: &[u8]) -> Option<Name>
    ensures { result ≡ first_named slot_names word.now }
{
    if is(word, b"peer") {
        return Some(Name::Peer);
    }
    if is(word, b"up") {
        return Some(Name::Up);
    }
    if is(word, b"down") {
        return Some(Name::Down);
    }
    if is(word, b"refresh") {
        return Some(Name::Refresh);
    }
    if is(word, b"cut") {
        return Some(Name::Cut);
    }
    if is(word, b"drain") {
        return Some(Name::Drain);
    }
    if is(word, b"reload") {
        return Some(Name::Reload);
    }
    None
}

/// The capability that a word is.
#[tactic(auto, unfolding(crate::specs::Caps::cap_in))]
pub fn cap_of(word: &[u8]) -> Option<Cap>
    ensures { result ≡ cap_in word.now }
{
    if is(word, b"ipv4") {
        return Some(Cap::Ipv4);
    }
    if is(word, b"ipv6") {
        return Some(Cap::Ipv6);
    }
    if is(word, b"ipv4-path") {
        return Some(Cap::Ipv4Path);
    }
    if is(word, b"ipv6-path") {
        return Some(Cap::Ipv6Path);
    }
    if is(word, b"extended") {
        return Some(Cap::Extended);
    }
    None
}

/// The family that a word is.
#[tactic(auto, unfolding(crate::specs::Words::family_in))]
pub fn family_of(word: &[u8]) -> Option<Family>
    ensures { result ≡ family_in word.now }
{
    if is(word, b"ipv4") {
        return Some(Family::Ipv4);
    }
    if is(word, b"ipv6") {
        return Some(Family::Ipv6);
    }
    None
}

/// Whether a word is this text.
pub fn is(word: &[u8], text: &[u8]) -> bool
    ensures { result ≡ bytes_eq word.now text.now }
{
    word == text
}
