//! The words of a command.
ghost use Rattle.std.specs.Prelude.{ℕ, ◌≡◌, ◌↔◌, [], ◌∷◌, codes, map, IfSome, IfNone, IsTrue};
ghost use Rattle.exa_top.specs.Loaded.{IsLoadWords};
ghost use Rattle.exa_top.specs.Words.{IsCommand, IsEncode};
ghost use Rattle.exa_top.specs.declared.words.Ends.{Ends as Session};
ghost use Rattle.exa_top.specs.declared.words.TextCommand.{TextCommand as Spelled};

use crate::caps::caps_of;
use route_values::Caps;
use script_play::MAX_LOAD;
use text_forms::{asn, ipv4, number};

/// The ends of the session of a command that names no file.
#[derive(Clone, Copy, Debug, PartialEq, Eq)]
pub struct Ends {
    pub local_as: u32,
    pub peer_as: u32,
    /// The local address, an IPv4 address as a number.
    pub local: u32,
}

/// A text command.
#[derive(Clone, Copy, Debug, PartialEq, Eq)]
pub enum TextCommand<'a> {
    /// `encode CONFIG`: the path of a file.
    Encode(&'a str),
    /// `encode LOCAL_AS PEER_AS LOCAL_IP`: a session with these ends.
    EncodePlain(Ends),
    /// `check CONFIG`: the path of a file.
    Check(&'a str),
    /// `play CONFIG`: the path of a file.
    Play(&'a str),
    /// `load COUNT`: how many routes.
    Load(u32),
    /// `parse`
    Parse,
    /// `decode CAP ..`: messages of a session with these capabilities.
    Decode(Caps),
    /// `--help`
    Help,
    /// `--version`
    Version,
}

/// The command that the words spell, or None where they spell none.
pub fn text_command<'a>(words: &[&'a str]) -> Option<TextCommand<'a>>
    ensures found { IfSome result (λ spelled. IsCommand (map (λ w. w.now) words.now) spelled) }
    ensures none { IfNone result
        ((spelled : Spelled) → IsCommand (map (λ w. w.now) words.now) spelled → ⊥) }
{
    let (name, operands) = words.split_first()?;
    if is(name.as_bytes(), b"encode") {
        return encode_of(operands);
    }
    if is(name.as_bytes(), b"check") {
        return check_of(operands);
    }
    if is(name.as_bytes(), b"play") {
        return play_of(operands);
    }
    if is(name.as_bytes(), b"load") {
        return load_of(operands);
    }
    if is(name.as_bytes(), b"decode") {
        return decode_of(operands);
    }
    if !operands.is_empty() {
        return None;
    }
    if is(name.as_bytes(), b"parse") {
        return Some(TextCommand::Parse);
    }
    if is(name.as_bytes(), b"--help") {
        return Some(TextCommand::Help);
    }
    if is(name.as_bytes(), b"--version") {
        return Some(TextCommand::Version);
    }
    None
}

fn encode_of<'a>(operands: &[&'a str]) -> Option<TextCommand<'a>>
    ensures found { IfSome result
        (λ spelled. IsCommand (codes "encode" ∷ map (λ w. w.now) operands.now) spelled) }
    ensures none { IfNone result ((spelled : Spelled)
        → IsCommand (codes "encode" ∷ map (λ w. w.now) operands.now) spelled → ⊥) }
{
    let (path, others) = operands.split_first()?;
    if others.is_empty() {
        return Some(TextCommand::Encode(path));
    }
    match ends_of(operands) {
        Some(ends) => Some(TextCommand::EncodePlain(ends)),
        None => None,
    }
}

fn check_of<'a>(operands: &[&'a str]) -> Option<TextCommand<'a>>
    ensures found { IfSome result
        (λ spelled. IsCommand (codes "check" ∷ map (λ w. w.now) operands.now) spelled) }
    ensures none { IfNone result ((spelled : Spelled)
        → IsCommand (codes "check" ∷ map (λ w. w.now) operands.now) spelled → ⊥) }
{
    let (path, others) = operands.split_first()?;
    if !others.is_empty() {
        return None;
    }
    Some(TextCommand::Check(path))
}

fn play_of<'a>(operands: &[&'a str]) -> Option<TextCommand<'a>>
    ensures found { IfSome result
        (λ spelled. IsCommand (codes "play" ∷ map (λ w. w.now) operands.now) spelled) }
    ensures none { IfNone result ((spelled : Spelled)
        → IsCommand (codes "play" ∷ map (λ w. w.now) operands.now) spelled → ⊥) }
{
    let (path, others) = operands.split_first()?;
    if !others.is_empty() {
        return None;
    }
    Some(TextCommand::Play(path))
}

fn load_of<'a>(operands: &[&'a str]) -> Option<TextCommand<'a>>
    ensures found { IfSome result
        (λ spelled. IsCommand (codes "load" ∷ map (λ w. w.now) operands.now) spelled) }
    ensures none { IfNone result ((spelled : Spelled)
        → IsCommand (codes "load" ∷ map (λ w. w.now) operands.now) spelled → ⊥) }
{
    match count_of(operands) {
        Some(count) => Some(TextCommand::Load(count)),
        None => None,
    }
}

// `COUNT`
fn count_of(operands: &[&str]) -> Option<u32>
    ensures found { IfSome result
        (λ count. IsLoadWords (codes "load" ∷ map (λ w. w.now) operands.now) count) }
    ensures none { IfNone result ((count : ℕ)
        → IsLoadWords (codes "load" ∷ map (λ w. w.now) operands.now) count → ⊥) }
{
    let (text, others) = operands.split_first()?;
    if !others.is_empty() {
        return None;
    }
    count_from(text)
}

fn count_from(text: &str) -> Option<u32>
    ensures found { IfSome result (λ count. IsLoadWords (codes "load" ∷ text.now ∷ []) count) }
    ensures none { IfNone result ((count : ℕ)
        → IsLoadWords (codes "load" ∷ text.now ∷ []) count → ⊥) }
{
    let count = number(text.as_bytes())?;
    if count == 0 || count > MAX_LOAD {
        return None;
    }
    Some(count)
}

fn decode_of<'a>(operands: &[&'a str]) -> Option<TextCommand<'a>>
    ensures found { IfSome result
        (λ spelled. IsCommand (codes "decode" ∷ map (λ w. w.now) operands.now) spelled) }
    ensures none { IfNone result ((spelled : Spelled)
        → IsCommand (codes "decode" ∷ map (λ w. w.now) operands.now) spelled → ⊥) }
{
    match caps_of(operands) {
        Some(caps) => Some(TextCommand::Decode(caps)),
        None => None,
    }
}

// `LOCAL_AS PEER_AS LOCAL_IP`
fn ends_of(operands: &[&str]) -> Option<Ends>
    ensures found { IfSome result
        (λ ends. IsEncode (codes "encode" ∷ map (λ w. w.now) operands.now) ends) }
    ensures none { IfNone result
        ((ends : Session) → IsEncode (codes "encode" ∷ map (λ w. w.now) operands.now) ends → ⊥) }
{
    let (local_as, others) = operands.split_first()?;
    let (peer_as, others) = others.split_first()?;
    let (local, others) = others.split_first()?;
    if !others.is_empty() {
        return None;
    }
    ends_from(local_as, peer_as, local)
}

fn ends_from(local_as: &str, peer_as: &str, local: &str) -> Option<Ends>
    ensures found { IfSome result
        (λ ends. IsEncode (codes "encode" ∷ local_as.now ∷ peer_as.now ∷ local.now ∷ []) ends) }
    ensures none { IfNone result ((ends : Session)
        → IsEncode (codes "encode" ∷ local_as.now ∷ peer_as.now ∷ local.now ∷ []) ends → ⊥) }
{
    let local_as = asn(local_as.as_bytes())?;
    let peer_as = asn(peer_as.as_bytes())?;
    let local = ipv4(local.as_bytes())?;
    Some(Ends {
        local_as,
        peer_as,
        local,
    })
}

/// Whether a word is this text.
pub fn is(word: &[u8], text: &[u8]) -> bool
    ensures { IsTrue result ↔ (word.now ≡ text.now) }
{
    word == text
}
