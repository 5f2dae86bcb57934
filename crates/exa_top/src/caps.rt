//! The words of a session's capabilities.
ghost use Rattle.std.specs.Prelude.{◌≡◌, ◌≤◌, length, map, IfSome, IfNone};
ghost use Rattle.std.specs.Str.{bytes_eq};
ghost use Rattle.route_values.specs.Caps.{Caps as Carried};
ghost use Rattle.exa_top.specs.CapWords.{AreCaps, caps_in, is_with_family, named, one_if};
ghost use Rattle.exa_top.specs.CapWords.{spell_caps, stands, with_words};

use route_values::{Caps, Family};

/// The capabilities that words spell, or None where they spell none.
///
/// The words are `ipv4`, `ipv6`, `ipv4-path`, `ipv6-path` and `extended`: one or more, in any order, none twice, and a
/// path word only with its family's.
pub fn caps_of(words: &[&str]) -> Option<Caps>
    ensures found { IfSome result (λ caps. AreCaps (map (λ w. w.now) words.now) caps) }
    ensures none { IfNone result
        ((caps : Carried) → AreCaps (map (λ w. w.now) words.now) caps → ⊥) }
{
    if spell_caps(words) {
        Some(caps_in(words))
    } else {
        None
    }
}

// Whether words spell capabilities. No more words than capabilities that stand among them: so none stands twice, and
// none is another word.
fn spell_caps(words: &[&str]) -> bool
    ensures { result ≡ spell_caps (length words.now) (map (λ w. w.now) words.now) }
{
    !words.is_empty()
        && words.len() == named(words)
        && is_with_family(b"ipv4", b"ipv4-path", words)
        && is_with_family(b"ipv6", b"ipv6-path", words)
}

// How many words of capabilities stand among words.
fn named(words: &[&str]) -> usize
    ensures { result ≡ named (map (λ w. w.now) words.now) }
{
    one_if(stands(b"ipv4", words))
        + one_if(stands(b"ipv6", words))
        + one_if(stands(b"ipv4-path", words))
        + one_if(stands(b"ipv6-path", words))
        + one_if(stands(b"extended", words))
}

fn one_if(is: bool) -> usize
    ensures value { result ≡ one_if is }
    ensures few { result ≤ 1 }
{
    if is { 1 } else { 0 }
}

// Whether a path word stands only where its family's word does.
fn is_with_family(name: &[u8], path: &[u8], words: &[&str]) -> bool
    ensures { result ≡ is_with_family name.now path.now (map (λ w. w.now) words.now) }
{
    stands(name, words) || !stands(path, words)
}

// Whether a word stands among words.
fn stands(word: &[u8], words: &[&str]) -> bool
    ensures { result ≡ stands word.now (map (λ w. w.now) words.now) }
{
    'words: for other in words {
        if is(word, other.as_bytes()) {
            return true;
        }
    }
    false
}

fn is(word: &[u8], other: &[u8]) -> bool
    ensures { result ≡ bytes_eq word.now other.now }
{
    word == other
}

// The capabilities that words name.
fn caps_in(words: &[&str]) -> Caps
    ensures { result ≡ caps_in (map (λ w. w.now) words.now) }
{
    let ipv4 = with_words(
        Caps::none(),
        Family::Ipv4,
        stands(b"ipv4", words),
        stands(b"ipv4-path", words),
    );
    let both = with_words(
        ipv4,
        Family::Ipv6,
        stands(b"ipv6", words),
        stands(b"ipv6-path", words),
    );
    if stands(b"extended", words) {
        both.with_extended()
    } else {
        both
    }
}

// The same capabilities, with a family where it is named.
fn with_words(caps: Caps, family: Family, named: bool, path: bool) -> Caps
    ensures { result ≡ with_words caps family named path }
{
    if named { caps.with(family, path) } else { caps }
}
