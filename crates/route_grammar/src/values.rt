//! The numbers and addresses of items, each in one word.
ghost use Rattle.std.specs.Prelude.{ℕ, ◌↔◌, IfSome, IfNone, IsTrue};
ghost use Rattle.route_values.specs.declared.attrs.Hop.{Hop as AnyHop};
ghost use Rattle.route_values.specs.declared.attrs.Origin.{Origin as AnyOrigin};
ghost use Rattle.route_grammar.specs.Numbers.{IsPathId, IsOfFamily, IsHop, IsOrigin};

use crate::kind::is;
use route_values::{Addr, Family, Hop, Origin};
use text_forms::{addr, ipv4, number};

/// The path identifier that a word spells: a number of 32 bits or an IPv4 address.
pub fn path_id_of(word: &[u8]) -> Option<u32>
    ensures found { IfSome result (λ id. IsPathId word.now id) }
    ensures none { IfNone result ((other : ℕ) → IsPathId word.now other → ⊥) }
{
    match number(word) {
        Some(id) => Some(id),
        None => ipv4(word),
    }
}

/// The next hop that a word spells: `self`, or an address, of the family where one is wanted.
pub fn hop_of(word: &[u8], family: Option<Family>) -> Option<Hop>
    ensures found { IfSome result (λ hop. IsHop family word.now hop) }
    ensures none { IfNone result ((other : AnyHop) → IsHop family word.now other → ⊥) }
{
    if is(word, b"self") {
        return Some(Hop::Own);
    }
    let addr = addr(word)?;
    if !is_of_family(addr, family) {
        return None;
    }
    Some(Hop::Is(addr))
}

fn is_of_family(addr: Addr, family: Option<Family>) -> bool
    ensures { IsTrue result ↔ IsOfFamily family addr }
{
    match family {
        Some(family) => addr.family() == family,
        None => true,
    }
}

/// The origin that a word spells, in lower or in upper case.
pub fn origin_of(word: &[u8]) -> Option<Origin>
    ensures found { IfSome result (λ origin. IsOrigin word.now origin) }
    ensures none { IfNone result ((other : AnyOrigin) → IsOrigin word.now other → ⊥) }
{
    if is(word, b"igp") || is(word, b"IGP") {
        return Some(Origin::Igp);
    }
    if is(word, b"egp") || is(word, b"EGP") {
        return Some(Origin::Egp);
    }
    if is(word, b"incomplete") || is(word, b"INCOMPLETE") {
        return Some(Origin::Incomplete);
    }
    None
}
