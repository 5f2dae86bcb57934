//! The capabilities of an `up` line.
ghost use Rattle.std.specs.Prelude.{◌≡◌, if◌then◌else◌, true};
ghost use Rattle.route_values.specs.Caps.{with_extended, with_family};
ghost use Rattle.script_grammar.specs.Caps.{are_kept, caps_in, caps_kept, caps_of, has_cap};
ghost use Rattle.script_grammar.specs.Caps.{nothing_said, say_cap, say_word, with_cap};

use crate::names::{Cap, cap_of};
use crate::operands::first_word;
use route_values::{Caps, Family};

/// Which capabilities were said so far.
#[derive(Clone, Copy)]
pub struct Said {
    ipv4: bool,
    ipv6: bool,
    ipv4_path: bool,
    ipv6_path: bool,
    extended: bool,
}

/// The capabilities that a text says: at least one, each once, and a path word with its family alone.
pub fn caps_in(text: &[u8]) -> Option<Caps>
    ensures { result ≡ caps_in text.now }
{
    let mut said = Said::nothing();
    let mut rest = text;
    'words: while let Some((word, behind)) = first_word(rest) {
        let Some(more) = said.with_word(word) else {
            return None;
        };
        said = more;
        rest = behind;
    }
    let Some(whole) = said.with_word(rest) else {
        return None;
    };
    whole.caps()
}

impl Said {
    fn nothing() -> Said
        ensures { result ≡ nothing_said }
    {
        Said {
            ipv4: false,
            ipv6: false,
            ipv4_path: false,
            ipv6_path: false,
            extended: false,
        }
    }

    // What was said with one more word; None where that is no capability, or was said before.
    #[tactic(auto, unfolding(crate::specs::Caps::say_word))]
    fn with_word(self, word: &[u8]) -> Option<Said>
        ensures { result ≡ say_word self word.now }
    {
        let Some(cap) = cap_of(word) else {
            return None;
        };
        self.with_new(cap)
    }

    #[tactic(auto, unfolding(crate::specs::Caps::say_cap))]
    fn with_new(self, cap: Cap) -> Option<Said>
        ensures { result ≡ say_cap self cap }
    {
        if self.has(cap) {
            return None;
        }
        Some(self.with(cap))
    }

    fn has(self, cap: Cap) -> bool
        ensures { result ≡ has_cap self cap }
    {
        match cap {
            Cap::Ipv4 => self.ipv4,
            Cap::Ipv6 => self.ipv6,
            Cap::Ipv4Path => self.ipv4_path,
            Cap::Ipv6Path => self.ipv6_path,
            Cap::Extended => self.extended,
        }
    }

    fn with(self, cap: Cap) -> Said
        ensures { result ≡ with_cap self cap }
    {
        match cap {
            Cap::Ipv4 => Said { ipv4: true, ..self },
            Cap::Ipv6 => Said { ipv6: true, ..self },
            Cap::Ipv4Path => Said {
                ipv4_path: true,
                ..self
            },
            Cap::Ipv6Path => Said {
                ipv6_path: true,
                ..self
            },
            Cap::Extended => Said {
                extended: true,
                ..self
            },
        }
    }

    // The capabilities, where each path word stands with its family.
    #[tactic(auto, unfolding(crate::specs::Caps::caps_kept))]
    fn caps(self) -> Option<Caps>
        ensures { result ≡ caps_kept self }
    {
        if !self.are_kept() {
            return None;
        }
        Some(self.all())
    }

    // Whether each path word stands with its family.
    fn are_kept(self) -> bool
        ensures { result ≡ are_kept self }
    {
        (!self.ipv4_path || self.ipv4) && (!self.ipv6_path || self.ipv6)
    }

    fn all(self) -> Caps
        requires { are_kept self ≡ true }
        ensures { result ≡ caps_of self }
    {
        let none = Caps::none();
        let ipv4 = with_family(none, Family::Ipv4, self.ipv4, self.ipv4_path);
        let both = with_family(ipv4, Family::Ipv6, self.ipv6, self.ipv6_path);
        with_extended(both, self.extended)
    }
}

// Capabilities with a family, where it was said.
fn with_family(caps: Caps, family: Family, so: bool, path: bool) -> Caps
    ensures { result ≡ (if so then with_family caps family path else caps) }
{
    if so { caps.with(family, path) } else { caps }
}

// Capabilities with long messages, where these were said.
fn with_extended(caps: Caps, so: bool) -> Caps
    ensures { result ≡ (if so then with_extended caps else caps) }
{
    if so { caps.with_extended() } else { caps }
}
