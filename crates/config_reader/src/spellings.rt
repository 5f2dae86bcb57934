//! The kinds of words that a configuration file has.
ghost use Rattle.std.specs.Prelude.{◌≡◌, ◌↔◌, ◌≤◌, List, ℕ, length, true, IsTrue};
ghost use Rattle.std.specs.List.{AllByRecursion};
ghost use Rattle.config_reader.specs.Words.{is_name_byte};

use crate::words::Kind;
use crate::written::Ways;
use config_model::{MAX_NAME, Name};
use route_values::{Addr, Family, Prefix};
use text_forms::{addr, asn, half, ipv4, prefix};

/// A given text.
pub struct Text(pub &'static [u8]);

impl Kind for Text {
    ghost use Rattle.config_reader.specs.Words.{IsText};

    type Value = ();

    ghost spells = { λ kind word value. IsText kind.0.now word value };

    fn read(&self, word: &[u8]) -> Option<()> {
        if word == self.0 { Some(()) } else { None }
    }
}

/// The name of a process.
pub struct NameWord;

impl Kind for NameWord {
    ghost use Rattle.config_reader.specs.Words.{IsName};

    type Value = Name;

    ghost spells = { λ kind word value. IsName word value };

    fn read(&self, word: &[u8]) -> Option<Name> {
        if word.is_empty() || word.len() > MAX_NAME || !has_name_bytes(word) {
            return None;
        }
        Some(name(word))
    }
}

fn has_name_bytes(word: &[u8]) -> bool
    ensures { IsTrue result ↔ AllByRecursion (λ b. is_name_byte b ≡ true) word.now }
{
    word.iter().all(|b| is_name_byte(*b))
}

fn is_name_byte(b: u8) -> bool
    ensures { result ≡ is_name_byte b }
{
    matches!(b, b'a'..=b'z' | b'A'..=b'Z' | b'0'..=b'9' | b'-' | b'_' | b'.')
}

fn name(word: &[u8]) -> Name
    requires { length word.now ≤ MAX_NAME }
    ensures { result.items ≡ word.now }
{
    let mut name = Name::new();
    let _ = name.try_extend_from_slice(word);
    name
}

/// An address of either family.
pub struct AddrWord;

impl Kind for AddrWord {
    ghost use Rattle.text_forms.specs.Families.{IsAddrText};

    type Value = Addr;

    ghost spells = { λ kind word value. IsAddrText word value };

    fn read(&self, word: &[u8]) -> Option<Addr> {
        addr(word)
    }
}

/// A prefix of either family.
pub struct PrefixWord;

impl Kind for PrefixWord {
    ghost use Rattle.text_forms.specs.Families.{IsBlockText};

    type Value = Prefix;

    ghost spells = { λ kind word value. IsBlockText word value };

    fn read(&self, word: &[u8]) -> Option<Prefix> {
        prefix(word)
    }
}

/// An IPv4 address, as a number.
pub struct Ipv4Word;

impl Kind for Ipv4Word {
    ghost use Rattle.text_forms.specs.Addresses.{IsIpv4};

    type Value = u32;

    ghost spells = { λ kind word value. IsIpv4 word value };

    fn read(&self, word: &[u8]) -> Option<u32> {
        ipv4(word)
    }
}

/// An AS number (RFC 5396, section 2).
pub struct AsnWord;

impl Kind for AsnWord {
    ghost use Rattle.text_forms.specs.Numbers.{IsAsn};

    type Value = u32;

    ghost spells = { λ kind word value. IsAsn word value };

    fn read(&self, word: &[u8]) -> Option<u32> {
        asn(word)
    }
}

// The least hold time that isn't 0 (RFC 4271, section 4.2).
const MIN_HOLD: u16 = 3;

/// The seconds of a hold time.
pub struct HoldWord;

impl Kind for HoldWord {
    ghost use Rattle.config_reader.specs.Words.{IsHold};

    type Value = u16;

    ghost spells = { λ kind word value. IsHold word value };

    fn read(&self, word: &[u8]) -> Option<u16> {
        let seconds = half(word)?;
        if seconds != 0 && seconds < MIN_HOLD {
            return None;
        }
        Some(seconds)
    }
}

/// A TCP port.
pub struct PortWord;

impl Kind for PortWord {
    ghost use Rattle.config_reader.specs.Words.{IsPort};

    type Value = u16;

    ghost spells = { λ kind word value. IsPort word value };

    fn read(&self, word: &[u8]) -> Option<u16> {
        let port = half(word)?;
        if port == 0 { None } else { Some(port) }
    }
}

/// Which of two encoders is asked for: whether it is `json`.
pub struct EncoderWord;

impl Kind for EncoderWord {
    ghost use Rattle.config_reader.specs.Processes.{IsEncoder};

    type Value = bool;

    ghost spells = { λ kind word value. IsEncoder word value };

    fn read(&self, word: &[u8]) -> Option<bool> {
        if is(word, b"json") {
            return Some(true);
        }
        if is(word, b"text") {
            return Some(false);
        }
        None
    }
}

/// Whether something is so.
pub struct TruthWord;

impl Kind for TruthWord {
    ghost use Rattle.config_reader.specs.Processes.{IsTruth};

    type Value = bool;

    ghost spells = { λ kind word value. IsTruth word value };

    fn read(&self, word: &[u8]) -> Option<bool> {
        if is(word, b"true") {
            return Some(true);
        }
        if is(word, b"false") {
            return Some(false);
        }
        None
    }
}

/// Whether something is offered.
pub struct OfferWord;

impl Kind for OfferWord {
    ghost use Rattle.config_reader.specs.Capabilities.{IsOffer};

    type Value = bool;

    ghost spells = { λ kind word value. IsOffer word value };

    fn read(&self, word: &[u8]) -> Option<bool> {
        if is(word, b"enable") {
            return Some(true);
        }
        if is(word, b"disable") {
            return Some(false);
        }
        None
    }
}

/// The ways in which path identifiers are offered.
pub struct WaysWord;

impl Kind for WaysWord {
    ghost use Rattle.config_reader.specs.Capabilities.{IsWays};

    type Value = Ways;

    ghost spells = { λ kind word value. IsWays word value };

    fn read(&self, word: &[u8]) -> Option<Ways> {
        if is(word, b"disable") {
            return Some(Ways {
                send: false,
                receive: false,
            });
        }
        if is(word, b"send") {
            return Some(Ways {
                send: true,
                receive: false,
            });
        }
        if is(word, b"receive") {
            return Some(Ways {
                send: false,
                receive: true,
            });
        }
        if is(word, b"send/receive") {
            return Some(Ways {
                send: true,
                receive: true,
            });
        }
        None
    }
}

/// The word of a family.
pub struct FamilyWord;

impl Kind for FamilyWord {
    ghost use Rattle.config_reader.specs.Families.{IsFamilyWord};

    type Value = Family;

    ghost spells = { λ kind word value. IsFamilyWord word value };

    fn read(&self, word: &[u8]) -> Option<Family> {
        if is(word, b"ipv4") {
            return Some(Family::Ipv4);
        }
        if is(word, b"ipv6") {
            return Some(Family::Ipv6);
        }
        None
    }
}

/// Whether a word is this text.
pub fn is(word: &[u8], text: &[u8]) -> bool
    ensures { IsTrue result ↔ (word.now ≡ text.now) }
{
    word == text
}
