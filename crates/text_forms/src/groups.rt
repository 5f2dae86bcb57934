//! The groups of an IPv6 address as texts.
ghost use Rattle.std.specs.Prelude.{◌≡◌, ◌≢◌, ◌+◌, ◌<◌, ◌≤◌, ◌++◌, ◌∷◌, [], ℕ, List, length};
ghost use Rattle.std.specs.Prelude.{IfSome, IfNone};
ghost use Rattle.std.specs.Char.{digit_value};
ghost use Rattle.std.specs.Option.{SomeIff};
ghost use Rattle.std.specs.Str.Parse.{AllDigits, digits_value};
ghost use Rattle.text_forms.specs.Ipv6.{IsGroup, IsDotted, AreColoned, Stops, IsEnd};

use crate::addresses::ipv4;
use crate::cutting::cut;
use arrayvec::ArrayVec;

// How many groups of 16 bits an IPv6 address has (RFC 4291, section 2.2).
pub(crate) const GROUPS: usize = 8;

// How many digits a group has at most.
const MAX_DIGITS: usize = 4;

// How many values a digit and a group have.
const DIGIT_VALUES: u32 = 16;

const GROUP_VALUES: u32 = 65_536;

// What stands between groups.
const COLON: u8 = b':';

// The groups of a text that have `:` behind them, and the rest, which has no `:` or begins with one.
pub(crate) fn coloned(text: &[u8]) -> Option<(ArrayVec<u16, GROUPS>, &[u8])>
    ensures found { IfSome result (λ parts. AreColoned text.now parts.0.items parts.1.now) }
    ensures stops { IfSome result (λ parts. Stops parts.1.now) }
    ensures none { IfNone result ((groups rest : List ℕ) → Stops rest → length groups ≤ 8
        → AreColoned text.now groups rest → ⊥) }
{
    let mut groups = ArrayVec::new();
    let mut rest = text;
    'groups: while let Some((front, after)) = cut(rest, COLON) {
        if front.is_empty() {
            return Some((groups, rest));
        }
        let Some(number) = group(front) else {
            return None;
        };
        if groups.is_full() {
            return None;
        }
        groups.push(number);
        rest = after;
    }
    Some((groups, rest))
}

// Some groups, and behind them those that a text ends with.
pub(crate) fn ended(groups: ArrayVec<u16, GROUPS>, text: &[u8]) -> Option<ArrayVec<u16, GROUPS>>
    ensures found { IfSome result (λ all. (last : List ℕ) × IsEnd text.now last
        × (all.items ≡ groups.items ++ last)) }
    ensures none { IfNone result ((last : List ℕ) → length groups.items + length last ≤ 8
        → IsEnd text.now last → ⊥) }
{
    match halves(text) {
        Some((high, low)) => with_two(groups, high, low),
        None => with_group(groups, text),
    }
}

// Groups and one more, which a text spells.
fn with_group(groups: ArrayVec<u16, GROUPS>, text: &[u8]) -> Option<ArrayVec<u16, GROUPS>>
    ensures found { IfSome result (λ all. (last : ℕ) × IsGroup text.now last
        × (all.items ≡ groups.items ++ last ∷ [])) }
    ensures none { IfNone result ((last : ℕ) → length groups.items < 8 → IsGroup text.now last
        → ⊥) }
{
    let number = group(text)?;
    if groups.is_full() {
        return None;
    }
    let mut all = groups;
    all.push(number);
    Some(all)
}

// Groups and two more.
fn with_two(groups: ArrayVec<u16, GROUPS>, high: u16, low: u16) -> Option<ArrayVec<u16, GROUPS>>
    ensures found { IfSome result (λ all. all.items ≡ groups.items ++ high ∷ low ∷ []) }
    ensures none { IfNone result (6 < length groups.items) }
{
    if groups.len() > GROUPS - 2 {
        return None;
    }
    let mut all = groups;
    all.push(high);
    all.push(low);
    Some(all)
}

// The two groups that a text spells as an IPv4 address.
fn halves(text: &[u8]) -> Option<(u16, u16)>
    ensures found { IfSome result (λ parts. IsDotted text.now parts.0 parts.1) }
    ensures none { IfNone result ((high low : ℕ) → IsDotted text.now high low → ⊥) }
{
    let number = ipv4(text)?;
    Some((
        (number / GROUP_VALUES) as u16,
        (number % GROUP_VALUES) as u16,
    ))
}

// The group that a text spells: one to four hexadecimal digits of either case.
fn group(text: &[u8]) -> Option<u16>
    ensures found { IfSome result (λ group. IsGroup text.now group) }
    ensures none { IfNone result ((group : ℕ) → IsGroup text.now group → ⊥) }
{
    if text.is_empty() || text.len() > MAX_DIGITS {
        return None;
    }
    hexadecimal(text)
}

// The number of at most four hexadecimal digits.
fn hexadecimal(text: &[u8]) -> Option<u16>
    requires { length text.now ≤ 4 }
    ensures { SomeIff result (AllDigits 16 text.now) (digits_value 16 text.now) }
{
    let mut number = 0;
    for (i, byte) in text.iter().enumerate() {
        let Some(digit) = digit(*byte) else {
            return None;
        };
        number = number * DIGIT_VALUES + digit;
    }
    Some(number as u16)
}

// The value of a hexadecimal digit of either case.
fn digit(byte: u8) -> Option<u32>
    ensures { SomeIff result (digit_value byte < 16) (digit_value byte) }
{
    char::from(byte).to_digit(DIGIT_VALUES)
}

// What stands behind a `:` that a text begins with.
pub(crate) fn after_colon(text: &[u8]) -> Option<&[u8]>
    ensures found { IfSome result (λ tail. text.now ≡ 58 ∷ tail.now) }
    ensures none { IfNone result ((tail : List ℕ) → text.now ≢ 58 ∷ tail) }
{
    match text.split_first() {
        Some((byte, tail)) => { if *byte == COLON { Some(tail) } else { None } }
        None => None,
    }
}
