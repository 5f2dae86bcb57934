//! IPv6 addresses as texts (RFC 4291, section 2.2).
ghost use Rattle.std.specs.Prelude.{◌≡◌, ◌≢◌, ◌+◌, ◌*◌, ◌<◌, ◌≤◌, ◌++◌, ◌∷◌, [], ℕ, List, length};
ghost use Rattle.std.specs.Prelude.{replicate};
ghost use Rattle.std.specs.Prelude.{IfSome, IfNone};
ghost use Rattle.text_forms.specs.Ipv6.{AreBehind, IsEnd, IsFilled, IsIpv6, SpellNumber};

use crate::groups::{GROUPS, after_colon, coloned, ended};
use arrayvec::ArrayVec;

// How many values a group has, and four groups.
const GROUP_VALUES: u64 = 65_536;

const HALF_VALUES: u128 = 1 << 64;

// What `::` stands for.
const ZEROS: [u16; GROUPS] = [0; GROUPS];

/// The IPv6 address that a text spells (RFC 4291, section 2.2): eight groups of one to four hexadecimal digits of
/// either case joined by `:`. `::` stands once at most, for one or more groups of zeros. The last two groups may be
/// written as an IPv4 address.
pub fn ipv6(text: &[u8]) -> Option<u128>
    ensures found { IfSome result (λ number. IsIpv6 text.now number) }
    ensures only { IfSome result (λ number. (other : ℕ) → IsIpv6 text.now other → other ≡ number) }
    ensures none { IfNone result ((other : ℕ) → IsIpv6 text.now other → ⊥) }
{
    match after_colon(text) {
        Some(tail) => colon_led(tail),
        None => group_led(text),
    }
}

// The address of a text that begins with a `:`, by what follows that.
fn colon_led(tail: &[u8]) -> Option<u128>
    ensures found { IfSome result (λ number. IsIpv6 (58 ∷ tail.now) number) }
    ensures none { IfNone result ((other : ℕ) → IsIpv6 (58 ∷ tail.now) other → ⊥) }
{
    let back = after_colon(tail)?;
    shortened(ArrayVec::new(), back)
}

// The address of a text that begins with no `:`.
fn group_led(text: &[u8]) -> Option<u128>
    requires { (tail : List ℕ) → text.now ≢ 58 ∷ tail }
    ensures found { IfSome result (λ number. IsIpv6 text.now number) }
    ensures none { IfNone result ((other : ℕ) → IsIpv6 text.now other → ⊥) }
{
    let (groups, rest) = coloned(text)?;
    match after_colon(rest) {
        Some(back) => shortened(groups, back),
        None => whole(groups, rest),
    }
}

// The address of groups that have `:` behind them, and of a text that ends it.
fn whole(groups: ArrayVec<u16, GROUPS>, rest: &[u8]) -> Option<u128>
    ensures found { IfSome result (λ number. (last : List ℕ) × IsEnd rest.now last
        × SpellNumber (groups.items ++ last) number) }
    ensures none { IfNone result ((last : List ℕ) (other : ℕ) → IsEnd rest.now last
        → SpellNumber (groups.items ++ last) other → ⊥) }
{
    let all = ended(groups, rest)?;
    number_of(all.as_slice())
}

// The address of the groups before `::`, and of the text behind it.
fn shortened(before: ArrayVec<u16, GROUPS>, back: &[u8]) -> Option<u128>
    ensures found { IfSome result (λ number. IsFilled before.items back.now number) }
    ensures none { IfNone result ((other : ℕ) → IsFilled before.items back.now other → ⊥) }
{
    let behind = groups_behind(back)?;
    filled(before, behind.as_slice())
}

// The groups of a text behind `::`.
fn groups_behind(back: &[u8]) -> Option<ArrayVec<u16, GROUPS>>
    ensures found { IfSome result (λ groups. AreBehind back.now groups.items) }
    ensures none { IfNone result ((groups : List ℕ) → length groups ≤ 8 → AreBehind back.now groups
        → ⊥) }
{
    if back.is_empty() {
        return Some(ArrayVec::new());
    }
    let (first, rest) = coloned(back)?;
    ended(first, rest)
}

// The address of the groups before and behind `::`.
fn filled(before: ArrayVec<u16, GROUPS>, behind: &[u16]) -> Option<u128>
    requires { length behind.now ≤ 8 }
    ensures found { IfSome result (λ number. (zeros : ℕ) × (0 < zeros)
        × SpellNumber (before.items ++ (replicate zeros 0 ++ behind.now)) number) }
    ensures none { IfNone result (8 ≤ length before.items + length behind.now) }
{
    let count = before.len() + behind.len();
    if count >= GROUPS {
        return None;
    }
    let padded = with_all(before, &ZEROS[..GROUPS - count]);
    let all = with_all(padded, behind);
    number_of(all.as_slice())
}

// Groups and more behind them, for which there is room.
fn with_all(groups: ArrayVec<u16, GROUPS>, more: &[u16]) -> ArrayVec<u16, GROUPS>
    requires { length groups.items + length more.now ≤ 8 }
    ensures { result.items ≡ groups.items ++ more.now }
{
    let mut all = groups;
    let _ = all.try_extend_from_slice(more);
    all
}

// The number that eight groups spell.
fn number_of(groups: &[u16]) -> Option<u128>
    ensures found { IfSome result (λ number. SpellNumber groups.now number) }
    ensures none { IfNone result (length groups.now ≢ 8) }
{
    match groups {
        [a, b, c, d, e, f, g, h] => {
            let high = four(*a, *b, *c, *d);
            let low = four(*e, *f, *g, *h);
            Some(u128::from(high) * HALF_VALUES + u128::from(low))
        }
        _ => None,
    }
}

// The number of which four groups are the digits.
fn four(a: u16, b: u16, c: u16, d: u16) -> u64
    ensures { result ≡ ((a * 65536 + b) * 65536 + c) * 65536 + d }
{
    let high = u64::from(a) * GROUP_VALUES + u64::from(b);
    let low = u64::from(c) * GROUP_VALUES + u64::from(d);
    high * (GROUP_VALUES * GROUP_VALUES) + low
}
