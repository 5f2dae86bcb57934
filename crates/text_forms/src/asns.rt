//! AS numbers as texts.
ghost use Rattle.std.specs.Prelude.{◌≡◌, ◌≢◌, ◌+◌, ◌*◌, ◌<◌, ◌^◌, ◌++◌, ◌∷◌, ℕ, decimal};
ghost use Rattle.std.specs.Prelude.{IfSome, IfNone};
ghost use Rattle.text_forms.specs.Numbers.{IsAsn};

use crate::cutting::cut;
use crate::decimals::{half, number};

/// The AS number from 1 to 2^32 - 1 that a text spells, as one decimal number or as its two 16-bit halves
/// joined by a dot (RFC 5396, section 2: asplain, asdot+). A dot may stand in a number below 65,536 too.
pub fn asn(text: &[u8]) -> Option<u32>
    ensures found { IfSome result (λ number. IsAsn text.now number) }
    ensures only { IfSome result (λ number. (other : ℕ) → IsAsn text.now other → other ≡ number) }
    ensures none { IfNone result ((other : ℕ) → IsAsn text.now other → ⊥) }
{
    match cut(text, b'.') {
        Some((high, low)) => dotted_asn(high, low),
        None => plain_asn(text),
    }
}

// An AS number of which the halves are given.
fn dotted_asn(high: &[u8], low: &[u8]) -> Option<u32>
    ensures found { IfSome result (λ number. IsAsn (high.now ++ 46 ∷ low.now) number) }
    ensures none { IfNone result ((upper lower : ℕ) → upper < 65536 → lower < 65536
        → high.now ≡ decimal upper → low.now ≡ decimal lower → upper * 65536 + lower ≡ 0) }
{
    let high = half(high)?;
    let low = half(low)?;
    if high == 0 && low == 0 {
        return None;
    }
    Some(u32::from(high) * 65_536 + u32::from(low))
}

fn plain_asn(text: &[u8]) -> Option<u32>
    ensures found { IfSome result (λ number. IsAsn text.now number) }
    ensures none { IfNone result
        ((other : ℕ) → 0 < other → other < 2 ^ 32 → text.now ≢ decimal other) }
{
    let number = number(text)?;
    if number == 0 { None } else { Some(number) }
}
