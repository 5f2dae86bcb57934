//! Decimal numbers as texts.
ghost use Rattle.std.specs.Prelude.{◌≡◌, ◌≢◌, ◌<◌, ◌^◌, ℕ, decimal, IfSome, IfNone};

use itoa::Buffer;

/// The number below 2^32 that a text spells in decimal digits: no sign, and no leading zero but in `0` itself.
pub fn number(text: &[u8]) -> Option<u32>
    ensures found { IfSome result (λ number. text.now ≡ decimal number) }
    ensures only { IfSome result
        (λ number. (other : ℕ) → other < 2 ^ 32 → text.now ≡ decimal other → other ≡ number) }
    ensures none { IfNone result ((other : ℕ) → other < 2 ^ 32 → text.now ≢ decimal other) }
{
    match str::from_utf8(text) {
        Ok(text) => number_in(text),
        Err(_) => None,
    }
}

/// The number up to 255 that a text spells in decimal digits, as `number` reads them.
pub fn octet(text: &[u8]) -> Option<u8>
    ensures found { IfSome result (λ number. text.now ≡ decimal number) }
    ensures only { IfSome result
        (λ number. (other : ℕ) → other < 256 → text.now ≡ decimal other → other ≡ number) }
    ensures none { IfNone result ((other : ℕ) → other < 256 → text.now ≢ decimal other) }
{
    let number = number(text)?;
    if number < 256 {
        Some(number as u8)
    } else {
        None
    }
}

/// The number up to 65,535 that a text spells in decimal digits, as `number` reads them.
pub fn half(text: &[u8]) -> Option<u16>
    ensures found { IfSome result (λ number. text.now ≡ decimal number) }
    ensures only { IfSome result
        (λ number. (other : ℕ) → other < 65536 → text.now ≡ decimal other → other ≡ number) }
    ensures none { IfNone result ((other : ℕ) → other < 65536 → text.now ≢ decimal other) }
{
    let number = number(text)?;
    if number < 65_536 {
        Some(number as u16)
    } else {
        None
    }
}

// `parse` takes a sign and leading zeros too, so that the text is compared with the number's own.
fn number_in(text: &str) -> Option<u32>
    ensures found { IfSome result (λ number. text.now ≡ decimal number) }
    ensures only { IfSome result
        (λ number. (other : ℕ) → other < 2 ^ 32 → text.now ≡ decimal other → other ≡ number) }
    ensures none { IfNone result ((other : ℕ) → other < 2 ^ 32 → text.now ≢ decimal other) }
{
    match text.parse::<u32>() {
        Ok(number) => {
            let mut buffer = Buffer::new();
            if buffer.format(number) == text {
                Some(number)
            } else {
                None
            }
        }
        Err(_) => None,
    }
}
