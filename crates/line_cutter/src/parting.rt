//! A stream that is parted at a line feed.
ghost use Rattle.std.specs.Prelude.{◌≡◌, ◌≢◌, ◌++◌, ◌∷◌, All, IfSome, IfNone};

use memchr::memchr;

/// What stands before the first line feed and what stands behind it, or None where there is none.
pub fn parted(bytes: &[u8]) -> Option<(&[u8], &[u8])>
    ensures found { IfSome result (λ parts. bytes.now ≡ parts.0.now ++ 10 ∷ parts.1.now) }
    ensures first { IfSome result (λ parts. All (λ b. b ≢ 10) parts.0.now) }
    ensures none { IfNone result (All (λ b. b ≢ 10) bytes.now) }
{
    let feed = memchr(b'\n', bytes)?;
    Some((&bytes[..feed], &bytes[feed + 1..]))
}
