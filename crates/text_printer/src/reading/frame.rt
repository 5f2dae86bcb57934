//! The message that bytes are.
ghost use Rattle.std.specs.Prelude.{◌≡◌, ◌↔◌, ◌≤◌, [], ◌∷◌, ◌++◌, List, ℕ, IfSome, IfNone, IsTrue};
ghost use Rattle.std.specs.Prelude.{replicate};
ghost use Rattle.std.specs.Int.{w16, to_be_bytes};
ghost use Rattle.frame_cutter.specs.Frames.{greatest};
ghost use Rattle.text_printer.specs.Forms.{IsSized, IsUpdate, wide_of};

use crate::reading::is;
use frame_cutter::kinds::{HEADER_LEN, MAX_LEN, MAX_LONG_LEN, UPDATE};
use route_values::Caps;

// The byte of which a marker is made (RFC 4271, section 4.1).
const ONES: u8 = 0xFF;

// The least length of an UPDATE: a header and two lengths (RFC 4271, section 4.3).
const MIN_UPDATE: usize = 23;

/// The body of the UPDATE that the bytes are, or None where they aren't one whole UPDATE and nothing more.
pub fn update_body<'a>(bytes: &'a [u8], caps: &Caps) -> Option<&'a [u8]>
    ensures found { IfSome result (λ body. IsUpdate caps.now bytes.now body.now) }
    ensures none { IfNone result ((body : List ℕ) → IsUpdate caps.now bytes.now body → ⊥) }
{
    if !is_sized(bytes.len(), caps) {
        return None;
    }
    let (front, body) = bytes.split_at(HEADER_LEN);
    if is(front, &header(bytes.len() as u16)) {
        Some(body)
    } else {
        None
    }
}

// Whether an UPDATE may have so many bytes.
fn is_sized(len: usize, caps: &Caps) -> bool
    ensures { IsTrue result ↔ IsSized caps.now len }
{
    len >= MIN_UPDATE && len <= greatest(caps)
}

// How long a message may be.
fn greatest(caps: &Caps) -> usize
    ensures value { result ≡ greatest (wide_of caps.now) }
    ensures small { result ≤ 65535 }
{
    if caps.extended() {
        MAX_LONG_LEN
    } else {
        MAX_LEN
    }
}

// The header of an UPDATE of so many bytes, header included: a marker, this length, and the type.
fn header(len: u16) -> [u8; HEADER_LEN]
    ensures { result ≡ replicate 16 255 ++ (to_be_bytes w16 len ++ 2 ∷ []) }
{
    let [high, low] = len.to_be_bytes();
    [
        ONES, ONES, ONES, ONES, ONES, ONES, ONES, ONES, ONES, ONES, ONES, ONES, ONES, ONES, ONES,
        ONES, high, low, UPDATE,
    ]
}
