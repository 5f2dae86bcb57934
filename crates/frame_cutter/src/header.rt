//! The header of a message.
//!
//! ```text
//! +--------+--------+------+------------------+
//! | marker | length | type | body             |
//! | 16     | 2      | 1    | length less 19   |
//! +--------+--------+------+------------------+
//! ```
ghost use Rattle.std.specs.Prelude.{◌≡◌, ◌==◌, ◌≤◌, length, IfNone};
ghost use Rattle.std.specs.List.{list_all};
ghost use Rattle.frame_cutter.specs.Header.{header_of, length_of, header_fault};
ghost use Rattle.frame_cutter.specs.Refusals.{bad_length};
ghost use Rattle.frame_cutter.specs.Front.{front};
ghost use Rattle.frame_cutter.specs.Told.{told};

use crate::codes::{BAD_LENGTH, BAD_TYPE, HEADER_ERROR, NOT_SYNCHRONIZED};
use crate::kinds::{HEADER_LEN, Lengths, lengths_of};
use crate::next::Next;
use crate::refusal::Refusal;

// Where the length of the whole message stands in its header (RFC 4271, section 4.1).
const LEN_START: usize = 16;

// Where its type stands.
const KIND_AT: usize = 18;

// The byte of which a marker is made (RFC 4271, section 4.1).
const ONES: u8 = 0xFF;

/// What stands at the front of bytes, where messages have at most `most` bytes.
#[tactic(auto, unfolding(crate::specs::Front::front))]
pub fn front(bytes: &[u8], most: usize) -> Next<'_>
    ensures { told result ≡ front most bytes.now }
{
    if bytes.len() < HEADER_LEN {
        return Next::NotYet;
    }
    if let Some(refusal) = fault_in(bytes, most) {
        return Next::Fault(refusal);
    }
    let len = length_in(bytes);
    if bytes.len() < len {
        return Next::NotYet;
    }
    Next::Frame {
        kind: bytes[KIND_AT],
        body: &bytes[HEADER_LEN..len],
    }
}

// The first fault of the header in front.
#[tactic(auto, unfolding(crate::specs::Header::header_fault))]
fn fault_in(bytes: &[u8], most: usize) -> Option<Refusal>
    requires { 19 ≤ length bytes.now }
    ensures first { result ≡ header_fault most (header_of bytes.now) }
    ensures long { IfNone result (19 ≤ length_of (header_of bytes.now)) }
{
    if !is_marked(bytes) {
        return Some(Refusal::new(HEADER_ERROR, NOT_SYNCHRONIZED, &[]));
    }
    let any = Lengths {
        least: HEADER_LEN,
        greatest: most,
    };
    let len = length_in(bytes);
    if !any.contains(len) {
        return Some(bad_length(bytes));
    }
    match lengths_of(bytes[KIND_AT], most) {
        None => Some(Refusal::new(HEADER_ERROR, BAD_TYPE, &[bytes[KIND_AT]])),
        Some(lengths) if lengths.contains(len) => None,
        Some(_) => Some(bad_length(bytes)),
    }
}

// Whether the marker is all ones.
fn is_marked(bytes: &[u8]) -> bool
    requires { 19 ≤ length bytes.now }
    ensures { result ≡ list_all (λ byte. byte == 255) (header_of bytes.now).marker }
{
    bytes[..LEN_START].iter().all(|byte| *byte == ONES)
}

// The length of the whole message.
fn length_in(bytes: &[u8]) -> usize
    requires { 19 ≤ length bytes.now }
    ensures { result ≡ length_of (header_of bytes.now) }
{
    u16::from_be_bytes([bytes[LEN_START], bytes[LEN_START + 1]]).into()
}

fn bad_length(bytes: &[u8]) -> Refusal
    requires { 19 ≤ length bytes.now }
    ensures { result ≡ bad_length (header_of bytes.now).field }
{
    Refusal::new(HEADER_ERROR, BAD_LENGTH, &bytes[LEN_START..KIND_AT])
}
