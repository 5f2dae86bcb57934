//! Why a message is refused.
ghost use Rattle.std.specs.Prelude.{◌≡◌, ◌≤◌, length};
ghost use Rattle.frame_cutter.specs.Refusals.{refused};

use arrayvec::ArrayVec;

// How many bytes of data a refusal has at most.
const DETAIL_MAX: usize = 8;

/// Why a message is refused: what the NOTIFICATION that answers it says (RFC 4271, section 4.5).
///
/// ```text
/// +------+-----+--------+
/// | code | sub | detail |
/// | 1    | 1   | 0 to 8 |
/// +------+-----+--------+
/// ```
#[derive(Debug, PartialEq, Drop)]
pub struct Refusal {
    /// The error code.
    pub code: u8,
    /// The error subcode, which has a meaning under its code alone.
    pub sub: u8,
    /// The data.
    pub detail: ArrayVec<u8, DETAIL_MAX>,
}

impl Refusal {
    /// A refusal with this data.
    pub fn new(code: u8, sub: u8, detail: &[u8]) -> Refusal
        requires { length detail.now ≤ 8 }
        ensures { result ≡ refused code sub detail.now }
    {
        let mut kept = ArrayVec::new();
        let _ = kept.try_extend_from_slice(detail);
        Refusal {
            code,
            sub,
            detail: kept,
        }
    }
}
