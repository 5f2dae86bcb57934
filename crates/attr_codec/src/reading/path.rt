//! Reads AS paths (RFC 4271, section 4.3; RFC 6793).
//!
//! ```text
//! +-------+-------+------------------+
//! | type  | count | AS numbers       |
//! | 1 byte| 1 byte| 4 bytes each     |
//! +-------+-------+------------------+
//! ```
ghost use Rattle.std.specs.Prelude.{◌≡◌, ◌++◌, IfOk};
ghost use Rattle.answers.specs.Gives.{Gives};
ghost use Rattle.route_values.specs.Path.{AllFilled};
ghost use Rattle.update_grammar.specs.ReadValues.{part_at, path_in};
ghost use Rattle.attr_codec.specs.Faults.{value_blame};
ghost use Rattle.attr_codec.specs.Raws.{part_of, as_segment, IsTold};

use super::values::numbers_from;
use crate::codes::{AS_SEQUENCE, AS_SET, NUMBER_LEN};
use crate::fault::ValueFault;
use answers::NoMemory;
use route_values::{AsPath, Segment, U32s};
use std::alloc::Global;

// What stands in the place of a segment, whether or not it is one.
#[derive(Debug, Drop)]
struct RawSegment {
    kind: u8,
    numbers: U32s,
}

/// An AS_PATH. All of it is walked through before it is looked at whether its parts are segments.
pub fn path_in(alloc: Global, value: &[u8]) -> Result<AsPath, ValueFault>
    ensures { Gives (λ path. path) value_blame result (path_in value.now) }
{
    let mut segments = Vec::new(alloc);
    let mut good = true;
    let mut rest = value;
    'parts: while !rest.is_empty() {
        let (part, behind) = part_at(alloc, rest)?;
        good &= push_part(&mut segments, part)?;
        rest = behind;
    }
    if !good {
        return Err(ValueFault::BadValue);
    }
    Ok(AsPath::from_segments(segments))
}

// The part at the front and the bytes behind it.
#[tactic(auto, unfolding(update_grammar::specs::ReadValues::part_at))]
fn part_at(alloc: Global, bytes: &[u8]) -> Result<(RawSegment, &[u8]), ValueFault>
    ensures { Gives (λ one. (part_of one.0, tt, one.1.now)) value_blame result
        (part_at tt bytes.now) }
{
    let [kind, count, rest @ ..] = bytes else {
        return Err(ValueFault::BadLength);
    };
    let len = usize::from(*count) * NUMBER_LEN;
    if rest.len() < len {
        return Err(ValueFault::BadLength);
    }
    let (numbers, rest) = rest.split_at(len);
    let part = RawSegment {
        kind: *kind,
        numbers: numbers_from(alloc, numbers)?,
    };
    Ok((part, rest))
}

// Puts the segment that a part is at the end, or answers false where it is none.
fn push_part(segments: &mut Vec<Segment>, part: RawSegment) -> Result<bool, NoMemory>
    ensures { IfOk result (λ good.
        IsTold good segments.old.items (part_of part) segments.new.items) }
{
    let Some(segment) = segment_of(part) else {
        return Ok(false);
    };
    segments.push(segment)?;
    Ok(true)
}

// The segment that a part is, if it has one of the two types and at least one number.
fn segment_of(part: RawSegment) -> Option<Segment>
    ensures { result ≡ as_segment (part_of part) }
{
    let RawSegment { kind, numbers } = part;
    let set = kind == AS_SET;
    if (set || kind == AS_SEQUENCE) && numbers.len() != 0 {
        Some(Segment { set, numbers })
    } else {
        None
    }
}
