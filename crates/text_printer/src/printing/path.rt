//! Paths of AS numbers (RFC 4271, section 4.3).
ghost use Rattle.std.specs.Prelude.{OnOk};
ghost use Rattle.std.specs.List.{flat_map};
ghost use Rattle.text_printer.specs.Items.{path_tokens, segment_tokens, set_tokens};
ghost use Rattle.text_printer.specs.Spaced.{GoesOn};

use super::lists::put_each;
use super::tokens::{put_mark, put_word};
use super::values::Number;
use route_values::{AsPath, NoMemory, Segment};

/// Puts a path, also an empty one.
pub fn put_path(text: &mut Vec<u8>, path: &AsPath) -> Result<(), NoMemory>
    ensures { OnOk result (GoesOn (path_tokens path.now) text.old.items text.new.items) }
{
    put_word(text, b"as-path")?;
    put_mark(text, b'[')?;
    put_segments(text, path.segments())?;
    put_mark(text, b']')?;
    Ok(())
}

fn put_segments(text: &mut Vec<u8>, segments: &[Segment]) -> Result<(), NoMemory>
    ensures { OnOk result (GoesOn (flat_map segment_tokens segments.now) text.old.items
        text.new.items) }
{
    for segment in segments {
        put_segment(text, segment)?;
    }
    Ok(())
}

// A sequence is its numbers, and a set has parentheses round them.
fn put_segment(text: &mut Vec<u8>, segment: &Segment) -> Result<(), NoMemory>
    ensures { OnOk result (GoesOn (segment_tokens segment.now) text.old.items text.new.items) }
{
    let numbers = segment.numbers.as_slice();
    if segment.set {
        put_set(text, numbers)
    } else {
        put_each(text, &Number, numbers)
    }
}

fn put_set(text: &mut Vec<u8>, numbers: &[u32]) -> Result<(), NoMemory>
    ensures { OnOk result (GoesOn (set_tokens numbers.now) text.old.items text.new.items) }
{
    put_mark(text, b'(')?;
    put_each(text, &Number, numbers)?;
    put_mark(text, b')')?;
    Ok(())
}
