//! AS_PATH.
ghost use Rattle.std.specs.Prelude.{◌≤◌, All, length};
ghost use Rattle.update_grammar.specs.Codes.{code_as_path};
ghost use Rattle.update_grammar.specs.Attributes.{raw_text, transitive};
ghost use Rattle.update_grammar.specs.Values.{path_text, segment_text};
ghost use Rattle.update_grammar.specs.Written.{raw};
ghost use Rattle.attr_codec.specs.Buffer.{HasRoom, Appended, max_message};
ghost use Rattle.attr_codec.specs.Groups.{path_attr};
ghost use Rattle.attr_codec.specs.Sizes.{IsShort};

use super::head::put_head;
use super::lengths::path_len;
use super::lists::put_numbers;
use crate::codes::{AS_PATH, AS_SEQUENCE, AS_SET, Kind};
use crate::message::Message;
use route_values::{AsPath, Segment};

/// Puts AS_PATH.
pub fn put_path(out: &mut Message, path: &AsPath)
    requires short { All IsShort path.now }
    requires room { out.old.room ≤ max_message }
    requires fits { HasRoom out.old (length (path_attr path.now)) }
    ensures { Appended out.old out.new (path_attr path.now) }
{
    put_head(out, Kind::WellKnown, AS_PATH, path_len(path));
    put_segments(out, path.segments());
}

fn put_segments(out: &mut Message, segments: &[Segment])
    requires short { All IsShort segments.now }
    requires fits { HasRoom out.old (length (path_text segments.now)) }
    ensures { Appended out.old out.new (path_text segments.now) }
{
    for segment in segments {
        put_segment(out, segment);
    }
}

fn put_segment(out: &mut Message, segment: &Segment)
    requires short { IsShort segment.now }
    requires fits { HasRoom out.old (length (segment_text segment.now)) }
    ensures { Appended out.old out.new (segment_text segment.now) }
{
    let kind = if segment.set { AS_SET } else { AS_SEQUENCE };
    out.append(&[kind, segment.numbers.len() as u8]);
    put_numbers(out, segment.numbers.as_slice());
}
