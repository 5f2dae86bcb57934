//! Attributes with a short value, and what stands before a value.
ghost use Rattle.std.specs.Prelude.{◌≡◌, ◌+◌, ◌^◌, ◌<◌, ◌≤◌, length};
ghost use Rattle.update_grammar.specs.Codes.{short_max};
ghost use Rattle.update_grammar.specs.Attributes.{raw_head, raw_text};
ghost use Rattle.update_grammar.specs.Values.{number_text};
ghost use Rattle.update_grammar.specs.Written.{flags_for, raw, raw_if};
ghost use Rattle.attr_codec.specs.Buffer.{HasRoom, Appended};
ghost use Rattle.attr_codec.specs.Groups.{number_attr};
ghost use Rattle.attr_codec.specs.Kind.{flags_of};
ghost use Rattle.attr_codec.specs.Sizes.{head_size};

use crate::codes::{EXTENDED_LENGTH, Kind, SHORT_MAX};
use crate::message::Message;
use crate::numbers::u32_bytes;

/// Puts flags, code and length of an attribute whose value has so many bytes.
pub fn put_head(out: &mut Message, kind: Kind, code: u8, len: usize)
    requires small { len < 2 ^ 16 }
    requires fits { HasRoom out.old (head_size len) }
    ensures { Appended out.old out.new (raw_head (flags_for (flags_of kind) len) code len) }
{
    if len > SHORT_MAX {
        out.append(&[kind.flags() + EXTENDED_LENGTH, code]);
        out.append_u16(len as u16);
    } else {
        out.append(&[kind.flags(), code, len as u8]);
    }
}

/// Puts an attribute whose value has at most 255 bytes.
pub fn put_plain(out: &mut Message, kind: Kind, code: u8, value: &[u8])
    requires small { length value.now ≤ short_max }
    requires fits { HasRoom out.old (length (raw_text (raw (flags_of kind) code value.now))) }
    ensures { Appended out.old out.new (raw_text (raw (flags_of kind) code value.now)) }
{
    put_head(out, kind, code, value.len());
    out.append(value);
}

/// Puts an attribute with a number in four bytes, where there is one.
pub fn put_number(out: &mut Message, kind: Kind, code: u8, number: Option<u32>)
    requires { HasRoom out.old (length (number_attr kind code number)) }
    ensures { Appended out.old out.new (number_attr kind code number) }
{
    if let Some(number) = number {
        put_plain(out, kind, code, &u32_bytes(number));
    }
}
