//! Attributes that are lists of values of one length.
ghost use Rattle.std.specs.Prelude.{◌≤◌, length};
ghost use Rattle.update_grammar.specs.Codes.{code_extended, code_large, large_len};
ghost use Rattle.update_grammar.specs.Attributes.{optional_transitive};
ghost use Rattle.update_grammar.specs.Values.{numbers_text, exts_text, large_text, larges_text};
ghost use Rattle.update_grammar.specs.Written.{raw_some};
ghost use Rattle.attr_codec.specs.Buffer.{HasRoom, Appended, max_message};
ghost use Rattle.attr_codec.specs.Groups.{numbers_attr, exts_attr, larges_attr};
ghost use Rattle.attr_codec.specs.Kind.{flags_of};

use super::head::put_head;
use crate::codes::{EXT_LEN, EXTENDED_COMMUNITIES, Kind, LARGE_COMMUNITY, LARGE_LEN, NUMBER_LEN};
use crate::message::Message;
use route_values::Large;

/// Puts a list of numbers, unless it is empty.
pub fn put_u32s(out: &mut Message, kind: Kind, code: u8, numbers: &[u32])
    requires room { out.old.room ≤ max_message }
    requires fits { HasRoom out.old (length (numbers_attr kind code numbers.now)) }
    ensures { Appended out.old out.new (numbers_attr kind code numbers.now) }
{
    if numbers.is_empty() {
        return;
    }
    put_head(out, kind, code, numbers.len() * NUMBER_LEN);
    put_numbers(out, numbers);
}

/// Puts EXTENDED COMMUNITIES, unless there is none.
pub fn put_exts(out: &mut Message, exts: &[[u8; 8]])
    requires room { out.old.room ≤ max_message }
    requires fits { HasRoom out.old (length (exts_attr exts.now)) }
    ensures { Appended out.old out.new (exts_attr exts.now) }
{
    if exts.is_empty() {
        return;
    }
    put_head(
        out,
        Kind::OptionalTransitive,
        EXTENDED_COMMUNITIES,
        exts.len() * EXT_LEN,
    );
    put_ext_values(out, exts);
}

/// Puts LARGE_COMMUNITY, unless there is none.
pub fn put_larges(out: &mut Message, larges: &[Large])
    requires room { out.old.room ≤ max_message }
    requires fits { HasRoom out.old (length (larges_attr larges.now)) }
    ensures { Appended out.old out.new (larges_attr larges.now) }
{
    if larges.is_empty() {
        return;
    }
    put_head(
        out,
        Kind::OptionalTransitive,
        LARGE_COMMUNITY,
        larges.len() * LARGE_LEN,
    );
    put_large_values(out, larges);
}

/// Puts numbers in four bytes each.
pub fn put_numbers(out: &mut Message, numbers: &[u32])
    requires { HasRoom out.old (length (numbers_text numbers.now)) }
    ensures { Appended out.old out.new (numbers_text numbers.now) }
{
    for number in numbers {
        out.append_u32(*number);
    }
}

fn put_ext_values(out: &mut Message, exts: &[[u8; 8]])
    requires { HasRoom out.old (length (exts_text exts.now)) }
    ensures { Appended out.old out.new (exts_text exts.now) }
{
    for ext in exts {
        out.append(ext);
    }
}

fn put_large_values(out: &mut Message, larges: &[Large])
    requires { HasRoom out.old (length (larges_text larges.now)) }
    ensures { Appended out.old out.new (larges_text larges.now) }
{
    for large in larges {
        put_large(out, large);
    }
}

fn put_large(out: &mut Message, large: &Large)
    requires { HasRoom out.old large_len }
    ensures { Appended out.old out.new (large_text large.now) }
{
    out.append_u32(large.global);
    out.append_u32(large.first);
    out.append_u32(large.second);
}
