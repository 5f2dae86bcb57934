//! Cuts attributes off the front of bytes, with values that aren't looked at yet (RFC 4271, section 4.3).
ghost use Rattle.std.specs.Prelude.{◌≡◌, ◌+◌, length, option_map, IfSome};
ghost use Rattle.update_grammar.specs.Attributes.{is_extended};
ghost use Rattle.update_grammar.specs.ReadAttributes.{len_at, raw_at, head_len};
ghost use Rattle.attr_codec.specs.Raws.{raw_of};

use crate::codes::EXTENDED_LENGTH;
use crate::numbers::read_u16;

/// An attribute whose value isn't looked at yet.
#[derive(Clone, Copy, Debug)]
pub struct RawAttr<'a> {
    pub flags: u8,
    pub code: u8,
    pub value: &'a [u8],
}

/// The attribute at the front and the bytes behind it, or None where it is cut.
#[tactic(auto, unfolding(update_grammar::specs::ReadAttributes::raw_at))]
pub fn raw_at(bytes: &[u8]) -> Option<(RawAttr<'_>, &[u8])>
    ensures value { option_map (λ one. (raw_of one.0, one.1.now)) result ≡ raw_at bytes.now }
    ensures parts { IfSome result (λ one.
        head_len one.0.flags + length one.0.value.now + length one.1.now ≡ length bytes.now) }
{
    let [flags, code, rest @ ..] = bytes else {
        return None;
    };
    let Some((len, rest)) = len_at(rest, is_extended(*flags)) else {
        return None;
    };
    if rest.len() < len {
        return None;
    }
    let (value, rest) = rest.split_at(len);
    let attr = RawAttr {
        flags: *flags,
        code: *code,
        value,
    };
    Some((attr, rest))
}

/// Whether the length has two bytes.
pub fn is_extended(flags: u8) -> bool
    ensures { result ≡ is_extended flags }
{
    flags & EXTENDED_LENGTH != 0
}

// The length at the front, of two bytes or of one, and the bytes behind it.
fn len_at(bytes: &[u8], extended: bool) -> Option<(usize, &[u8])>
    ensures value { option_map (λ one. (one.0, one.1.now)) result ≡ len_at extended bytes.now }
{
    match bytes {
        [_, _, rest @ ..] if extended => Some((read_u16(bytes).into(), rest)),
        [len, rest @ ..] if !extended => Some(((*len).into(), rest)),
        _ => None,
    }
}
