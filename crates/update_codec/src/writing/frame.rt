//! What every UPDATE has: a header, and the lengths of the two fields before its prefixes.
//!
//! ```text
//! +--------+--------+------+-----------+-----------+------------+------------+----------+
//! | marker | length | type | withdrawn | withdrawn | attributes | attributes | prefixes |
//! | 16     | 2      | 1    | length: 2 |           | length: 2  |            |          |
//! +--------+--------+------+-----------+-----------+------------+------------+----------+
//! ```
ghost use Rattle.std.specs.Prelude.{ℕ, ◌≡◌, ◌+◌, ◌≤◌, ◌∷◌, [], ◌++◌, List, length};
ghost use Rattle.std.specs.Int.{w16, to_be_bytes};
ghost use Rattle.update_grammar.specs.Codes.{header_len, update_type};
ghost use Rattle.update_grammar.specs.Update.{body};
ghost use Rattle.update_grammar.specs.Written.{header, message};
ghost use Rattle.attr_codec.specs.Buffer.{HasRoom, Appended, max_message};
ghost use Rattle.update_codec.specs.Sizes.{frame_len};
ghost use Rattle.update_codec.specs.Unsealed.{unsealed};

use attr_codec::Message;
use attr_codec::numbers::u16_bytes;

// The marker at the front of each message (RFC 4271, section 4.1).
const MARKER: [u8; 16] = [255; 16];

// The type of UPDATE messages (RFC 4271, section 4.1).
const UPDATE: u8 = 2;

// The length of the withdrawn prefixes where there is none.
const NO_WITHDRAWN: [u8; 2] = [0, 0];

// Where the length of the attributes stands, if no route is withdrawn (RFC 4271, section 4.3).
const ATTRIBUTES_LEN: usize = 21;

/// How many bytes the length of a field has (RFC 4271, section 4.3).
pub const LEN_LEN: usize = 2;

/// How many bytes an UPDATE has without withdrawn prefixes, attributes and prefixes: a header of 19 bytes and two
/// lengths (RFC 4271, section 4.3).
pub const FRAME_LEN: usize = 23;

/// Puts all that stands before attributes of so many bytes, where no prefix stands behind them.
pub fn put_frame(out: &mut Message, len: usize)
    requires small { frame_len + len ≤ max_message }
    requires fits { HasRoom out.old frame_len }
    ensures { Appended out.old out.new
        (header (frame_len + len) update_type ++ (0 ∷ 0 ∷ to_be_bytes w16 len)) }
{
    put_header(out, (FRAME_LEN + len) as u16);
    out.append(&NO_WITHDRAWN);
    out.append_u16(len as u16);
}

/// Makes the lengths of the attributes and of the message right, where no prefix stands before or behind them.
pub fn close_attributes(out: &mut Message)
    requires { frame_len ≤ length out.old.bytes }
    ensures bytes { (total field : ℕ) → (attributes : List ℕ)
        → out.old.bytes ≡ unsealed total field attributes
        → out.new.bytes ≡ message update_type (body [] attributes []) }
    ensures len { length out.new.bytes ≡ length out.old.bytes }
    ensures room { out.new.room ≡ out.old.room }
{
    let len = out.bytes().len() - FRAME_LEN;
    out.overwrite(ATTRIBUTES_LEN, &u16_bytes(len as u16));
    out.seal();
}

fn put_header(out: &mut Message, len: u16)
    requires { HasRoom out.old header_len }
    ensures { Appended out.old out.new (header len update_type) }
{
    out.append(&MARKER);
    out.append_u16(len);
    out.append(&[UPDATE]);
}
