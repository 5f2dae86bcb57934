//! The text of one prefix, with the identifier exactly where the session has path identifiers for its family.
ghost use Rattle.std.specs.Prelude.{ℕ, ◌≡◌, ◌+◌, ◌≤◌, [], ◌++◌, List, length, if◌then◌else◌};
ghost use Rattle.std.specs.Int.{w32, to_be_bytes};
ghost use Rattle.update_grammar.specs.Prefixes.{bytes_for, key_text, block_text};
ghost use Rattle.attr_codec.specs.Buffer.{HasRoom, Appended};
ghost use Rattle.update_codec.specs.Sizes.{longest_key};

use attr_codec::Message;
use attr_codec::codes::{BYTE_BITS, ID_LEN};
use attr_codec::numbers::{u32_bytes, u128_bytes};
use route_values::{Addr, Key, Prefix};

/// How many bytes a prefix takes: its identifier, a bit count, and the fewest bytes that hold so many bits.
pub fn key_len(key: &Key, path: bool) -> usize
    ensures value { result ≡ length (key_text path key.now) }
    ensures small { result ≤ longest_key }
{
    let id_len = if path { ID_LEN } else { 0 };
    id_len + block_len(&key.prefix)
}

/// Puts a prefix at the end.
pub fn put_key(out: &mut Message, key: &Key, path: bool)
    requires { HasRoom out.old (length (key_text path key.now)) }
    ensures { Appended out.old out.new (key_text path key.now) }
{
    put_id(out, key.id, path);
    put_block(out, &key.prefix);
}

/// Puts a prefix before the byte at `place`.
pub fn insert_key(out: &mut Message, place: usize, key: &Key, path: bool)
    requires within { place ≤ length out.old.bytes }
    requires fits { HasRoom out.old (length (key_text path key.now)) }
    ensures bytes { (before after : List ℕ) → length before ≡ place
        → out.old.bytes ≡ before ++ after
        → out.new.bytes ≡ before ++ (key_text path key.now ++ after) }
    ensures len { length out.new.bytes ≡ length out.old.bytes + length (key_text path key.now) }
    ensures room { out.new.room ≡ out.old.room }
{
    put_key(out, key, path);
    out.move_last(place, key_len(key, path));
}

fn block_len(prefix: &Prefix) -> usize
    ensures value { result ≡ length (block_text prefix.now) }
    ensures small { result ≤ 17 }
{
    1 + bytes_of(prefix.len())
}

// The fewest bytes that hold so many bits.
fn bytes_of(bits: u8) -> usize
    ensures { result ≡ bytes_for bits }
{
    usize::from(bits).div_ceil(BYTE_BITS)
}

fn put_id(out: &mut Message, id: u32, path: bool)
    requires { HasRoom out.old (length (if path then to_be_bytes w32 id else [])) }
    ensures { Appended out.old out.new (if path then to_be_bytes w32 id else []) }
{
    if path {
        out.append_u32(id);
    }
}

fn put_block(out: &mut Message, prefix: &Prefix)
    requires { HasRoom out.old (length (block_text prefix.now)) }
    ensures { Appended out.old out.new (block_text prefix.now) }
{
    let bits = prefix.len();
    let bytes = bytes_of(bits);
    out.append(&[bits]);
    match prefix.addr() {
        Addr::V4(number) => out.append(&u32_bytes(number)[..bytes]),
        Addr::V6(number) => out.append(&u128_bytes(number)[..bytes]),
    }
}
