//! How many bytes a prefix takes in a message.
ghost use Rattle.std.specs.Prelude.{◌≡◌, ◌<◌, ◌≤◌, length};
ghost use Rattle.update_grammar.specs.Prefixes.{bytes_for, key_text, block_text};
ghost use Rattle.update_codec.specs.Sizes.{longest_key};

use attr_codec::codes::{BYTE_BITS, ID_LEN};
use route_values::{Key, Prefix};

// How many bytes the bit count of a prefix has (RFC 4271, section 4.3).
const COUNT_LEN: usize = 1;

/// How many bytes a key takes: its identifier, where the session has path identifiers (RFC 7911, section 3), a bit
/// count, and the fewest bytes that hold so many bits.
pub fn key_len(key: &Key, path: bool) -> usize
    ensures value { result ≡ length (key_text path key.now) }
    ensures some { 0 < result }
    ensures small { result ≤ longest_key }
{
    let id_len = if path { ID_LEN } else { 0 };
    id_len + block_len(&key.prefix)
}

fn block_len(prefix: &Prefix) -> usize
    ensures value { result ≡ length (block_text prefix.now) }
    ensures some { 0 < result }
    ensures small { result ≤ 17 }
{
    COUNT_LEN + bytes_of(prefix.len())
}

// The fewest bytes that hold so many bits.
fn bytes_of(bits: u8) -> usize
    ensures { result ≡ bytes_for bits }
{
    usize::from(bits).div_ceil(BYTE_BITS)
}
