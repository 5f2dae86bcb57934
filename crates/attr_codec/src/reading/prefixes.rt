//! Reads prefixes (RFC 4271, section 4.3; RFC 7911, section 3).
//!
//! ```text
//! +------------------+-------+----------------------------+
//! | path identifier  | bits  | address, as far as its bits|
//! | 4 bytes, or none | 1 byte| as few bytes as hold them  |
//! +------------------+-------+----------------------------+
//! ```
ghost use Rattle.std.specs.Prelude.{◌≡◌, ◌-◌, ◌*◌, ◌/◌, ◌^◌, ◌≤◌, List, Some, length, option_map};
ghost use Rattle.std.specs.Prelude.{IfErr, IfOk, Ok};
ghost use Rattle.answers.specs.Gives.{Gives};
ghost use Rattle.route_values.specs.declared.key.Key.{Key};
ghost use Rattle.route_values.specs.Addr.{bits_of};
ghost use Rattle.route_values.specs.Prefix.{IsPrefix};
ghost use Rattle.update_grammar.specs.Pieces.{SpellsEach};
ghost use Rattle.update_grammar.specs.Prefixes.{bytes_for, addr_from, SpellsKey};
ghost use Rattle.update_grammar.specs.ReadPrefixes.{id_at, block_at, key_at, keys_in};
ghost use Rattle.attr_codec.specs.Faults.{keys_blame, place_of_keys};

use crate::codes::{BYTE_BITS, ID_LEN, IPV4_BITS, IPV6_BITS};
use crate::fault::KeysFault;
use crate::numbers::{read_u32, u32_from, u128_from};
use route_values::{Addr, Family, Key, Keys, Prefix};
use std::alloc::Global;

/// The keys that bytes are made of, all of them, or the first prefix that is none. With `path` an identifier stands
/// before each prefix, else each identifier is 0. Bits past a prefix's count aren't looked at. The work grows with
/// the number of bytes.
pub fn read_keys(alloc: Global, bytes: &[u8], family: Family, path: bool) -> Result<Keys, KeysFault>
    // What is read is spelled, and what is spelled is read, unless memory runs out.
    ensures found { IfOk result (λ keys. SpellsEach (SpellsKey path family) bytes.now keys) }
    ensures only { (keys : List Key) → SpellsEach (SpellsKey path family) bytes.now keys
        → Gives (λ keys. keys) keys_blame result (Ok keys) }

    // Which prefix is at fault, and that it stands in the bytes.
    ensures exact { Gives (λ keys. keys) keys_blame result (keys_in path family bytes.now) }
    ensures within { IfErr result (λ fault. place_of_keys fault ≤ length bytes.now) }
{
    keys_in(alloc, bytes, family, path)
}

// The keys, one after the other.
fn keys_in(alloc: Global, bytes: &[u8], family: Family, path: bool) -> Result<Keys, KeysFault>
    ensures exact { Gives (λ keys. keys) keys_blame result (keys_in path family bytes.now) }
    ensures within { IfErr result (λ fault. place_of_keys fault ≤ length bytes.now) }
{
    let mut keys = Keys::new(alloc);
    let mut rest = bytes;
    'keys: while !rest.is_empty() {
        let Some((key, behind)) = key_at(rest, family, path) else {
            return Err(KeysFault::BadPrefix(bytes.len() - rest.len()));
        };
        keys.push(key)?;
        rest = behind;
    }
    Ok(keys)
}

// The key at the front and the bytes behind it.
#[tactic(auto, unfolding(update_grammar::specs::ReadPrefixes::key_at))]
fn key_at(bytes: &[u8], family: Family, path: bool) -> Option<(Key, &[u8])>
    ensures { option_map (λ one. (one.0, one.1.now)) result ≡ key_at path family bytes.now }
{
    let Some((id, rest)) = id_at(bytes, path) else {
        return None;
    };
    let Some((prefix, rest)) = prefix_at(rest, family) else {
        return None;
    };
    Some((Key { prefix, id }, rest))
}

// The identifier at the front and the bytes behind it.
fn id_at(bytes: &[u8], path: bool) -> Option<(u32, &[u8])>
    ensures { option_map (λ one. (one.0, one.1.now)) result ≡ id_at path bytes.now }
{
    if !path {
        return Some((0, bytes));
    }
    if bytes.len() < ID_LEN {
        return None;
    }
    Some((read_u32(bytes), &bytes[ID_LEN..]))
}

// The prefix at the front and the bytes behind it.
fn prefix_at(bytes: &[u8], family: Family) -> Option<(Prefix, &[u8])>
    ensures { option_map (λ one. (one.0, one.1.now)) result ≡ block_at family bytes.now }
{
    let Some((bits, rest)) = bytes.split_first() else {
        return None;
    };
    let count = usize::from(*bits).div_ceil(BYTE_BITS);
    if *bits > family_bits(family) || rest.len() < count {
        return None;
    }
    let (field, rest) = rest.split_at(count);
    let Some(prefix) = prefix_from(family, *bits, field) else {
        return None;
    };
    Some((prefix, rest))
}

// The prefix of the first bits of a field: there always is one.
fn prefix_from(family: Family, bits: u8, field: &[u8]) -> Option<Prefix>
    requires bits { bits ≤ bits_of family }
    requires field { length field.now ≡ bytes_for bits }
    ensures { result ≡ Some (record { addr = addr_from family bits field.now; len = bits }) }
{
    Prefix::new(addr_from(family, bits, field), bits)
}

// The address of the first bits of a field, the others zero.
fn addr_from(family: Family, bits: u8, field: &[u8]) -> Addr
    requires bits { bits ≤ bits_of family }
    requires field { length field.now ≡ bytes_for bits }
    ensures value { result ≡ addr_from family bits field.now }
    ensures canonical { IsPrefix result bits }
{
    match family {
        Family::Ipv4 => {
            let number = u128::from(u32_from(field));
            Addr::V4(without_last(number, IPV4_BITS - bits) as u32)
        }
        Family::Ipv6 => Addr::V6(without_last(u128_from(field), IPV6_BITS - bits)),
    }
}

// A number whose last bits are made zero.
fn without_last(number: u128, bits: u8) -> u128
    requires { bits ≤ IPV6_BITS }
    ensures value { result ≡ number / 2 ^ bits * 2 ^ bits }
    ensures below { result ≤ number }
{
    if bits == IPV6_BITS {
        0
    } else {
        let unit = 1 << bits;
        number / unit * unit
    }
}

fn family_bits(family: Family) -> u8
    ensures { result ≡ bits_of family }
{
    match family {
        Family::Ipv4 => IPV4_BITS,
        Family::Ipv6 => IPV6_BITS,
    }
}
