//! Numbers, addresses and prefixes as they are printed, put at the end of a buffer. No call takes memory.
//!
//! A call asks for room for the longest text of its kind, and says how much of it was used at most.
ghost use Rattle.std.specs.Prelude.{◌≡◌, ◌+◌, ◌*◌, ◌<◌, ◌≤◌, ◌++◌, ◌∷◌, [], decimal, length};
ghost use Rattle.std.specs.Prelude.{false, drop};
ghost use Rattle.std.specs.Fmt.{digit_glyph};
ghost use Rattle.arrayvec.specs.ArrayVec.{array_vec_len};
ghost use Rattle.text_forms.specs.Printed.{ipv4_text, ipv6_text, addr_text, prefix_text};
ghost use Rattle.text_forms.specs.Printed.{group_at, group_text, padded_group, led_groups};

use arrayvec::ArrayVec;
use itoa::Buffer;
use route_values::{Addr, Prefix};

/// How many bytes a number below 2^32 takes at most, as a path identifier.
pub const MAX_U32_TEXT: usize = 10;

/// How many bytes a number below 2^64 takes at most.
pub const MAX_U64_TEXT: usize = 20;

/// How many bytes an IPv4 address takes at most: `255.255.255.255`.
pub const MAX_IPV4_TEXT: usize = 15;

/// How many bytes an IPv6 address takes at most: eight groups of four digits and seven colons.
pub const MAX_IPV6_TEXT: usize = 39;

/// How many bytes a prefix takes at most: an IPv6 address and `/128`.
pub const MAX_PREFIX_TEXT: usize = 43;

// How many bits a group of an IPv6 address has (RFC 4291, section 2.2), and how many values.
const GROUP_BITS: u32 = 16;

const GROUP_VALUES: u128 = 65_536;

// How many digits a group takes at most.
const MAX_GROUP_TEXT: usize = 4;

// How many bytes a number up to 255 takes at most.
const MAX_OCTET_TEXT: usize = 3;

// How many groups an IPv6 address has behind its first.
const LATER_GROUPS: u32 = 7;

/// Puts a number below 2^32 in decimal digits, without leading zeros.
pub fn put_u32<const N: usize>(number: u32, out: &mut ArrayVec<u8, N>)
    requires { array_vec_len out.old + MAX_U32_TEXT ≤ N }
    ensures text { out.new.items ≡ out.old.items ++ decimal number }
    ensures short { array_vec_len out.new ≤ array_vec_len out.old + MAX_U32_TEXT }
{
    let mut buffer = Buffer::new();
    put(buffer.format(number).as_bytes(), out);
}

/// Puts a number below 2^64 in decimal digits, without leading zeros.
pub fn put_u64<const N: usize>(number: u64, out: &mut ArrayVec<u8, N>)
    requires { array_vec_len out.old + MAX_U64_TEXT ≤ N }
    ensures text { out.new.items ≡ out.old.items ++ decimal number }
    ensures short { array_vec_len out.new ≤ array_vec_len out.old + MAX_U64_TEXT }
{
    let mut buffer = Buffer::new();
    put(buffer.format(number).as_bytes(), out);
}

/// Puts an IPv4 address: its four bytes as numbers joined by dots.
pub fn put_ipv4<const N: usize>(number: u32, out: &mut ArrayVec<u8, N>)
    requires { array_vec_len out.old + MAX_IPV4_TEXT ≤ N }
    ensures text { out.new.items ≡ out.old.items ++ ipv4_text number }
    ensures short { array_vec_len out.new ≤ array_vec_len out.old + MAX_IPV4_TEXT }
{
    let [a, b, c, d] = number.to_be_bytes();
    put_octet(a, out);
    put_dotted_octet(b, out);
    put_dotted_octet(c, out);
    put_dotted_octet(d, out);
}

/// Puts an IPv6 address: eight groups of lower-case hexadecimal digits joined by `:`, without leading zeros. Groups
/// of zero are written out, so `::` never stands.
pub fn put_ipv6<const N: usize>(number: u128, out: &mut ArrayVec<u8, N>)
    requires { array_vec_len out.old + MAX_IPV6_TEXT ≤ N }
    ensures text { out.new.items ≡ out.old.items ++ ipv6_text number }
    ensures short { array_vec_len out.new ≤ array_vec_len out.old + MAX_IPV6_TEXT }
{
    put_group(group(number, LATER_GROUPS), out);
    put_led_groups(number, LATER_GROUPS, out);
}

/// Puts an address of either family, as `put_ipv4` or `put_ipv6` does.
pub fn put_addr<const N: usize>(addr: Addr, out: &mut ArrayVec<u8, N>)
    requires { array_vec_len out.old + MAX_IPV6_TEXT ≤ N }
    ensures text { out.new.items ≡ out.old.items ++ addr_text addr }
    ensures short { array_vec_len out.new ≤ array_vec_len out.old + MAX_IPV6_TEXT }
{
    match addr {
        Addr::V4(number) => put_ipv4(number, out),
        Addr::V6(number) => put_ipv6(number, out),
    }
}

/// Puts a prefix: its address, `/` and its number of bits, also where these are all.
pub fn put_prefix<const N: usize>(prefix: &Prefix, out: &mut ArrayVec<u8, N>)
    requires { array_vec_len out.old + MAX_PREFIX_TEXT ≤ N }
    ensures text { out.new.items ≡ out.old.items ++ prefix_text prefix.now }
    ensures short { array_vec_len out.new ≤ array_vec_len out.old + MAX_PREFIX_TEXT }
{
    put_addr(prefix.addr(), out);
    out.push(b'/');
    put_octet(prefix.len(), out);
}

// Puts `:` and a group for each of so many last groups of a number.
fn put_led_groups<const N: usize>(number: u128, count: u32, out: &mut ArrayVec<u8, N>)
    requires few { count ≤ 7 }
    requires room { array_vec_len out.old + 5 * count ≤ N }
    ensures text { out.new.items ≡ out.old.items ++ led_groups count number }
    ensures short { array_vec_len out.new ≤ array_vec_len out.old + 5 * count }
{
    let mut left = count;
    'groups: while left > 0 {
        left -= 1;
        put_led_group(group(number, left), out);
    }
}

// Puts `:` and a group.
fn put_led_group<const N: usize>(group: u16, out: &mut ArrayVec<u8, N>)
    requires { array_vec_len out.old + 5 ≤ N }
    ensures text { out.new.items ≡ out.old.items ++ 58 ∷ group_text group }
    ensures short { array_vec_len out.new ≤ array_vec_len out.old + 5 }
{
    out.push(b':');
    put_group(group, out);
}

// Puts a group's hexadecimal digits, without leading zeros.
fn put_group<const N: usize>(group: u16, out: &mut ArrayVec<u8, N>)
    requires { array_vec_len out.old + MAX_GROUP_TEXT ≤ N }
    ensures text { out.new.items ≡ out.old.items ++ group_text group }
    ensures short { array_vec_len out.new ≤ array_vec_len out.old + MAX_GROUP_TEXT }
{
    let digits = padded(group);
    put(&digits[zeros_before(group)..], out);
}

// The group of a number that stands before its last `place` groups.
fn group(number: u128, place: u32) -> u16
    requires { place ≤ 7 }
    ensures { result ≡ group_at place number }
{
    ((number >> (GROUP_BITS * place)) % GROUP_VALUES) as u16
}

// A group's four hexadecimal digits.
fn padded(group: u16) -> [u8; 4]
    ensures { result ≡ padded_group group }
{
    [
        hex_digit(group / 4096),
        hex_digit(group / 256 % 16),
        hex_digit(group / 16 % 16),
        hex_digit(group % 16),
    ]
}

// How many of a group's four digits are leading zeros.
fn zeros_before(group: u16) -> usize
    ensures within { result < 4 }
    ensures text { group_text group ≡ drop result (padded_group group) }
{
    if group < 16 {
        3
    } else if group < 256 {
        2
    } else if group < 4096 {
        1
    } else {
        0
    }
}

// The lower-case hexadecimal digit of a value.
fn hex_digit(value: u16) -> u8
    requires { value < 16 }
    ensures { result ≡ digit_glyph false value }
{
    if value < 10 {
        b'0' + value as u8
    } else {
        b'a' + (value as u8 - 10)
    }
}

// Puts a dot and a number up to 255.
fn put_dotted_octet<const N: usize>(octet: u8, out: &mut ArrayVec<u8, N>)
    requires { array_vec_len out.old + 4 ≤ N }
    ensures text { out.new.items ≡ out.old.items ++ 46 ∷ decimal octet }
    ensures short { array_vec_len out.new ≤ array_vec_len out.old + 4 }
{
    out.push(b'.');
    put_octet(octet, out);
}

// Puts a number up to 255.
fn put_octet<const N: usize>(octet: u8, out: &mut ArrayVec<u8, N>)
    requires { array_vec_len out.old + MAX_OCTET_TEXT ≤ N }
    ensures text { out.new.items ≡ out.old.items ++ decimal octet }
    ensures short { array_vec_len out.new ≤ array_vec_len out.old + MAX_OCTET_TEXT }
{
    let mut buffer = Buffer::new();
    put(buffer.format(octet).as_bytes(), out);
}

// Puts bytes for which there is room.
fn put<const N: usize>(piece: &[u8], out: &mut ArrayVec<u8, N>)
    requires { array_vec_len out.old + length piece.now ≤ N }
    ensures text { out.new.items ≡ out.old.items ++ piece.now }
    ensures len { array_vec_len out.new ≡ array_vec_len out.old + length piece.now }
{
    let _ = out.try_extend_from_slice(piece);
}
