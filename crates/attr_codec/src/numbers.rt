//! Numbers in network order: the highest byte comes first (RFC 4271, section 4).
//!
//! They are read and written by `byteorder`. Contracts speak of std's functions of bytes, as all definitions do.
ghost use Rattle.std.specs.Prelude.{ℕ, ◌≡◌, ◌≤◌, length, slice_index};
ghost use Rattle.std.specs.Int.{w16, w32, w128, to_be_bytes, from_be_bytes};

use byteorder::{BigEndian, ByteOrder};

/// The number in the first two bytes.
pub fn read_u16(bytes: &[u8]) -> u16
    requires { 2 ≤ length bytes.now }
    ensures { result ≡ from_be_bytes w16 bytes.now }
{
    BigEndian::read_u16(bytes)
}

/// The number in the first four bytes.
pub fn read_u32(bytes: &[u8]) -> u32
    requires { 4 ≤ length bytes.now }
    ensures { result ≡ from_be_bytes w32 bytes.now }
{
    BigEndian::read_u32(bytes)
}

/// The number in the first sixteen bytes.
pub fn read_u128(bytes: &[u8]) -> u128
    requires { 16 ≤ length bytes.now }
    ensures { result ≡ from_be_bytes w128 bytes.now }
{
    BigEndian::read_u128(bytes)
}

/// A number in two bytes.
pub fn u16_bytes(number: u16) -> [u8; 2]
    ensures { result ≡ to_be_bytes w16 number }
{
    let mut cells = [0; 2];
    BigEndian::write_u16(&mut cells, number);
    cells
}

/// A number in four bytes.
pub fn u32_bytes(number: u32) -> [u8; 4]
    ensures { result ≡ to_be_bytes w32 number }
{
    let mut cells = [0; 4];
    BigEndian::write_u32(&mut cells, number);
    cells
}

/// A number in sixteen bytes.
pub fn u128_bytes(number: u128) -> [u8; 16]
    ensures { result ≡ to_be_bytes w128 number }
{
    let mut cells = [0; 16];
    BigEndian::write_u128(&mut cells, number);
    cells
}

/// The number in at most four bytes that go on with zeros.
pub fn u32_from(field: &[u8]) -> u32
    requires { length field.now ≤ 4 }
    ensures { result ≡ from_be_bytes w32 field.now }
{
    let mut cells = [0; 4];
    cells[..field.len()].copy_from_slice(field);
    read_u32(&cells)
}

/// The number in at most sixteen bytes that go on with zeros.
pub fn u128_from(field: &[u8]) -> u128
    requires { length field.now ≤ 16 }
    ensures { result ≡ from_be_bytes w128 field.now }
{
    read_u128(&padded(field))
}

// The bytes, and zeros behind them.
fn padded(field: &[u8]) -> [u8; 16]
    requires { length field.now ≤ 16 }
    ensures { (i : ℕ) → slice_index result i ≡ slice_index field.now i }
{
    let mut cells = [0; 16];
    cells[..field.len()].copy_from_slice(field);
    cells
}
