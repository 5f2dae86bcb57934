//! An address as the bytes of C's `sockaddr_in` and `sockaddr_in6`.
ghost use Rattle.std.specs.Prelude.{◌≡◌, ℕ, ◌+◌, ◌≤◌, List, ◌++◌, length};
ghost use Rattle.std.specs.Net.SockAddr as spec;

use libc::net as c;
use std::net::{SocketAddr, SocketAddrV4, SocketAddrV6};

// The bytes of C's `sockaddr_storage`, in which each address fits.
pub(crate) type Storage = [u8; c::_SS_SIZE];

// How many bytes `sockaddr_in` has.
const V4_LEN: u32 = 16;

// How many bytes `sockaddr_in6` has.
const V6_LEN: u32 = 28;

// Where the family begins, in both.
const FAMILY: usize = 0;

// Where the port begins, in both.
const PORT: usize = 2;

// Where the address begins in `sockaddr_in`.
const V4_ADDRESS: usize = 4;

// Where the flow begins in `sockaddr_in6`.
const V6_FLOW: usize = 4;

// Where the address begins in `sockaddr_in6`.
const V6_ADDRESS: usize = 8;

// Where the scope begins in `sockaddr_in6`.
const V6_SCOPE: usize = 24;

// The bytes of an address, and how many of them C is to read.
pub(crate) fn encode(address: SocketAddr) -> (Storage, u32)
    ensures bytes { result.0 ≡ spec.in_storage (spec.sockaddr address) }
    ensures len { result.1 ≡ spec.sockaddr_len address }
    ensures within { result.1 ≤ 128 }
{
    match address {
        SocketAddr::V4(address) => (encode_v4(address), V4_LEN),
        SocketAddr::V6(address) => (encode_v6(address), V6_LEN),
    }
}

fn encode_v4(address: SocketAddrV4) -> Storage
    ensures { result ≡ spec.in_storage (spec.sockaddr_in address) }
{
    let mut raw = family_and_port(c::AF_INET as u16, address.port());
    put(&mut raw, V4_ADDRESS, &address.ip().octets());
    raw
}

fn encode_v6(address: SocketAddrV6) -> Storage
    ensures { result ≡ spec.in_storage (spec.sockaddr_in6 address) }
{
    let mut raw = family_and_port(c::AF_INET6 as u16, address.port());
    put(&mut raw, V6_FLOW, &address.flowinfo().to_ne_bytes());
    put(&mut raw, V6_ADDRESS, &address.ip().octets());
    put(&mut raw, V6_SCOPE, &address.scope_id().to_ne_bytes());
    raw
}

fn family_and_port(family: u16, port: u16) -> Storage
    ensures { result ≡ spec.in_storage (spec.family_and_port family port) }
{
    let mut raw = [0; c::_SS_SIZE];
    put(&mut raw, FAMILY, &family.to_ne_bytes());
    put(&mut raw, PORT, &port.to_be_bytes());
    raw
}

// Writes the next field behind those that stand there.
fn put(raw: &mut Storage, at: usize, bytes: &[u8])
    requires { at + length bytes.now ≤ 128 }
    ensures { (front : List ℕ) → length front ≡ at → raw.old ≡ spec.in_storage front
        → raw.new ≡ spec.in_storage (front ++ bytes.now) }
{
    raw[at..at + bytes.len()].copy_from_slice(bytes);
}
