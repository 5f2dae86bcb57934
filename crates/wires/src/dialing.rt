//! A connection from a stated local address.

use crate::address::encode;
use crate::bell::{Bell, Woken};
use crate::system::check;
use libc::net as c;
use os::FromRawFd;
use std::io;
use std::io::ErrorKind;
use std::net::{Net, SocketAddr, TcpStream};
use std::os::fd::{AsRawFd, OwnedFd};

/// Connects from a local address to a peer, within so many milliseconds.
///
/// Port 0 of the local address stands for any free one. The stream's calls don't wait: one that
/// would have to fails with `WouldBlock`. It sends small pieces at once (`TCP_NODELAY`), and no
/// child inherits it. Fails with `TimedOut` where the time is up or the bell is closed before the
/// peer has answered; a ring is not heard.
pub fn dial(
    _net: &impl Net,
    local: SocketAddr,
    peer: SocketAddr,
    bell: &Bell,
    millis: u32,
) -> io::Result<TcpStream> {
    let socket = new_socket(peer)?;
    let (raw, len) = encode(local);
    check(unsafe { c::bind(socket.as_raw_fd(), &raw, len) })?;
    begin_connect(&socket, peer)?;
    let stream = TcpStream::from(socket);
    if bell.rest_to_write(&stream, millis) == Woken::Quiet {
        return Err(io::Error::from(ErrorKind::TimedOut));
    }
    if let Some(error) = stream.take_error()? {
        return Err(error);
    }
    stream.set_nodelay(true)?;
    Ok(stream)
}

// A TCP socket of the address's family, whose calls don't wait.
fn new_socket(address: SocketAddr) -> io::Result<OwnedFd> {
    let kind = c::SOCK_STREAM | c::SOCK_NONBLOCK | c::SOCK_CLOEXEC;
    let fd = match address {
        SocketAddr::V4(_) => unsafe { c::socket(c::AF_INET, kind, 0) },
        SocketAddr::V6(_) => unsafe { c::socket(c::AF_INET6, kind, 0) },
    };
    check(fd)?;
    Ok(unsafe { OwnedFd::from_raw_fd(fd) })
}

fn begin_connect(socket: &OwnedFd, peer: SocketAddr) -> io::Result<()> {
    let (raw, len) = encode(peer);
    match check(unsafe { c::connect(socket.as_raw_fd(), &raw, len) }) {
        Err(error) if error.raw_os_error() != Some(libc::EINPROGRESS) => Err(error),
        _ => Ok(()),
    }
}
