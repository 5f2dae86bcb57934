//! TCP connections from configured addresses.
ghost use Rattle.std.specs.Prelude.{◌≡◌, List, ℕ, None};

use crate::link::TcpLink;
use outside::{Dialer, Dialled};
use route_values::{Addr, Settings};
use std::net::{IpAddr, Ipv4Addr, Ipv6Addr, Net, SocketAddr};
use wires::{Bell, dial};

// How many milliseconds a peer has to answer.
const LIMIT: u32 = 5_000;

/// Connects by TCP from the configured local address, within 5 s. Its links wait at its bell, and
/// end each wait once that is closed.
#[derive(Drop)]
pub struct TcpDialer<'a, R> {
    rt: &'a R,
    bell: &'a Bell,
    faults: u64,
}

impl<'a, R: Net> TcpDialer<'a, R> {
    /// The dialer of the worker that waits at this bell.
    pub fn new(rt: &'a R, bell: &'a Bell) -> Self
        ensures { ⟦<Self as Dialer>⟧.faults result ≡ 0 }
    {
        TcpDialer {
            rt,
            bell,
            faults: 0,
        }
    }

    /// How often it has failed, its links included once they were given back. A count of 2^64 - 1
    /// stays there.
    pub fn faults(&self) -> u64
        ensures { result ≡ ⟦<Self as Dialer>⟧.faults self.now }
    {
        self.faults
    }
}

impl<'a, R: Net> Dialer for TcpDialer<'a, R> {
    type Link = TcpLink<'a>;

    ghost links = { λ _. None };

    ghost asked = { λ _. None };

    ghost failed = { λ _. None };

    ghost faults = { λ d. d.faults };

    fn connect(&mut self, to: &Settings) -> Dialled<TcpLink<'a>> {
        let local = SocketAddr::new(ip_of(to.local), 0);
        let peer = SocketAddr::new(ip_of(to.peer), to.port);
        match dial(self.rt, local, peer, self.bell, LIMIT) {
            Ok(stream) => Dialled::Open(TcpLink::new(stream, self.bell)),
            Err(_) => {
                self.faults = self.faults.saturating_add(1);
                Dialled::Failed
            }
        }
    }

    fn give_back(&mut self, link: TcpLink<'a>) {
        link.finish();
        if link.faults() > 0 {
            self.faults = self.faults.saturating_add(1);
        }
    }
}

// The address as the standard library has it.
fn ip_of(address: Addr) -> IpAddr {
    match address {
        Addr::V4(number) => IpAddr::V4(Ipv4Addr::from(number)),
        Addr::V6(number) => IpAddr::V6(Ipv6Addr::from(number)),
    }
}
