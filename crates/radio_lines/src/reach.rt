//! The net, as threads reach it.

ghost use Rattle.std.specs.Prelude.{◌≡◌};

use mio::Poll;
use mio::net::TcpStream;
use std::alloc::Global;
use std::io;
use std::net::{Net, SocketAddr, ToSocketAddrs};

/// The net, as threads reach it.
pub trait Network {
    /// The addresses that the system knows of a host, with this port. None where it knows none, or memory is refused.
    fn addresses(&self, alloc: Global, host: &str, port: u16) -> Vec<SocketAddr>;

    /// A socket that is being connected to this address; or the system's fault.
    fn connect(&self, address: SocketAddr) -> io::Result<TcpStream>;

    /// Returns that by which the system reports sockets; or its fault.
    fn poll(&self) -> io::Result<Poll>;
}

/// The system's own.
#[derive(Drop)]
pub struct SystemNet<'a, R: Net> {
    rt: &'a R,
}

impl<'a, R: Net> SystemNet<'a, R> {
    /// By this runtime.
    pub fn new(rt: &'a R) -> SystemNet<'a, R>
        ensures { result.rt.now ≡ rt.entry.now }
    {
        SystemNet { rt }
    }
}

impl<'a, R: Net> Network for SystemNet<'a, R> {
    fn addresses(&self, alloc: Global, host: &str, port: u16) -> Vec<SocketAddr> {
        let mut addresses = Vec::new(alloc);
        if let Ok(found) = (host, port).to_socket_addrs(self.rt) {
            for address in found {
                if addresses.push(address).is_err() {
                    break;
                }
            }
        }
        addresses
    }

    fn connect(&self, address: SocketAddr) -> io::Result<TcpStream> {
        TcpStream::connect(self.rt, address)
    }

    fn poll(&self) -> io::Result<Poll> {
        Poll::new(self.rt)
    }
}
