//! The bound socket, as the system reports it.

ghost use Rattle.std.specs.Prelude.{◌≡◌, ◌||◌, true, IfOk, IfErr, OnOk};
ghost use Rattle.std.specs.List.{list_any};
ghost use Rattle.std.specs.IoError.{raw_os_error};
ghost use Rattle.mio.specs.Event.{event_token};
ghost use Rattle.mio.specs.Events.{items};
ghost use Rattle.radio_sockets.specs.declared.fault.BindFault.TheVariants.{NoAddress};
ghost use Rattle.radio_sockets.specs.Names.{is_bound_socket, is_out_of_descriptors};
ghost use Rattle.radio_sockets.specs.Peers.{IsNoIp};

use crate::address::{address_of, peer_at};
use crate::steps::lacks_descriptors;
use crate::{BindFault, OutOfMemory, ServeFault};
use mio::net::{TcpListener, TcpStream};
use mio::{Events, Interest, Poll, Token, Waker};
use radio_addr::Peer;
use radio_proxy::NamedClient;
use radio_workers::{AcceptResult, Entrance};
use std::alloc::Global;
use std::io;
use std::io::ErrorKind;
use std::net::{Net, SocketAddr};
use std::time::Duration;

/// The name of the bound socket in the system's reports.
const LISTENER: Token = Token(usize::MAX);

/// The name of the acceptor's waker.
const WAKER: Token = Token(usize::MAX - 2);

/// How many sockets the system reports at once: the bound one, the waker, and those that wait for a header.
const EVENTS: usize = 128;

/// A connection that waits for a worker.
#[derive(Drop)]
pub struct Accepted {
    /// Its socket, which does not wait.
    pub(crate) stream: TcpStream,
    /// The address of the socket's other end.
    pub(crate) socket_peer: Peer,
    /// Whom its header names. It names nobody if the other end is not a proxy.
    pub(crate) named: NamedClient,
}

/// A connection that the system has just accepted.
#[derive(Drop)]
pub struct AcceptedSocket {
    /// Its socket, which does not wait.
    pub(crate) stream: TcpStream,
    /// The address of the socket's other end.
    pub(crate) peer: Peer,
}

/// The bound socket, and what the system has reported of it.
#[derive(Drop)]
pub struct ListeningSocket {
    poll: Poll,
    events: Events<Global>,
    listener: TcpListener,
    /// Whether a connection may wait to be accepted.
    is_asked: bool,
}

impl ListeningSocket {
    /// Binds this address and port; 0 for any port that is free.
    ///
    /// `NoAddress` if the address is no IP address; `Refused` if the system does not bind it with
    /// this port, or reports nothing of sockets; `OutOfMemory` if memory was refused.
    pub fn bind<R: Net>(
        rt: &R,
        alloc: Global,
        address: &str,
        port: u16,
    ) -> Result<ListeningSocket, BindFault>
        ensures asked { IfOk result (λ listening_socket. listening_socket.is_asked ≡ true) }
        ensures fault { IfErr result (λ fault. fault ≡ NoAddress → IsNoIp address.now) }
    {
        let Some(address) = address_of(address, port) else {
            return Err(BindFault::NoAddress);
        };
        let listener = match TcpListener::bind(rt, address) {
            Ok(listener) => listener,
            Err(error) => return Err(BindFault::Refused(error)),
        };
        let poll = match Poll::new(rt) {
            Ok(poll) => poll,
            Err(error) => return Err(BindFault::Refused(error)),
        };
        match ListeningSocket::new(alloc, poll, listener) {
            Ok(Ok(listening_socket)) => Ok(listening_socket),
            Ok(Err(error)) => Err(BindFault::Refused(error)),
            Err(_) => Err(BindFault::OutOfMemory),
        }
    }

    fn new(
        alloc: Global,
        poll: Poll,
        mut listener: TcpListener,
    ) -> Result<io::Result<ListeningSocket>, OutOfMemory>
        ensures { IfOk result (λ made. IfOk made (λ listening_socket. listening_socket.is_asked ≡ true)) }
    {
        let events = Events::with_capacity(alloc, EVENTS)?;
        let registered = poll
            .registry()
            .register(&mut listener, LISTENER, Interest::READABLE);
        if let Err(error) = registered {
            return Ok(Err(error));
        }
        Ok(Ok(ListeningSocket {
            poll,
            events,
            listener,
            is_asked: true,
        }))
    }

    /// The address and port that were bound.
    pub fn address(&self) -> io::Result<SocketAddr> {
        self.listener.local_addr()
    }

    /// What ends a wait here from another thread.
    pub(crate) fn waker(&self) -> io::Result<Waker> {
        Waker::new(self.poll.registry(), WAKER)
    }

    /// Returns whether a connection may wait to be accepted.
    pub(crate) fn is_asked(&self) -> bool
        ensures { result ≡ self.now.is_asked }
    {
        self.is_asked
    }

    /// Asks the system what is ready, within so many milliseconds.
    pub(crate) fn poll(&mut self, wait_ms: u64) -> Result<(), ServeFault>
        ensures { OnOk result (self.new.is_asked ≡ (self.old.is_asked || list_any (λ e. is_bound_socket (event_token e)) (items self.new.events))) }
    {
        let wait = Duration::from_millis(wait_ms);
        if self.poll.poll(&mut self.events, Some(wait)).is_err() {
            return Err(ServeFault::Accept);
        }
        self.is_asked = self.is_asked || self.is_reported();
        Ok(())
    }

    /// Has the system report this socket under this number. `Err` if it does not.
    pub(crate) fn watch(&self, stream: &mut TcpStream, number: usize) -> io::Result<()>
        ensures { stream.new ≡ stream.old }
    {
        self.poll
            .registry()
            .register(stream, Token(number), Interest::READABLE)
    }

    /// Has the system no longer report this socket. `Err` if it still does.
    pub(crate) fn forget(&self, stream: &mut TcpStream) -> io::Result<()>
        ensures { stream.new ≡ stream.old }
    {
        self.poll.registry().deregister(stream)
    }

    /// Returns what the system has reported last.
    pub(crate) fn events(&self) -> &Events<Global>
        ensures { result.now ≡ self.now.events }
    {
        &self.events
    }

    /// Returns whether the system has reported last that a connection may wait.
    fn is_reported(&self) -> bool
        ensures { result ≡ list_any (λ e. is_bound_socket (event_token e)) (items self.now.events) }
    {
        self.events.iter().any(|event| is_listener(event.token()))
    }
}

/// Returns whether this is the name of the bound socket.
fn is_listener(token: Token) -> bool
    ensures { result ≡ is_bound_socket token }
{
    token.0 == LISTENER.0
}

impl Entrance<AcceptedSocket> for ListeningSocket {
    ghost use Rattle.radio_sockets.specs.Entering.{IsEntered};

    ghost accepts = { IsEntered };

    fn accept(&mut self) -> AcceptResult<AcceptedSocket>
        ensures { IsEntered self.old result self.new }
    {
        if !self.is_asked {
            return AcceptResult::Nothing;
        }
        match self.listener.accept() {
            Ok((stream, address)) => AcceptResult::One(AcceptedSocket {
                stream,
                peer: peer_at(address),
            }),
            Err(error) if error.kind() == ErrorKind::WouldBlock => {
                self.is_asked = false;
                AcceptResult::Nothing
            }
            Err(error) if is_out_of_descriptors(&error) => AcceptResult::NoDescriptor,
            Err(_) => AcceptResult::Failed,
        }
    }
}

/// Returns whether a fault of the system is that there is no descriptor left. Those who are there go on, and may leave some.
// rule: Failed accepts
fn is_out_of_descriptors(error: &io::Error) -> bool
    ensures { result ≡ is_out_of_descriptors (raw_os_error error.now) }
{
    match error.raw_os_error() {
        Some(code) => lacks_descriptors(code),
        None => false,
    }
}
