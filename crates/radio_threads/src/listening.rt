//! A bound socket, and the service behind it.

ghost use Rattle.std.specs.Prelude.{◌≡◌, ◌+◌, ◌≤◌, ◌<◌, ℕ, All, IfErr, IfOk, if◌then◌else◌, length, slice_index_or, vec_len};
ghost use Rattle.radio_workers.specs.Passes.{all_parts};
ghost use Rattle.radio_sockets.specs.declared.fault.BindFault.TheVariants.{NoAddress};
ghost use Rattle.radio_sockets.specs.declared.fault.ServeFault.TheVariants.{OutOfMemory as NoMemory};
ghost use Rattle.radio_sockets.specs.Peers.{IsNoIp};

use crate::working::work_together;
use crate::{BindFault, ServeFault};
use mio::net::TcpStream;
use radio_addr::AddressList;
use radio_board::{Limits, Shared};
use radio_events::SharedServer;
use radio_lines::{Network, Sockets};
use radio_outlet::LogQueue;
use radio_proxy::Pending;
use radio_serving::WebAnswers;
use radio_settings_values::Settings;
use radio_sockets::{Accepted, Acceptor, ListeningSocket, open_desks};
use radio_workers::{Intake, IntakePass};
use std::alloc::Global;
use std::io;
use std::net::{Net, SocketAddr};
use std::sync::{Arc, Wait};
use std::thread::Threads;
use std::time::Clock;

/// How connections are served.
#[derive(Clone, Copy)]
pub struct Service {
    /// By how many workers, each in a thread of its own.
    pub workers: u32,
    /// What the settings say of answers.
    pub web: WebAnswers,
    /// Whether the log has lines of clients who were only shown something of the station.
    pub log_polls: bool,
    /// For how many seconds a connection may take nothing of what waits for it.
    pub patience_s: u32,
    /// How many may linger, whose conversation has ended and whose peer has not closed: of more, the oldest are closed.
    pub most_lingering: usize,
    /// How many bytes of a stream are kept at least.
    pub queue_size: u64,
}

/// A bound socket.
#[derive(Drop)]
pub struct Listening {
    alloc: Global,
    socket: ListeningSocket,
    /// Whose connections begin with a header that names their client.
    proxies: Option<AddressList>,
}

impl Listening {
    /// Binds this address and port, with the faults of [`ListeningSocket::bind`].
    pub fn bind<R: Net>(
        rt: &R,
        alloc: Global,
        address: &str,
        port: u16,
    ) -> Result<Listening, BindFault>
        ensures { IfErr result (λ fault. fault ≡ NoAddress → IsNoIp address.now) }
    {
        let socket = ListeningSocket::bind(rt, alloc, address, port)?;
        Ok(Listening {
            alloc,
            socket,
            proxies: None,
        })
    }

    /// Returns the same with the peers on this list as proxies. Each of their connections begins with a header that names its client
    /// (the PROXY protocol, version 1). The client arrives from the address that is named. With no list there are no proxies.
    pub fn behind(self, proxies: Option<AddressList>) -> Listening
        ensures { result.proxies ≡ proxies }
    {
        Listening {
            alloc: self.alloc,
            socket: self.socket,
            proxies,
        }
    }

    /// The address and port that were bound.
    pub fn address(&self) -> io::Result<SocketAddr> {
        self.socket.address()
    }

    /// Accepts connections, and serves them by this server, until a fault. A worker that can't be started is left out;
    /// `OutOfMemory` if none can be, or if memory was refused before one began.
    ///
    /// Of the settings, which are those of the server, its relays and its slave are read: each relay is pulled over `net`
    /// in a thread of its own.
    ///
    /// The lines of the log are added to this queue.
    pub fn serve<R, N, S>(
        self,
        rt: &R,
        net: &N,
        server: &S,
        settings: &Settings,
        service: Service,
        log: Arc<LogQueue>,
    ) -> ServeFault
    where
        R: Clock + Threads + Wait + Sync,
        N: Network + Sync,
        S: SharedServer + Sync,
        S::Pass: Send,
    {
        let Listening {
            alloc,
            socket,
            proxies,
        } = self;
        let pending = pending_of(alloc, proxies, settings);
        let acceptor = Acceptor::new(alloc, socket, pending);
        let opened = open_board(net, alloc, &acceptor, service, log);
        serve_by(rt, net, opened, server, settings, service, acceptor)
    }
}

/// Returns the place for connections of these proxies that wait for their headers. As many may wait as may be clients, and each as
/// long as a client may take for its request.
fn pending_of(
    alloc: Global,
    proxies: Option<AddressList>,
    settings: &Settings,
) -> Pending<TcpStream>
    ensures { result.proxies ≡ proxies }
{
    let limits = &settings.limits;
    let patience_ms = u64::from(limits.header_timeout.get()) * 1000;
    Pending::new(alloc, proxies, limits.clients.get() as usize, patience_ms)
}

/// Serves connections that this acceptor accepts, by this server.
fn serve_by<R, N, S>(
    rt: &R,
    net: &N,
    opened: Result<(Shared, Vec<Sockets>), ServeFault>,
    server: &S,
    settings: &Settings,
    service: Service,
    acceptor: Acceptor,
) -> ServeFault
where
    R: Clock + Threads + Wait + Sync,
    N: Network + Sync,
    S: SharedServer + Sync,
    S::Pass: Send,
    ensures { IfErr opened (λ fault. result ≡ fault) }
{
    let mut acceptor = acceptor;
    let fault = match opened {
        Ok((shared, mut sockets)) => {
            let fault = {
                let station = ServedStation {
                    rt,
                    net,
                    server,
                    settings,
                    service,
                    shared: &shared,
                };
                serve_all(&station, &mut sockets, &mut acceptor)
            };
            drop(sockets);
            drop(shared);
            fault
        }
        Err(fault) => fault,
    };
    drop(acceptor);
    fault
}

/// Returns what the workers and the acceptor share, and the sockets of the workers.
fn open_board<N: Network>(
    net: &N,
    alloc: Global,
    acceptor: &Acceptor,
    service: Service,
    log: Arc<LogQueue>,
) -> Result<(Shared, Vec<Sockets>), ServeFault>
    ensures { IfOk result (λ opened. 0 < vec_len opened.1) }
{
    let (sockets, desks) = open_desks(net, alloc, service.workers)?;
    let limits = Limits {
        most_lingering: service.most_lingering,
        queue_size: service.queue_size,
    };
    match acceptor.waker() {
        Ok(waker) => Ok((Shared::new(alloc, desks, waker, limits, log), sockets)),
        Err(_) => Err(ServeFault::Accept),
    }
}

/// What is served, how, and what all threads share.
#[derive(Drop)]
pub(crate) struct ServedStation<'a, R, N: Network, S> {
    pub(crate) rt: &'a R,
    pub(crate) net: &'a N,
    pub(crate) server: &'a S,
    pub(crate) settings: &'a Settings,
    pub(crate) service: Service,
    pub(crate) shared: &'a Shared,
}

/// Serves connections through an intake, until all stop. `OutOfMemory` if memory was refused for it, or for the
/// workers' slots.
fn serve_all<R, N, S>(
    station: &ServedStation<'_, R, N, S>,
    sockets: &mut Vec<Sockets>,
    acceptor: &mut Acceptor,
) -> ServeFault
where
    R: Clock + Threads + Wait + Sync,
    N: Network + Sync,
    S: SharedServer + Sync,
    S::Pass: Send,
{
    match Intake::new(station.shared.alloc()) {
        Ok((intake, mut pass)) => {
            let fault = serve_through(station, &intake, &mut pass, sockets, acceptor);
            drop(pass);
            drop(intake);
            fault
        }
        Err(_) => ServeFault::OutOfMemory,
    }
}

/// Serves connections through this intake, whose pass the acceptor and the workers share. `OutOfMemory` if memory was
/// refused for the workers' slots.
fn serve_through<R, N, S>(
    station: &ServedStation<'_, R, N, S>,
    intake: &Intake<Accepted>,
    pass: &mut IntakePass<Accepted>,
    sockets: &mut Vec<Sockets>,
    acceptor: &mut Acceptor,
) -> ServeFault
where
    R: Clock + Threads + Wait + Sync,
    N: Network + Sync,
    S: SharedServer + Sync,
    S::Pass: Send,
    requires own { pass.old.intake ≡ intake.now }
    requires parts { all_parts ≤ pass.old.parts }
    ensures { pass.new.intake ≡ intake.now }
{
    let mut intake_pass = intake.split(pass);
    let (fault, are_seated) = work_together(
        station,
        intake,
        &mut intake_pass,
        pass,
        sockets,
        acceptor,
    );
    drop(intake_pass);
    fault_of(fault, are_seated)
}

/// Returns why a server ends whose acceptor has ended so: if there was no memory for the workers' slots, that is why.
fn fault_of(fault: ServeFault, are_seated: bool) -> ServeFault
    ensures { result ≡ (if are_seated then fault else NoMemory) }
{
    if are_seated {
        fault
    } else {
        ServeFault::OutOfMemory
    }
}
