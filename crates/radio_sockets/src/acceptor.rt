//! The thread that accepts connections.

ghost use Rattle.std.specs.Prelude.{◌≡◌, ◌⊎◌, ◌+◌, ◌-◌, ◌^◌, All, false, true, min};
ghost use Rattle.radio_workers.specs.Accepting.{closed_in};
ghost use Rattle.radio_proxy.specs.Pending.{is_proxy};
ghost use Rattle.radio_sockets.specs.Entitled.{IsEntitled};

use crate::ServeFault;
use crate::gone::{gone, gone_word};
use crate::listening_socket::{Accepted, AcceptedSocket, ListeningSocket};
use crate::steps::{acceptor_wait, header_wait, next_number};
use mio::Waker;
use mio::net::TcpStream;
use radio_addr::Peer;
use radio_board::{Mark, Shared};
use radio_lines::moment;
use radio_log::Fact;
use radio_notes::Log;
use radio_proxy::{HeaderOutcome, NamedClient, Pending, Settled};
use radio_workers::{Accepts, Intake, IntakePass, ROOM, accept_next};
use std::alloc::Global;
use std::io;
use std::sync::Wait;
use std::time::Clock;

/// Accepts connections, and assigns each to a worker. The connection of a proxy waits here for its header.
#[derive(Drop)]
pub struct Acceptor {
    listening_socket: ListeningSocket,
    accepts: Accepts,
    /// The connections of proxies whose headers have not come.
    pending: Pending<TcpStream>,
    /// The number by which the system names the last of these.
    number: usize,
    /// The lines of those that have ended before a client has arrived.
    log: Log,
    /// The moment of the clock, in milliseconds.
    clock_ms: u64,
    /// For whom the next connection is, if it has no more than others.
    next: usize,
}

impl Acceptor {
    /// Returns one that has accepted nothing yet, and keeps those that wait for a header in `pending`. It takes no memory.
    pub fn new(
        alloc: Global,
        listening_socket: ListeningSocket,
        pending: Pending<TcpStream>,
    ) -> Acceptor
        ensures accepts { result.accepts ≡ record { failed = 0; not_before = 0; is_short = false } }
        ensures pending { result.pending ≡ pending }
    {
        Acceptor {
            listening_socket,
            accepts: Accepts::new(),
            pending,
            number: 0,
            log: Log::new(alloc),
            clock_ms: 0,
            next: 0,
        }
    }

    /// What ends its waits from another thread.
    pub fn waker(&self) -> io::Result<Waker> {
        self.listening_socket.waker()
    }

    /// Accepts until all are to stop, or a fault; then all stop.
    // rule: Proxy header
    pub fn work<R: Clock + Wait>(
        &mut self,
        rt: &R,
        shared: &Shared,
        intake: &Intake<Accepted>,
        pass: &mut IntakePass<Accepted>,
    ) -> ServeFault
        requires own { pass.old.intake ≡ intake.now }
        ensures own { pass.new.intake ≡ intake.now }
        // only a proxy's connection names its client
        ensures entitled { All (IsEntitled self.old.pending.proxies) pass.old.put → All (IsEntitled self.old.pending.proxies) pass.new.put }
    {
        if shared.is_over() {
            // There was no thread for it, as long as the workers were there.
            return ServeFault::OutOfMemory;
        }
        let _ = shared.mark(Mark::AcceptorBegun, true);
        'rounds: for _ in rt.forever() {
            if let Err(fault) = self.make_round(rt, shared, intake, pass) {
                shared.stop();
                return fault;
            }
        }
        ServeFault::Accept
    }

    /// Asks the system, accepts the connections that wait, and gives newcomers of workers that are not served to
    /// others. Returns the fault by which all end, if there is one.
    fn make_round<R: Clock + Wait>(
        &mut self,
        rt: &R,
        shared: &Shared,
        intake: &Intake<Accepted>,
        pass: &mut IntakePass<Accepted>,
    ) -> Result<(), ServeFault>
        requires own { pass.old.intake ≡ intake.now }
        ensures own { pass.new.intake ≡ intake.now }
        ensures proxies { self.new.pending.proxies ≡ self.old.pending.proxies }
        ensures entitled { All (IsEntitled self.old.pending.proxies) pass.old.put → All (IsEntitled self.old.pending.proxies) pass.new.put }
    {
        self.poll(rt, shared)?;
        if shared.is_over() {
            return Err(ServeFault::Accept);
        }
        self.accept_all(rt, shared, intake, pass)?;
        self.settle_all(rt, shared, intake, pass);
        shared.move_newcomers();
        Ok(())
    }

    /// Asks the system what is ready, and waits for that if there is nothing to do.
    fn poll<R: Clock + Wait>(&mut self, rt: &R, shared: &Shared) -> Result<(), ServeFault>
        ensures accepts { (self.new.accepts ≡ self.old.accepts) ⊎ (self.new.accepts ≡ closed_in self.old.accepts) }
        ensures next { self.new.next ≡ self.old.next }
        ensures proxies { self.new.pending.proxies ≡ self.old.pending.proxies }
    {
        let is_called = shared.acceptor_lies_down();
        let wait_ms = acceptor_wait(
            is_called,
            self.listening_socket.is_asked(),
            shared.newcomers(),
        );
        let header_ms = self.pending.left_ms(self.clock_ms, wait_ms);
        let polled = self.listening_socket.poll(header_wait(wait_ms, header_ms));
        let _ = shared.mark(Mark::AcceptorSleeps, false);
        self.clock_ms = moment(rt);
        if shared.mark(Mark::Closed, false) {
            self.accepts.note_closed();
        }
        note_events(&self.listening_socket, &mut self.pending);
        polled
    }

    /// Accepts all connections that wait, as far as the intake has room. None is accepted before a worker has begun.
    fn accept_all<R: Clock + Wait>(
        &mut self,
        rt: &R,
        shared: &Shared,
        intake: &Intake<Accepted>,
        pass: &mut IntakePass<Accepted>,
    ) -> Result<(), ServeFault>
        requires own { pass.old.intake ≡ intake.now }
        ensures own { pass.new.intake ≡ intake.now }
        ensures proxies { self.new.pending.proxies ≡ self.old.pending.proxies }
        ensures entitled { All (IsEntitled self.old.pending.proxies) pass.old.put → All (IsEntitled self.old.pending.proxies) pass.new.put }
    {
        'room: for _ in shared.newcomers()..ROOM {
            let Some(number) = shared.next_desk(self.next) else {
                return Ok(());
            };
            let Ok(accepted) = accept_next(
                &mut self.listening_socket,
                &mut self.accepts,
                self.clock_ms,
            ) else {
                return Err(ServeFault::Accept);
            };
            let _ = shared.mark(Mark::ClosingWanted, self.accepts.is_short());
            let Some(newcomer) = accepted else {
                return Ok(());
            };
            self.take_in(rt, shared, intake, pass, newcomer, number);
        }
        Ok(())
    }

    /// Assigns a connection that was accepted to this worker. That of a proxy waits for its header first.
    fn take_in<R: Clock + Wait>(
        &mut self,
        rt: &R,
        shared: &Shared,
        intake: &Intake<Accepted>,
        pass: &mut IntakePass<Accepted>,
        newcomer: AcceptedSocket,
        number: usize,
    )
        requires own { pass.old.intake ≡ intake.now }
        ensures own { pass.new.intake ≡ intake.now }
        ensures proxies { self.new.pending.proxies ≡ self.old.pending.proxies }
        ensures entitled { All (IsEntitled self.old.pending.proxies) pass.old.put → All (IsEntitled self.old.pending.proxies) pass.new.put }
    {
        let AcceptedSocket { stream, peer } = newcomer;
        if self.pending.awaits(peer) {
            self.await_header(rt, shared, stream, peer);
            return;
        }
        let newcomer = Accepted {
            stream,
            socket_peer: peer,
            named: NamedClient::Nobody,
        };
        self.assign(rt, shared, intake, pass, newcomer, number);
    }

    /// Keeps the connection of a proxy until its header has come. It is closed if as many as may be wait already.
    fn await_header<R: Clock + Wait>(
        &mut self,
        rt: &R,
        shared: &Shared,
        stream: TcpStream,
        proxy: Peer,
    )
        requires { is_proxy self.old.pending.proxies proxy ≡ true }
        ensures { self.new.pending.proxies ≡ self.old.pending.proxies }
    {
        let mut stream = stream;
        self.number = next_number(self.number);
        if self
            .listening_socket
            .watch(&mut stream, self.number)
            .is_err()
        {
            drop(stream);
            return;
        }
        let added = self.pending.add(stream, proxy, self.number, self.clock_ms);
        if let Err(stream) = added {
            drop(stream);
            self.log_gone(rt, shared, proxy, "too-many-clients", 0);
        }
    }

    /// Puts each connection whose header has come into the intake, as far as that has room, and closes those of which
    /// none comes.
    fn settle_all<R: Clock + Wait>(
        &mut self,
        rt: &R,
        shared: &Shared,
        intake: &Intake<Accepted>,
        pass: &mut IntakePass<Accepted>,
    )
        requires own { pass.old.intake ≡ intake.now }
        ensures own { pass.new.intake ≡ intake.now }
        ensures proxies { self.new.pending.proxies ≡ self.old.pending.proxies }
        ensures entitled { All (IsEntitled self.old.pending.proxies) pass.old.put → All (IsEntitled self.old.pending.proxies) pass.new.put }
    {
        'room: for _ in shared.newcomers()..ROOM {
            let Some(number) = shared.next_desk(self.next) else {
                return;
            };
            let Some(settled) = self.pending.next(self.clock_ms) else {
                return;
            };
            self.settle(rt, shared, intake, pass, settled, number);
        }
    }

    /// Assigns a connection to this worker, if its header has come; else it is closed, and the log has a line of it.
    fn settle<R: Clock + Wait>(
        &mut self,
        rt: &R,
        shared: &Shared,
        intake: &Intake<Accepted>,
        pass: &mut IntakePass<Accepted>,
        settled: Settled<TcpStream>,
        number: usize,
    )
        requires own { pass.old.intake ≡ intake.now }
        requires proxy { is_proxy self.old.pending.proxies settled.proxy ≡ true }
        ensures own { pass.new.intake ≡ intake.now }
        ensures proxies { self.new.pending.proxies ≡ self.old.pending.proxies }
        ensures entitled { All (IsEntitled self.old.pending.proxies) pass.old.put → All (IsEntitled self.old.pending.proxies) pass.new.put }
    {
        let Settled {
            stream,
            proxy,
            since_ms,
            outcome,
        } = settled;
        match outcome {
            HeaderOutcome::Named(named) => {
                let mut newcomer = Accepted {
                    stream,
                    socket_peer: proxy,
                    named,
                };
                if self.listening_socket.forget(&mut newcomer.stream).is_err() {
                    // The system would go on reporting it here.
                    drop(newcomer);
                    return;
                }
                self.assign(rt, shared, intake, pass, newcomer, number);
            }
            HeaderOutcome::Bad | HeaderOutcome::Left => {
                drop(stream);
                self.accepts.note_closed();
                let seconds = self.clock_ms.saturating_sub(since_ms) / 1000;
                self.log_gone(rt, shared, proxy, gone_word(outcome), seconds);
            }
        }
    }

    /// Logs a connection of this proxy that has ended so before a client has arrived.
    fn log_gone<R: Clock + Wait>(
        &self,
        rt: &R,
        shared: &Shared,
        proxy: Peer,
        why: &str,
        seconds: u64,
    ) {
        let now = match rt.since_1970() {
            Ok(since) => since.as_secs(),
            Err(_) => 0,
        };
        self.log.set_moment(now);
        self.log.note(Fact::ClientEnded(gone(proxy, why, seconds)));
        let lines = self.log.take();
        shared.add_lines(rt, lines.as_slice(), now);
    }

    /// Assigns a connection to this worker. It is closed where too many wait.
    fn assign<R: Wait>(
        &mut self,
        rt: &R,
        shared: &Shared,
        intake: &Intake<Accepted>,
        pass: &mut IntakePass<Accepted>,
        newcomer: Accepted,
        number: usize,
    )
        requires own { pass.old.intake ≡ intake.now }
        requires entitled { IsEntitled self.old.pending.proxies newcomer }
        ensures own { pass.new.intake ≡ intake.now }
        // the next one is for the worker behind this one, if this one was put for it
        ensures next { (self.new.next ≡ self.old.next) ⊎ (self.new.next ≡ min (2 ^ 64 - 1) (number + 1)) }
        ensures accepts { self.new.accepts ≡ self.old.accepts }
        ensures proxies { self.new.pending.proxies ≡ self.old.pending.proxies }
        ensures entitled { All (IsEntitled self.old.pending.proxies) pass.old.put → All (IsEntitled self.old.pending.proxies) pass.new.put }
    {
        if let Err(newcomer) = intake.put(rt, pass, newcomer) {
            drop(newcomer);
            return;
        }
        self.next = number.saturating_add(1);
        if let Some(desk) = shared.desk(number) {
            desk.send();
        }
    }
}

/// Notes what the system has reported last of the connections that wait for a header.
fn note_events(listening_socket: &ListeningSocket, pending: &mut Pending<TcpStream>)
    ensures { pending.new.proxies ≡ pending.old.proxies }
{
    for event in listening_socket.events() {
        pending.note(event.token().0, event.is_read_closed() || event.is_error());
    }
}
