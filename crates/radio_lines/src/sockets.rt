//! A thread's sockets, as the system reports them.

ghost use Rattle.std.specs.Prelude.{◌≡◌, ◌<◌, ◌+◌, ◌/◌, nat_lt, if◌then◌else◌, [], vec_len, IfOk, IfSome};
ghost use Rattle.std.specs.Arc.{arc_value};
ghost use Rattle.std.specs.List.{list_any};
ghost use Rattle.mio.specs.Event.{event_token};
ghost use Rattle.mio.specs.Events.{items};
ghost use Rattle.radio_lines.specs.Waits.{ends_wait, polled_at, is_waker};

use crate::activity::{Activity, Need};
use crate::clock::moment_us;
use crate::reach::Network;
use crate::readiness::Readiness;
use crate::ready::{Ready, SocketReport};
use crate::{OutOfMemory, SocketLine};
use mio::net::TcpStream;
use mio::{Events, Interest, Poll, Token, Waker};
use radio_connections::Line;
use std::alloc::Global;
use std::io;
use std::net::SocketAddr;
use std::sync::Arc;
use std::time::{Clock, Duration};

/// The name of the thread's waker in the system's reports; any other is the number of a line.
const WAKER: Token = Token(usize::MAX);

/// How many sockets the system reports at once.
const EVENTS: usize = 1024;

/// The same of one who has a socket or two.
const FEW_EVENTS: usize = 8;

/// What the system reported, and when.
#[derive(Clone, Copy)]
pub struct Polled {
    /// The clock's moment then, in milliseconds.
    pub ms: u64,
    /// The same moment, in microseconds.
    pub us: u64,
    /// Whether a line has something to do.
    pub is_ready: bool,
    /// Whether the thread's waker was called.
    pub is_called: bool,
}

/// What the system has reported at once.
#[derive(Clone, Copy)]
struct PollReport {
    is_ready: bool,
    is_called: bool,
}

impl PollReport {
    /// Returns what was reported, at this moment in microseconds.
    fn at(self, us: u64) -> Polled
        ensures { result ≡ polled_at us self }
    {
        Polled {
            ms: us / 1000,
            us,
            is_ready: self.is_ready,
            is_called: self.is_called,
        }
    }

    /// Returns whether a wait until `ends_ms` ends with this, at this moment in microseconds.
    fn ends_wait(self, us: u64, ends_ms: u64) -> bool
        ensures { result ≡ ends_wait us ends_ms self }
    {
        self.is_ready || self.is_called || us / 1000 >= ends_ms
    }
}

/// What the system has reported of a thread's lines.
#[derive(Drop)]
pub struct Sockets {
    alloc: Global,
    poll: Poll,
    events: Events<Global>,
    /// Of each line by its number. One that no line has any more is free for the next.
    readiness: Vec<Arc<Readiness>>,
    /// Where the last free one was looked for.
    next: usize,
    activity: Arc<Activity>,
}

impl Sockets {
    /// Returns those of a thread that has none yet, and its waker, which ends a wait of [`poll`](Sockets::poll) from
    /// another thread; the system's fault if it reports nothing of sockets.
    ///
    /// `OutOfMemory` if memory was refused.
    pub fn new<N: Network>(
        net: &N,
        alloc: Global,
    ) -> Result<io::Result<(Sockets, Waker)>, OutOfMemory>
        ensures { IfOk result (λ made. IfOk made (λ own. vec_len own.0.readiness ≡ 0)) }
    {
        let sockets = match Sockets::with_room(net, alloc, EVENTS)? {
            Ok(sockets) => sockets,
            Err(error) => return Ok(Err(error)),
        };
        match Waker::new(sockets.poll.registry(), WAKER) {
            Ok(waker) => Ok(Ok((sockets, waker))),
            Err(error) => Ok(Err(error)),
        }
    }

    /// Returns those of a thread that has none yet, will have few, and is woken by no other; the system's fault if it
    /// reports nothing of sockets, or memory was refused.
    pub fn alone<N: Network>(net: &N, alloc: Global) -> io::Result<Sockets>
        ensures { IfOk result (λ own. vec_len own.readiness ≡ 0) }
    {
        Sockets::with_room(net, alloc, FEW_EVENTS)?
    }

    /// Returns those of a thread to which so many are reported at once.
    fn with_room<N: Network>(
        net: &N,
        alloc: Global,
        events: usize,
    ) -> Result<io::Result<Sockets>, OutOfMemory>
        ensures { IfOk result (λ made. IfOk made (λ own. vec_len own.readiness ≡ 0)) }
    {
        let events = Events::with_capacity(alloc, events)?;
        let activity = Arc::new(alloc, Activity::new())?;
        match net.poll() {
            Ok(poll) => Ok(Ok(Sockets {
                alloc,
                poll,
                events,
                readiness: Vec::new(alloc),
                next: 0,
                activity,
            })),
            Err(error) => Ok(Err(error)),
        }
    }

    /// What the lines share.
    pub fn activity(&self) -> &Activity
        ensures { result.now ≡ arc_value self.now.activity }
    {
        &self.activity
    }

    /// Asks the system what is ready. Waits until a line has something to do or the waker is called, so many
    /// milliseconds at most. The system's fault if it reports nothing any more.
    pub fn poll<C: Clock>(&mut self, clock: &C, wait_ms: u64) -> io::Result<Polled>
        ensures { IfOk result (λ polled. polled.ms ≡ polled.us / 1000) }
    {
        let mut us = moment_us(clock);
        let ends_ms = (us / 1000).saturating_add(wait_ms);
        for _ in 0..EVENTS {
            let report = self.poll_once(ends_ms.saturating_sub(us / 1000))?;
            us = moment_us(clock);
            if report.ends_wait(us, ends_ms) {
                return Ok(report.at(us));
            }
        }
        let nothing = PollReport {
            is_ready: false,
            is_called: false,
        };
        Ok(nothing.at(us))
    }

    /// Notes what the system reports within so many milliseconds.
    fn poll_once(&mut self, wait_ms: u64) -> io::Result<PollReport>
        ensures { IfOk result (λ report. report.is_called ≡ list_any (λ e. is_waker (event_token e)) (items self.new.events)) }
    {
        let wait = Duration::from_millis(wait_ms);
        self.poll.poll(&mut self.events, Some(wait))?;
        let mut is_ready = false;
        for event in &self.events {
            if let Some(readiness) = self.readiness.get(event.token().0) {
                let before = readiness.load();
                let notice = SocketReport::of(event);
                readiness.store(before.after_report(notice));
                is_ready = is_ready || before.brings_work(notice);
            }
        }
        Ok(PollReport {
            is_ready,
            is_called: self.is_called(),
        })
    }

    /// Returns whether the system has reported last that the waker was called.
    fn is_called(&self) -> bool
        ensures { result ≡ list_any (λ e. is_waker (event_token e)) (items self.now.events) }
    {
        self.events.iter().any(|event| is_waker(event.token()))
    }

    /// The line to this address. It is being connected: until it is, the line takes and gives nothing. The system's fault
    /// where it does not connect at all, or memory was refused.
    pub fn connect<N: Network>(
        &mut self,
        net: &N,
        address: SocketAddr,
    ) -> io::Result<SocketLine<TcpStream>>
        ensures { IfOk result (λ line. (⟦<SocketLine<TcpStream> as Line>⟧.given line ≡ []) × (⟦<SocketLine<TcpStream> as Line>⟧.taken line ≡ [])) }
    {
        let stream = net.connect(address)?;
        let line = self.line_of(stream)?;
        self.activity.note(Need::More, 0);
        Ok(line)
    }

    /// Returns the line of a socket that does not wait. Its bytes are sent as they come. The system's fault if it does
    /// not report it, or memory was refused.
    pub fn line_of(&mut self, mut stream: TcpStream) -> io::Result<SocketLine<TcpStream>>
        ensures { IfOk result (λ line. (⟦<SocketLine<TcpStream> as Line>⟧.given line ≡ []) × (⟦<SocketLine<TcpStream> as Line>⟧.taken line ≡ [])) }
    {
        stream.set_nodelay(true)?;
        let (number, readiness) = self.free_readiness()?;
        let both = Interest::READABLE | Interest::WRITABLE;
        self.poll
            .registry()
            .register(&mut stream, Token(number), both)?;
        readiness.store(Ready::fresh());
        let activity = self.activity.clone()?;
        Ok(SocketLine::new(stream, readiness, activity))
    }

    /// Returns a number that no line has, and what is reported of it. `OutOfMemory` if memory was
    /// refused.
    fn free_readiness(&mut self) -> Result<(usize, Arc<Readiness>), OutOfMemory>
        ensures { IfOk result (λ free. free.0 < vec_len self.new.readiness) }
    {
        match self.unused_readiness()? {
            Some(unused) => Ok(unused),
            None => self.new_readiness(),
        }
    }

    /// Returns the same among those that a line has had, if one is free: the first behind the one that was given last.
    fn unused_readiness(&mut self) -> Result<Option<(usize, Arc<Readiness>)>, OutOfMemory>
        ensures { IfOk result (λ unused. IfSome unused (λ free. free.0 < vec_len self.new.readiness)) }
    {
        let count = self.readiness.len();
        for _ in 0..count {
            self.next = next_in_ring(self.next, count);
            if let Some(readiness) = self.readiness.get(self.next) {
                if Arc::strong_count(readiness) == 1 {
                    return Ok(Some((self.next, readiness.clone()?)));
                }
            }
        }
        Ok(None)
    }

    /// Adds one more.
    fn new_readiness(&mut self) -> Result<(usize, Arc<Readiness>), OutOfMemory>
        ensures { IfOk result (λ free. (free.0 ≡ vec_len self.old.readiness) × (free.0 < vec_len self.new.readiness)) }
    {
        let readiness = Arc::new(self.alloc, Readiness::new(Ready::fresh()))?;
        let shared = readiness.clone()?;
        let number = self.readiness.len();
        self.readiness.push(readiness)?;
        Ok((number, shared))
    }
}

/// Returns whether this is the name of a thread's waker.
fn is_waker(token: Token) -> bool
    ensures { result ≡ is_waker token }
{
    token.0 == WAKER.0
}

/// Returns the number behind this one, of `count` and one more that follow one another in a ring.
fn next_in_ring(number: usize, count: usize) -> usize
    ensures { result ≡ (if nat_lt number count then number + 1 else 0) }
{
    if number < count { number + 1 } else { 0 }
}
