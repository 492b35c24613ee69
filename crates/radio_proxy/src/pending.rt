//! Connections of proxies whose headers have not come.

ghost use Rattle.std.specs.Prelude.{◌≡◌, ◌≤◌, ◌<◌, ◌+◌, ◌-◌, ◌||◌, nat_eq, nat_le, true, All, IfSome, OnOk, vec_capacity, vec_len};
ghost use Rattle.std.specs.List.{position};
ghost use Rattle.radio_proxy.specs.Pending.{IsEnded, due, is_proxy, overdue};

use crate::greeting::{HeaderLook, take_header};
use crate::header::NamedClient;
use crate::peek::Peek;
use radio_addr::{AddressList, Peer};
use std::alloc::Global;

/// What became of a connection whose header was awaited.
#[derive(Clone, Copy, Debug, PartialEq, Eq)]
pub enum HeaderOutcome {
    /// Its header has come, and names this.
    Named(NamedClient),
    /// What came is no header, or none came in time.
    Bad,
    /// Its peer has closed before its header was whole, or the stream has failed.
    Left,
}

/// A connection that is awaited no more.
#[derive(Drop)]
pub struct Settled<S: Drop> {
    /// Its stream: what is read from it next came behind the header, if there is one.
    pub stream: S,
    /// The address of its other end, which is a proxy's.
    pub proxy: Peer,
    /// When it was accepted, in milliseconds.
    pub since_ms: u64,
    /// What became of it.
    pub outcome: HeaderOutcome,
}

/// A connection that is awaited.
#[derive(Drop)]
struct Awaited<S: Drop> {
    stream: S,
    proxy: Peer,
    number: usize,
    since_ms: u64,
    /// Whether something may have come.
    is_readable: bool,
    /// Whether its peer has closed, or the stream has failed.
    is_over: bool,
}

/// The connections of proxies whose headers have not come: so many at most, and each for so long at most. Moments are in
/// milliseconds.
#[derive(Drop)]
pub struct Pending<S: Drop> {
    /// Whose connections begin with a header.
    proxies: Option<AddressList>,
    awaited: Vec<Awaited<S>>,
    most: usize,
    patience_ms: u64,
    ghost of_proxies: { All (λ each. is_proxy proxies each.proxy ≡ true) awaited.items },
}

impl<S: Peek + Drop> Awaited<S> {
    /// Returns whether a look at it, or its time, may settle it at this moment.
    fn is_due(&self, ms: u64, patience_ms: u64) -> bool
        ensures { result ≡ due self.now.is_readable self.now.is_over self.now.since_ms ms patience_ms }
    {
        self.is_readable || self.is_over || ms.saturating_sub(self.since_ms) >= patience_ms
    }

    /// Looks at it. Returns what became of it by this moment; `None` if it is awaited on.
    fn look(&mut self, ms: u64, patience_ms: u64) -> Option<HeaderOutcome>
        ensures proxy { self.new.proxy ≡ self.old.proxy }
        ensures ended { IsEnded (S.remaining self.old.stream) (S.remaining self.new.stream) result }
    {
        self.is_readable = false;
        match take_header(&mut self.stream) {
            HeaderLook::Named(named) => Some(HeaderOutcome::Named(named)),
            HeaderLook::Bad => Some(HeaderOutcome::Bad),
            HeaderLook::Over => Some(HeaderOutcome::Left),
            HeaderLook::Waits => self.overdue(ms, patience_ms),
        }
    }

    /// Returns what became of it if no header came by this moment.
    fn overdue(&self, ms: u64, patience_ms: u64) -> Option<HeaderOutcome>
        ensures { result ≡ overdue self.now.is_over self.now.since_ms ms patience_ms }
    {
        if self.is_over {
            Some(HeaderOutcome::Left)
        } else if ms.saturating_sub(self.since_ms) >= patience_ms {
            Some(HeaderOutcome::Bad)
        } else {
            None
        }
    }
}

impl<S: Peek + Drop> Pending<S> {
    /// Returns one that awaits headers of these proxies, of so many connections at most, and each for so long. With no list it
    /// awaits none. It takes no memory.
    pub fn new(
        alloc: Global,
        proxies: Option<AddressList>,
        most: usize,
        patience_ms: u64,
    ) -> Pending<S>
        ensures { result.proxies ≡ proxies }
    {
        Pending {
            proxies,
            awaited: Vec::new(alloc),
            most,
            patience_ms,
        }
    }

    /// Returns whether a connection from this address begins with a header.
    // rule: Proxy header
    pub fn awaits(&self, peer: Peer) -> bool
        ensures { result ≡ is_proxy self.now.proxies peer }
    {
        match &self.proxies {
            Some(proxies) => proxies.contains(peer),
            None => false,
        }
    }

    /// Adds a connection of a proxy, which the system names by this number. `Err` hands its stream back: as many as may be wait
    /// already, or memory was refused.
    pub fn add(&mut self, stream: S, proxy: Peer, number: usize, ms: u64) -> Result<(), S>
        requires { is_proxy self.old.proxies proxy ≡ true }
        ensures { self.new.proxies ≡ self.old.proxies }
    {
        if self.awaited.len() >= self.most || self.awaited.reserve(1).is_err() {
            return Err(stream);
        }
        self.awaited.push_reserved(Awaited {
            stream,
            proxy,
            number,
            since_ms: ms,
            is_readable: true,
            is_over: false,
        });
        Ok(())
    }

    /// Notes that something may have come on the connection of this number, and whether it is over. Nothing if there is none.
    pub fn note(&mut self, number: usize, is_over: bool)
        ensures { self.new.proxies ≡ self.old.proxies }
    {
        let Some(at) = self.place_of(number) else {
            return;
        };
        let mut noted = self.take_out(at);
        noted.is_readable = true;
        noted.is_over = noted.is_over || is_over;
        self.put_back(noted);
    }

    /// Takes out the connection at this place.
    fn take_out(&mut self, at: usize) -> Awaited<S>
        requires { at < vec_len self.old.awaited }
        ensures same { self.new.proxies ≡ self.old.proxies }
        ensures proxy { is_proxy self.old.proxies result.proxy ≡ true }
        ensures room { vec_len self.new.awaited < vec_capacity self.new.awaited }
    {
        self.awaited.remove(at)
    }

    /// Puts a connection back that was taken out.
    fn put_back(&mut self, awaited: Awaited<S>)
        requires proxy { is_proxy self.old.proxies awaited.proxy ≡ true }
        requires room { vec_len self.old.awaited < vec_capacity self.old.awaited }
        ensures same { self.new.proxies ≡ self.old.proxies }
    {
        self.awaited.push_reserved(awaited);
    }

    /// Returns where the connection of this number is.
    fn place_of(&self, number: usize) -> Option<usize>
        ensures { IfSome result (λ at. at < vec_len self.now.awaited) }
    {
        self.awaited.iter().position(|each| each.number == number)
    }

    /// Returns where the first connection is that a look may settle at this moment.
    fn first_due(&self, ms: u64) -> Option<usize>
        ensures { IfSome result (λ at. at < vec_len self.now.awaited) }
    {
        let patience_ms = self.patience_ms;
        self.awaited
            .iter()
            .position(|each| each.is_due(ms, patience_ms))
    }

    /// Takes out a connection that is awaited no more at this moment. `None` if there is none.
    // rule: Proxy header
    pub fn next(&mut self, ms: u64) -> Option<Settled<S>>
        ensures same { self.new.proxies ≡ self.old.proxies }
        ensures proxy { IfSome result (λ settled. is_proxy self.old.proxies settled.proxy ≡ true) }
    {
        'looks: for _ in 0..self.awaited.len() {
            let at = self.first_due(ms)?;
            let settled = self.look_at(at, ms);
            if settled.is_some() {
                return settled;
            }
        }
        None
    }

    /// Looks at the connection at this place, and takes it out if it is awaited no more.
    fn look_at(&mut self, at: usize, ms: u64) -> Option<Settled<S>>
        requires { at < vec_len self.old.awaited }
        ensures same { self.new.proxies ≡ self.old.proxies }
        ensures proxy { IfSome result (λ settled. is_proxy self.old.proxies settled.proxy ≡ true) }
    {
        let mut looked = self.take_out(at);
        match looked.look(ms, self.patience_ms) {
            Some(outcome) => Some(settled_as(looked, outcome)),
            None => {
                self.put_back(looked);
                None
            }
        }
    }

    /// Returns in how many milliseconds the first of them is due; `most_ms` if none is sooner.
    // rule: Missing proxy header
    pub fn left_ms(&self, ms: u64, most_ms: u64) -> u64
        ensures { result ≤ most_ms }
    {
        let mut least = most_ms;
        for each in &self.awaited {
            least = least.min(each.left_ms(ms, self.patience_ms));
        }
        least
    }
}

impl<S: Drop> Awaited<S> {
    /// Returns for how long more it is awaited.
    fn left_ms(&self, ms: u64, patience_ms: u64) -> u64
        ensures { result ≡ patience_ms - (ms - self.now.since_ms) }
    {
        patience_ms.saturating_sub(ms.saturating_sub(self.since_ms))
    }
}

/// Returns the connection as one that is awaited no more.
fn settled_as<S: Drop>(awaited: Awaited<S>, outcome: HeaderOutcome) -> Settled<S>
    ensures proxy { result.proxy ≡ awaited.proxy }
    ensures stream { result.stream ≡ awaited.stream }
    ensures outcome { result.outcome ≡ outcome }
{
    let Awaited {
        stream,
        proxy,
        number: _,
        since_ms,
        is_readable: _,
        is_over: _,
    } = awaited;
    Settled {
        stream,
        proxy,
        since_ms,
        outcome,
    }
}
