//! A relay's thread: a pull of its master, again and again.

ghost use Rattle.std.specs.Prelude.{◌≡◌, ◌⊎◌, IfOk, IfErr, IfSome, OnErr, OnOk};
ghost use Rattle.radio_masters.specs.declared.relay_end.RelayEnd.TheVariants.{NoAnswer, NotWished, OutOfMemory as NoMemory};
ghost use Rattle.radio_relay.specs.Course.{GoesDown, RefusesDown};
ghost use Rattle.radio_masters.specs.Askers.{AskedSteps};
ghost use Rattle.radio_serving.specs.Watching.{WatchedSteps};
ghost use Rattle.radio_pullers.specs.Threads.{HasPulled, HasHadTurns, IsLetDown, IsNewPull, IsPullOf};
ghost use Rattle.radio_pullers.specs.Turns.{MayTurn};

use crate::OutOfMemory;
use crate::running::RunningRelay;
use crate::station::RelayedStation;
use crate::waits::waits_until;
use mio::net::TcpStream;
use radio_board::{NewsFor, Shared};
use radio_events::SharedServer;
use radio_lines::{Network, SocketLine, Sockets, moment, moment_us};
use radio_masters::{MountPull, RelayEnd, RelayServer};
use radio_serving::{Server, Take, Watched};
use radio_tries::{REST_MS, RelayOutcome, after, end_of, is_last_pull, pull_end};
use std::alloc::Global;
use std::io;
use std::net::SocketAddr;
use std::sync::Wait;
use std::time::Clock;

/// How many bytes are read at once.
const READ_ROOM: usize = 16_384;

/// How long a relay waits at once, in milliseconds: as often it looks whether it is to stop, and asks whether the server
/// has finished it.
const WAIT_MS: u64 = 500;

/// A relay's thread.
#[derive(Drop)]
struct Puller<'a, R: Clock + Wait, N: Network, S: SharedServer> {
    rt: &'a R,
    net: &'a N,
    shared: &'a Shared,
    relay: &'a RunningRelay,
    sockets: Sockets,
    asked: RelayServer<Watched<'a, R, S>>,
    /// When the pull began, in milliseconds.
    began_ms: u64,
    /// The moment that the log last got, in seconds since 1970.
    seconds: u64,
}

/// Pulls this relay in, with a pass of its own, until it is to stop, or a try to bring it up has failed. A pull that has ended
/// of a relay that was up is begun again after five seconds.
pub(crate) fn pull_relay<R: Clock + Wait, N: Network, S: SharedServer>(
    rt: &R,
    station: &RelayedStation<'_, N, S>,
    relay: &RunningRelay,
) {
    let outcome = match pull_alone(rt, station, relay) {
        Some(outcome) => outcome,
        None => not_begun(rt, relay),
    };
    let _ = relay.outcome.lock(rt).replace(outcome);
}

/// Pulls this relay in with a pass of its own. Returns how its thread has ended; `None` if there is no pass, or memory or a socket
/// was refused before anything was tried.
fn pull_alone<R: Clock + Wait, N: Network, S: SharedServer>(
    rt: &R,
    station: &RelayedStation<'_, N, S>,
    relay: &RunningRelay,
) -> Option<RelayOutcome> {
    let pass = station.server.pass(rt)?;
    let (outcome, pass) = pull_with(rt, station, relay, pass)?;
    drop(pass);
    Some(outcome)
}

/// Pulls this relay in with this pass, by which all is applied, and which comes back. Returns how its thread has ended; `None` if
/// memory or a socket was refused before anything was tried.
fn pull_with<R: Clock + Wait, N: Network, S: SharedServer>(
    rt: &R,
    station: &RelayedStation<'_, N, S>,
    relay: &RunningRelay,
    pass: S::Pass,
) -> Option<(RelayOutcome, S::Pass)>
    ensures { IfSome result (λ done. HasPulled S.steps S.refuses relay.now.setting pass done.1) }
{
    let watched = Watched::new(station.shared.alloc(), rt, station.server, pass);
    let puller = Puller::new(rt, station.net, station.shared, relay, watched).ok()?;
    Some(puller.run())
}

/// Returns how a relay's thread has ended that was refused memory, a pass or a socket before anything was tried.
fn not_begun<R: Clock>(rt: &R, relay: &RunningRelay) -> RelayOutcome
    ensures why { result.why ≡ NoMemory }
    ensures failing { result.failing ≡ relay.now.failing }
{
    RelayOutcome {
        why: RelayEnd::OutOfMemory,
        ms: moment(rt),
        failing: relay.failing(),
    }
}

/// Returns this server, as this relay asks it. `OutOfMemory` if memory was refused.
fn asked_for<S: Server + Drop>(
    alloc: Global,
    relay: &RunningRelay,
    server: S,
) -> Result<RelayServer<S>, OutOfMemory>
    ensures server { IfOk result (λ asked. asked.server ≡ server) }
    ensures failing { IfOk result (λ asked. asked.course.failing ≡ relay.now.failing) }
{
    let mut asked = RelayServer::new(alloc, server, relay.setting())?;
    asked.set_failing(relay.failing());
    Ok(asked)
}

impl<'a, R: Clock + Wait, N: Network, S: SharedServer> Puller<'a, R, N, S> {
    /// Returns the thread of this relay, which asks this server. The system's fault if it reports nothing of sockets,
    /// or memory was refused.
    fn new(
        rt: &'a R,
        net: &'a N,
        shared: &'a Shared,
        relay: &'a RunningRelay,
        watched: Watched<'a, R, S>,
    ) -> io::Result<Puller<'a, R, N, S>>
        ensures server { IfOk result (λ puller. puller.asked.server ≡ watched.entry) }
        ensures relay { IfOk result (λ puller. puller.relay.now ≡ relay.now) }
        ensures began { IfOk result (λ puller. puller.began_ms ≡ 0) }
    {
        let alloc = shared.alloc();
        let asked = asked_for(alloc, relay, watched)?;
        let sockets = Sockets::alone(net, alloc)?;
        Ok(Puller {
            rt,
            net,
            shared,
            relay,
            sockets,
            asked,
            began_ms: 0,
            seconds: 0,
        })
    }

    /// Pulls until it is to stop, or a pull has not brought it up. Returns how it has ended, and the pass, by which all was applied.
    fn run(self) -> (RelayOutcome, S::Pass)
        ensures { HasPulled S.steps S.refuses self.entry.relay.now.setting self.entry.asked.server.server result.1 }
    {
        let mut puller = self;
        let outcome = puller.work();
        drop(puller.sockets);
        (outcome, puller.asked.into_server().into_pass())
    }

    /// Pulls again and again, until it is to stop, or a pull has not brought it up. Returns how it has ended.
    #[tactic(auto, using(crate::proofs::ThreadLemmas::pulls_none, crate::proofs::ThreadLemmas::pulls_rest, crate::proofs::ThreadLemmas::pulls_then))]
    fn work(&mut self) -> RelayOutcome
        ensures { HasPulled S.steps S.refuses self.old.relay.now.setting self.old.asked.server.server self.new.asked.server.server }
    {
        'pulls: for _ in self.rt.forever() {
            let why = self.pull();
            if !self.goes_on(why) {
                return self.outcome(why);
            }
        }
        unreachable!()
    }

    /// Logs that a pull has ended so, and rests. Returns whether another is to follow: the relay was up, and is not to
    /// stop.
    fn goes_on(&mut self, why: RelayEnd) -> bool
        ensures server { self.new.asked.server ≡ self.old.asked.server }
        ensures relay { self.new.relay.now ≡ self.old.relay.now }
        ensures began { self.new.began_ms ≡ self.old.began_ms }
    {
        let was_up = self.asked.is_up();
        self.log_end(why);
        let until_ms = after(moment(self.rt), REST_MS);
        was_up && waits_until(self.rt, self.shared, Some(self.relay), until_ms)
    }

    /// Returns how the thread has ended whose last pull has ended so.
    fn outcome(&self, why: RelayEnd) -> RelayOutcome
        ensures { (result.why ≡ why) ⊎ (result.why ≡ NotWished) }
    {
        let failing = self.asked.failing();
        RelayOutcome::of(self.relay.is_stopped(), why, moment(self.rt), failing)
    }

    /// Pulls from the first address of the master that answers. Returns why the pull has ended.
    #[tactic(auto, using(crate::proofs::ThreadLemmas::pulls_none, crate::proofs::ThreadLemmas::pulls_then))]
    fn pull(&mut self) -> RelayEnd
        ensures pulls { HasPulled S.steps S.refuses self.old.relay.now.setting self.old.asked.server.server self.new.asked.server.server }
        ensures relay { self.new.relay.now ≡ self.old.relay.now }
    {
        let mut why = RelayEnd::NoAddress;
        'addresses: for address in self.addresses() {
            why = self.pull_at(address);
            if is_last_pull(why) {
                return why;
            }
        }
        why
    }

    /// Returns the addresses of the master, as the system knows them by its name.
    fn addresses(&self) -> Vec<SocketAddr> {
        let master = &self.relay.setting().master;
        let port = master.port.get() as u16;
        self.net
            .addresses(self.shared.alloc(), master.server.as_str(), port)
    }

    /// Pulls from this address. Returns why the pull has ended; then the relay is down.
    #[tactic(auto, using(crate::proofs::ThreadLemmas::new_pull_of, crate::proofs::ThreadLemmas::pulls_one, crate::proofs::ThreadLemmas::pulls_same))]
    fn pull_at(&mut self, address: SocketAddr) -> RelayEnd
        ensures pulls { HasPulled S.steps S.refuses self.old.relay.now.setting self.old.asked.server.server self.new.asked.server.server }
        ensures relay { self.new.relay.now ≡ self.old.relay.now }
    {
        self.began_ms = moment(self.rt);
        match self.begin(address) {
            Ok(pull) => self.pull_on(pull),
            Err(why) => why,
        }
    }

    /// Makes the turns of a pull that has just begun. Returns why it has ended; then the relay is down.
    fn pull_on(&mut self, pull: MountPull<SocketLine<TcpStream>>) -> RelayEnd
        requires { IsNewPull self.old.relay.now.setting pull }
        ensures pull { IsPullOf S.steps S.refuses self.old.relay.now.setting self.old.asked.server.server self.new.asked.server.server }
        ensures relay { self.new.relay.now ≡ self.old.relay.now }
    {
        let mut pull = pull;
        let why = self.turns(&mut pull);
        self.go_down(&pull);
        why
    }

    /// Begins a pull from this address, of which nothing has come yet. `NoAnswer` if nothing can be connected, `OutOfMemory` if
    /// memory was refused.
    fn begin(&mut self, address: SocketAddr) -> Result<MountPull<SocketLine<TcpStream>>, RelayEnd>
        ensures asked { self.new.asked ≡ self.old.asked }
        ensures relay { self.new.relay.now ≡ self.old.relay.now }
        ensures pull { IfOk result (λ pull. IsNewPull self.old.relay.now.setting pull) }
        ensures why { IfErr result (λ why. (why ≡ NoAnswer) ⊎ (why ≡ NoMemory)) }
    {
        let Ok(line) = self.sockets.connect(self.net, address) else {
            return Err(RelayEnd::NoAnswer);
        };
        match MountPull::new(self.shared.alloc(), self.relay.setting(), line) {
            Ok(pull) => Ok(pull),
            Err(_) => Err(RelayEnd::OutOfMemory),
        }
    }

    /// Has the relay of a pull that has ended go down. If memory is refused for that, it asks again, until the server ends. Who has
    /// gone down already is not known any more.
    #[tactic(auto, using(crate::proofs::ThreadLemmas::let_down, crate::proofs::ThreadLemmas::refused_same))]
    fn go_down(&mut self, pull: &MountPull<SocketLine<TcpStream>>)
        ensures down { IsLetDown S.steps S.refuses pull.now.relay.number self.old.asked.server.server self.new.asked.server.server }
        ensures relay { self.new.relay.now ≡ self.old.relay.now }
    {
        'asking: for _ in self.rt.forever() {
            let Err(_) = self.end(pull) else {
                return;
            };
            if self.shared.is_over() {
                return;
            }
            let until_ms = after(moment(self.rt), WAIT_MS);
            let _ = waits_until(self.rt, self.shared, None, until_ms);
        }
        unreachable!()
    }

    /// Has the relay of a pull that has ended go down, if it is up. `OutOfMemory` if memory was refused for that; nothing was
    /// applied then.
    fn end(&mut self, pull: &MountPull<SocketLine<TcpStream>>) -> Result<(), OutOfMemory>
        ensures down { OnOk result (GoesDown (AskedSteps (WatchedSteps S.steps)) pull.now.relay.number self.old.asked self.new.asked) }
        ensures err { OnErr result (self.new.asked ≡ self.old.asked) }
        ensures refused { OnErr result (RefusesDown (λ asked event. S.refuses asked.server.server event) pull.now.relay.number self.old.asked) }
        ensures relay { self.new.relay.now ≡ self.old.relay.now }
    {
        let ended = pull.close(&mut self.asked);
        self.report();
        ended
    }

    /// Makes turn after turn, until the pull has ended. Returns why.
    #[tactic(auto, using(crate::proofs::ThreadLemmas::gone_none, crate::proofs::ThreadLemmas::gone_then, crate::proofs::ThreadLemmas::turned_then))]
    fn turns(&mut self, pull: &mut MountPull<SocketLine<TcpStream>>) -> RelayEnd
        ensures turns { HasHadTurns S.steps pull.old self.old.asked.server.server pull.new self.new.asked.server.server }
        ensures relay { self.new.relay.now ≡ self.old.relay.now }
        ensures began { self.new.began_ms ≡ self.old.began_ms }
    {
        let mut buffer = [0u8; READ_ROOM];
        'turns: for _ in self.rt.forever() {
            if let Some(why) = self.turn(pull, &mut buffer) {
                return why;
            }
        }
        unreachable!()
    }

    /// Waits until there is something to do, and does it. Returns why the pull has ended, if it has.
    // rule: Turn of a pull
    fn turn(
        &mut self,
        pull: &mut MountPull<SocketLine<TcpStream>>,
        buffer: &mut [u8],
    ) -> Option<RelayEnd>
        ensures turn { MayTurn (AskedSteps (WatchedSteps S.steps)) self.old.began_ms pull.old self.old.asked result pull.new self.new.asked }
        ensures relay { self.new.relay.now ≡ self.old.relay.now }
        ensures began { self.new.began_ms ≡ self.old.began_ms }
    {
        let Some(ms) = self.poll() else {
            return Some(RelayEnd::Left);
        };
        if self.relay.is_stopped() || self.shared.is_over() {
            return Some(RelayEnd::NotWished);
        }
        let turn = pull.turn(&mut self.asked, buffer);
        self.report();
        end_of(turn, pull, self.began_ms, ms)
    }

    /// Asks the system what is ready on the socket, and waits for it. Returns the moment then, in milliseconds; `None`
    /// if the system reports nothing.
    fn poll(&mut self) -> Option<u64>
        ensures asked { self.new.asked ≡ self.old.asked }
        ensures relay { self.new.relay.now ≡ self.old.relay.now }
        ensures began { self.new.began_ms ≡ self.old.began_ms }
    {
        let wait_ms = self.sockets.activity().wait_ms(WAIT_MS);
        let polled = self.sockets.poll(self.rt, wait_ms).ok()?;
        self.sockets
            .activity()
            .begin_turn(polled.ms, self.shared.pace(), self.shared.news_count());
        if let Ok(since) = self.rt.since_1970() {
            self.seconds = since.as_secs();
            self.asked.log().lines().set_moment(self.seconds);
        }
        Some(polled.ms)
    }

    /// Gives news to the workers, and the lines that wait to the log.
    fn report(&self) {
        let found = self.asked.server().take_found(Take::News);
        let received = self.sockets.activity().take_received();
        let news = NewsFor::from(found.has_news);
        self.shared
            .note_received(received, news, moment_us(self.rt));
        let lines = self.asked.log().lines().take();
        if !lines.is_empty() {
            self.shared
                .add_lines(self.rt, lines.as_slice(), self.seconds);
        }
    }

    /// Logs that the pull has ended.
    fn log_end(&mut self, why: RelayEnd)
        ensures server { self.new.asked.server ≡ self.old.asked.server }
        ensures relay { self.new.relay.now ≡ self.old.relay.now }
        ensures began { self.new.began_ms ≡ self.old.began_ms }
    {
        let end = pull_end(why, self.began_ms, moment(self.rt));
        self.asked.log_end(end);
        self.report();
    }
}
