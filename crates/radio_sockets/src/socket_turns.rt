//! Where a worker's turns come from: its sockets, and what the others report.

ghost use Rattle.std.specs.Prelude.{◌≡◌, ◌≤◌, ◌-◌, ◌&&◌, ◌||◌, ℕ, true, false, [], IfSome};
ghost use Rattle.radio_board.specs.declared.idle_wait.IdleWait.TheVariants.{Turn as TakesTurn};
ghost use Rattle.radio_board.specs.Rests.{is_turn, longest, most_rest};
ghost use Rattle.radio_board.specs.Serving.{served_by};
ghost use Rattle.radio_proxy.specs.Headers.{peer_by};
ghost use Rattle.radio_sockets.specs.Steps.{called_of};

use crate::listening_socket::Accepted;
use crate::steps::{
    RoundCause, Waited, begins_round, called_of, ends_wait, has_to_do, is_alone, is_turn_due,
    news_for,
};
use mio::net::TcpStream;
use radio_addr::Peer;
use radio_board::{
    IdleWait, MOST_REST_MS, NewsFor, NewsPause, NotedMoment, ServedTime, Shared, Step, WorkerDesk,
    rest_for,
};
use radio_lines::{Polled, SocketLine, Sockets, moment, moment_us};
use radio_notes::Log;
use radio_serving::{Line, Turn};
use radio_workers::{Seen, TurnSource, TurnStart};
use std::sync::Wait;
use std::time::Clock;

mod reporting;

/// After how many such waits a turn is made, even if the moment has not changed.
const MOST_WAITS: usize = 8;

/// Where a worker's turns come from. Moments are in milliseconds.
#[derive(Drop)]
pub struct SocketTurns<'a, R: Clock + Wait> {
    rt: &'a R,
    shared: &'a Shared,
    desk: &'a WorkerDesk,
    /// The number of its desk.
    number: usize,
    sockets: Sockets,
    time: ServedTime,
    /// When its listeners get news, by the clock.
    pause: NewsPause,
    /// Whether they may get news in this turn.
    may_draw: bool,
    /// Whether a round of draws has begun in this turn.
    is_drawing: bool,
    /// The clock's last moment, in microseconds.
    clock_us: u64,
    /// The moment of the last turn.
    turn_ms: u64,
    /// Whether newcomers wait for the next turn, so that the server gets the moment before.
    puts_off: bool,
    /// How many of those that it was called to take it has not taken.
    called: usize,
    /// When the log last got the moment, by the clock.
    log_set_ms: u64,
    has_begun: bool,
    /// Whether somebody has drawn all that it had room for.
    has_more: bool,
    /// How many bytes had come from sources when the last round of draws began.
    received: u64,
    /// How often workers had got news then.
    raised: u64,
    /// The moment that the log got, in seconds since 1970.
    seconds: u64,
}

impl<'a, R: Clock + Wait> SocketTurns<'a, R> {
    /// Returns the turn source of a worker at this desk of this number, with these sockets. It takes no memory.
    pub(crate) fn new(
        rt: &'a R,
        shared: &'a Shared,
        desk: &'a WorkerDesk,
        number: usize,
        sockets: Sockets,
    ) -> SocketTurns<'a, R>
        ensures number { result.number ≡ number }
        ensures sockets { result.sockets ≡ sockets }
        ensures begun { result.has_begun ≡ false }
        ensures called { (result.called ≡ 0) × (result.puts_off ≡ false) }
    {
        SocketTurns {
            rt,
            shared,
            desk,
            number,
            sockets,
            time: ServedTime::new(0, 0),
            pause: NewsPause::new(shared.worker_count()),
            may_draw: false,
            is_drawing: false,
            clock_us: 0,
            turn_ms: 0,
            puts_off: false,
            called: 0,
            log_set_ms: 0,
            has_begun: false,
            has_more: false,
            received: 0,
            raised: 0,
            seconds: 0,
        }
    }

    /// Begins to serve, at the moment up to which the others have read.
    fn begin(&mut self)
        ensures begun { self.new.has_begun ≡ true }
        ensures called { (self.new.called ≡ self.old.called) × (self.new.puts_off ≡ self.old.puts_off) }
    {
        self.has_begun = true;
        let (clock_ms, since_ms) = (moment(self.rt), self.shared.moment(0));
        self.time = ServedTime::new(clock_ms, since_ms);
        self.desk.begin(clock_ms, since_ms);
        self.shared.wake_acceptor();
    }

    /// Waits until there is something to do, or a turn is due. Returns what the system reported then; `None` if it is
    /// to stop.
    fn wait(&mut self) -> Option<Polled>
        ensures clock { IfSome result (λ polled. self.new.clock_us ≡ polled.us) }
    {
        let mut polled = self.poll()?;
        for _ in 1..MOST_WAITS {
            if self.ends_wait(polled) {
                return Some(polled);
            }
            polled = self.poll()?;
        }
        Some(polled)
    }

    /// Returns whether a wait ends in which the system reported this last.
    fn ends_wait(&self, polled: Polled) -> bool
        ensures { polled.is_ready ≡ true → result ≡ true }
    {
        ends_wait(Waited {
            is_ready: polled.is_ready,
            is_due: is_turn_due(self.moment(), self.turn_ms),
            is_over: self.shared.is_over(),
        })
    }

    /// Asks the system what is ready, and waits for that if there is nothing to do. `None` if the system reports
    /// nothing any more.
    fn poll(&mut self) -> Option<Polled>
        ensures clock { IfSome result (λ polled. self.new.clock_us ≡ polled.us) }
    {
        // What was reported before was read since.
        self.desk.stamp(NotedMoment::Read, self.time.served_ms());
        let rest = self.rest();
        let is_called = self.lies_down(rest);
        let wait_ms = if is_called { 0 } else { rest.most_ms() };
        let outcome = self.sockets.poll(self.rt, wait_ms);
        if let Some(step) = rest.step_behind() {
            let _ = self.desk.take(step);
        }
        let Ok(polled) = outcome else {
            self.shared.stop();
            return None;
        };
        self.advance(polled);
        Some(Polled {
            is_ready: polled.is_ready || rest.is_turn() || self.has_to_do(),
            ..polled
        })
    }

    /// Returns how it waits for the next turn: not at all if a listener of its own has more to draw.
    fn rest(&self) -> IdleWait
        ensures more { self.now.has_more ≡ true → result ≡ TakesTurn 0 }
        ensures bound { longest result ≤ most_rest }
    {
        let lines_ms = self.sockets.activity().wait_ms(MOST_REST_MS);
        if self.has_more {
            return IdleWait::Turn(0);
        }
        let is_expected = self.desk.report().state.has_news() || self.pause.was_early();
        rest_for(lines_ms, self.left_us(), is_expected)
    }

    /// Marks the worker as waiting so, then looks once more. Returns whether there is something to do. The order matters: what
    /// comes between the two would be lost otherwise.
    fn lies_down(&self, rest: IdleWait) -> bool
        ensures { is_turn rest ≡ true → result ≡ false }
    {
        match rest {
            IdleWait::Turn(_) => false,
            IdleWait::Asleep(_) => self.desk.lies_down(false) || self.shared.is_over(),
            IdleWait::Paused(_) => self.desk.lies_down(true) || self.has_to_do(),
        }
    }

    /// Returns whether there is something to do, apart from what its sockets report.
    fn has_to_do(&self) -> bool {
        let report = self.desk.report();
        has_to_do(
            report.state.has_news(),
            self.left_us(),
            report.newcomers,
            self.shared.is_over(),
        )
    }

    /// When the news came that waits, in microseconds; this moment if there is none.
    fn came_us(&self) -> u64 {
        self.desk.report().news_came_us(self.clock_us)
    }

    /// For how many microseconds more news waits.
    fn left_us(&self) -> u64 {
        let is_much = self.shared.is_much(self.desk);
        self.pause.left_us(self.clock_us, self.came_us(), is_much)
    }

    /// A round of draws begins: its listeners get all news that there is.
    fn begin_round(&mut self)
        ensures drawing { self.new.is_drawing ≡ true }
        ensures may { self.new.may_draw ≡ self.old.may_draw }
    {
        let came_us = self.came_us();
        let _ = self.desk.take(Step::BeginRound);
        let counts = self.shared.counts();
        self.received = counts.received;
        self.raised = counts.raised;
        self.clock_us = moment_us(self.rt);
        self.pause.begin(self.clock_us, came_us);
        self.is_drawing = true;
    }

    /// The turn is over, and with it the round, if one has begun: unless somebody has drawn all that it had room for.
    fn end_round(&mut self, has_more: bool)
        ensures drawing { self.new.is_drawing ≡ false }
        ensures more { self.new.has_more ≡ self.old.has_more }
        ensures called { self.new.called ≡ self.old.called }
    {
        if self.is_drawing {
            self.is_drawing = false;
            self.clock_us = moment_us(self.rt);
            self.pause.end(self.clock_us);
        }
        if !has_more {
            self.desk.end_round(self.raised);
        }
    }

    /// Sets the moment at which this was reported. Its own time goes on from it.
    fn advance(&mut self, polled: Polled)
        ensures clock { self.new.clock_us ≡ polled.us }
        ensures time { (all_read : ℕ) × (self.new.time ≡ served_by polled.ms all_read self.old.time) }
    {
        self.clock_us = polled.us;
        self.desk.stamp(NotedMoment::Turn, polled.ms);
        let all_read_ms = self.moment();
        self.time.advance(polled.ms, all_read_ms);
        self.sockets.activity().begin_turn(
            self.time.served_ms(),
            self.shared.pace(),
            self.shared.news_count(),
        );
    }

    /// The moment that all get.
    fn moment(&self) -> u64 {
        self.shared.moment(self.time.settled_ms())
    }

    /// How many are taken in before a turn at this moment: none if the last turn was long ago, and this one gives the
    /// server the moment first.
    fn newcomers(&mut self, ms: u64) -> usize
        ensures called { (waiting : ℕ) × (record { count = result; puts_off = self.new.puts_off } ≡ called_of waiting (ms - self.old.turn_ms) self.old.puts_off) }
        ensures count { self.new.called ≡ result }
    {
        let passed_ms = ms.saturating_sub(self.turn_ms);
        let called = called_of(self.desk.report().newcomers, passed_ms, self.puts_off);
        self.puts_off = called.puts_off;
        self.called = called.count;
        called.count
    }

    /// So many of those that it was called to take are taken, by it or others.
    fn note_taken(&mut self, count: usize)
        ensures called { self.new.called ≡ self.old.called - count }
        ensures more { self.new.has_more ≡ self.old.has_more }
    {
        self.called = self.called.saturating_sub(count);
        let _ = self.desk.take_newcomers(count);
    }
}

impl<'a, R: Clock + Wait> TurnSource<Accepted, SocketLine<TcpStream>> for SocketTurns<'a, R> {
    fn next(&mut self, log: &Log) -> Option<TurnStart>
        ensures turn { IfSome result (λ call. self.new.turn_ms ≡ call.turn.ms) }
        ensures called { IfSome result (λ call. self.new.called ≡ call.newcomers) }
        ensures news { IfSome result (λ call. call.turn.news ≡ true → self.new.may_draw ≡ true) }
    {
        if !self.has_begun {
            self.begin();
        }
        let polled = self.wait()?;
        if is_alone(self.time.served_ms(), self.shared.marks().has_acceptor) {
            self.shared.stop();
        }
        if self.shared.is_over() {
            return None;
        }
        self.set_log_moment(log, polled.ms);
        let ms = self.moment();
        let newcomers = self.newcomers(ms);
        self.turn_ms = ms;
        self.may_draw = self.left_us() == 0;
        let news = self.may_draw && self.desk.report().state.has_news();
        Some(TurnStart {
            turn: Turn {
                ms,
                news,
                clock_ms: self.shared.server_time(),
            },
            newcomers,
        })
    }

    // rule: Proxy header
    fn open(&mut self, newcomer: Accepted) -> Option<(SocketLine<TcpStream>, Peer)>
        ensures called { self.new.called ≡ self.old.called - 1 }
        // the client that its header names is its peer, or else the socket's other end
        ensures peer { IfSome result (λ opened. opened.1 ≡ peer_by newcomer.named newcomer.socket_peer) }
        ensures fresh { IfSome result (λ opened. (⟦<SocketLine<TcpStream> as Line>⟧.given opened.0 ≡ []) × (⟦<SocketLine<TcpStream> as Line>⟧.taken opened.0 ≡ [])) }
    {
        self.note_taken(1);
        let Accepted {
            stream,
            socket_peer,
            named,
        } = newcomer;
        match self.sockets.line_of(stream) {
            Ok(line) => Some((line, named.peer(socket_peer))),
            Err(_) => None,
        }
    }

    fn most_lingering(&mut self, lingering: usize) -> usize {
        self.shared.most_lingering(self.desk, lingering)
    }

    fn begins_round(&mut self, has_news: bool, brings: bool) -> bool
        ensures news { has_news ≡ true → result ≡ true }
        ensures begins { result ≡ (has_news || (brings && self.old.may_draw)) }
        ensures drawing { result ≡ true → self.new.is_drawing ≡ true }
    {
        if brings {
            self.report_received(news_for(self.number, self.may_draw));
        }
        let begins = begins_round(RoundCause {
            has_news,
            brings,
            may_draw: self.may_draw,
        });
        if begins {
            self.begin_round();
        }
        begins
    }

    fn note(&mut self, seen: Seen, log: &Log)
        ensures called { self.new.called ≡ 0 }
        ensures more { self.new.has_more ≡ seen.more }
        ensures drawing { self.new.is_drawing ≡ false }
    {
        // Where the intake was empty before, others have taken them.
        self.note_taken(self.called);
        self.shared.note_server_time(seen.clock_ms);
        self.has_more = seen.more;
        self.end_round(seen.more);
        self.note_listeners(seen);
        self.report_received(NewsFor::from(seen.news));
        if seen.has_closed {
            self.shared.note_closed();
        }
        self.flush_log(log);
    }
}
