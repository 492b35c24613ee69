//! What a worker's turn source reports to the others, and to the log.

ghost use Rattle.std.specs.Prelude.{◌≡◌};
ghost use Rattle.radio_sockets.specs.Steps.{log_set_at};

use super::SocketTurns;
use crate::steps::{is_log_due, weight_of};
use radio_board::{NewsFor, TurnDone};
use radio_notes::Log;
use radio_workers::Seen;
use std::sync::Wait;
use std::time::Clock;

impl<'a, R: Clock + Wait> SocketTurns<'a, R> {
    /// Gives the log the moment, if the clock has one and some time has passed.
    pub(super) fn set_log_moment(&mut self, log: &Log, clock_ms: u64)
        ensures { self.new.log_set_ms ≡ log_set_at self.old.log_set_ms clock_ms }
    {
        if !is_log_due(self.log_set_ms, clock_ms) {
            return;
        }
        self.log_set_ms = clock_ms;
        if let Ok(since) = self.rt.since_1970() {
            self.seconds = since.as_secs();
            log.set_moment(self.seconds);
        }
    }

    /// Notes what its listeners have drawn, and whether there are any: the first of them have drawn all that has come.
    pub(super) fn note_listeners(&mut self, seen: Seen)
        ensures called { self.new.called ≡ self.old.called }
        ensures more { self.new.has_more ≡ self.old.has_more }
        ensures drawing { self.new.is_drawing ≡ self.old.is_drawing }
    {
        if !self.desk.report().has_listeners {
            self.received = self.shared.counts().received;
        }
        self.desk.note_turn(TurnDone {
            received: self.received,
            has_more: seen.more,
            connections: weight_of(seen.connections, seen.sources),
            has_listeners: seen.has_listeners,
        });
    }

    /// Reports how many bytes its sources have brought, and that these listeners may have news.
    pub(super) fn report_received(&self, whose: NewsFor) {
        let count = self.sockets.activity().take_received();
        self.shared.note_received(count, whose, self.clock_us);
    }

    /// Adds the lines of the log to those of the station.
    pub(super) fn flush_log(&self, log: &Log) {
        let lines = log.take();
        if !lines.is_empty() {
            self.shared
                .add_lines(self.rt, lines.as_slice(), self.seconds);
        }
    }
}
