//! What a socket is ready for, as plain values.

ghost use Rattle.std.specs.Prelude.{◌≡◌};
ghost use Rattle.radio_lines.specs.Ready.{initial_ready, after_report, brings_work, after_read, has_more, may_read, may_write, notice_of, unwanted, without_bytes, without_room};

use mio::event::Event;

/// For how long nothing is read from a line of which nothing is wanted, in milliseconds.
const PASS_OVER_MS: u64 = 100;

/// After how long a line that took nothing is asked again, whatever the system has reported, in milliseconds. The
/// system reports room only once a third of the socket's buffer is free.
const ASK_AGAIN_MS: u64 = 1000;

/// What a socket is ready for, by what the system has reported and the socket has answered since. Moments are in
/// milliseconds.
#[derive(Clone, Copy, Debug, PartialEq, Eq)]
pub(crate) struct Ready {
    /// Whether it may have something to read.
    pub(crate) is_readable: bool,
    /// Whether it may have room.
    pub(crate) is_writable: bool,
    /// Whether it has failed, or a side of it was closed.
    pub(crate) is_over: bool,
    /// Whether nothing is wanted of what comes.
    pub(crate) is_passed_over: bool,
    /// Before that moment nothing is read.
    pub(crate) read_from_ms: u64,
    /// From that moment on it is written to, whether it has room or not.
    pub(crate) write_from_ms: u64,
}

/// What the system reports of a socket.
#[derive(Clone, Copy, Debug, PartialEq, Eq)]
pub(crate) struct SocketReport {
    /// That it may have something to read.
    pub(crate) reads: bool,
    /// That it may have room.
    pub(crate) writes: bool,
    /// That it has failed, or a side of it was closed.
    pub(crate) is_over: bool,
}

impl SocketReport {
    /// Returns what an event of the system reports.
    pub(crate) fn of(event: &Event) -> SocketReport
        ensures { result ≡ notice_of event.now }
    {
        SocketReport {
            reads: event.is_readable(),
            writes: event.is_writable(),
            is_over: event.is_error() || event.is_read_closed() || event.is_write_closed(),
        }
    }
}

impl Ready {
    /// Returns the readiness of a socket of which nothing was reported yet: it is to be asked, and what comes is
    /// wanted.
    pub(crate) fn fresh() -> Ready
        ensures { result ≡ initial_ready }
    {
        Ready {
            is_readable: true,
            is_writable: true,
            is_over: false,
            is_passed_over: false,
            read_from_ms: 0,
            write_from_ms: 0,
        }
    }

    /// Returns the readiness once the system has reported this. A socket that is over says so when it is
    /// asked.
    pub(crate) fn after_report(self, notice: SocketReport) -> Ready
        ensures { result ≡ after_report notice self }
    {
        Ready {
            is_readable: self.is_readable || notice.reads || notice.is_over,
            is_writable: self.is_writable || notice.writes || notice.is_over,
            is_over: self.is_over || notice.is_over,
            read_from_ms: if notice.is_over { 0 } else { self.read_from_ms },
            ..self
        }
    }

    /// Returns whether there is something to do at once if the system reports this. For bytes that are not wanted there
    /// is not.
    // rule: Unwanted bytes
    pub(crate) fn brings_work(self, notice: SocketReport) -> bool
        ensures { result ≡ brings_work notice self }
    {
        notice.is_over
            || (notice.writes && !self.is_writable)
            || (notice.reads && !self.is_readable && !self.is_passed_over)
    }

    /// Returns the readiness once a read at this moment gave bytes, and filled the buffer or not. If what comes is wanted, there
    /// may be more if it filled the buffer, or the socket is over.
    // rule: Unwanted bytes
    pub(crate) fn after_read(self, is_filled: bool, ms: u64) -> Ready
        ensures { result ≡ after_read is_filled ms self }
    {
        if self.is_passed_over {
            return Ready {
                read_from_ms: ms.saturating_add(PASS_OVER_MS),
                ..self
            };
        }
        Ready {
            is_readable: is_filled || self.is_over,
            ..self
        }
    }

    /// Returns whether there may be more to read at once. For bytes that are not wanted there is not.
    pub(crate) fn has_more(self) -> bool
        ensures { result ≡ has_more self }
    {
        self.is_readable && !self.is_passed_over
    }

    /// Returns the readiness once a write at this moment would have waited, or took a part.
    // rule: Full sockets
    pub(crate) fn without_room(self, ms: u64) -> Ready
        ensures { result ≡ without_room ms self }
    {
        Ready {
            is_writable: false,
            write_from_ms: ms.saturating_add(ASK_AGAIN_MS),
            ..self
        }
    }

    /// Returns the readiness once a read would have waited.
    pub(crate) fn without_bytes(self) -> Ready
        ensures { result ≡ without_bytes self }
    {
        Ready {
            is_readable: false,
            ..self
        }
    }

    /// Returns the readiness once nothing is wanted any more of what comes.
    pub(crate) fn unwanted(self) -> Ready
        ensures { result ≡ unwanted self }
    {
        Ready {
            is_passed_over: true,
            ..self
        }
    }

    /// Returns whether the socket is worth a read at this moment: it may have something to read, and is not left alone until
    /// later.
    pub(crate) fn may_read(self, ms: u64) -> bool
        ensures { result ≡ may_read ms self }
    {
        self.is_readable && self.read_from_ms <= ms
    }

    /// Returns whether the socket is worth a write at this moment: it may have room, or has had none for long enough.
    // rule: Full sockets
    pub(crate) fn may_write(self, ms: u64) -> bool
        ensures { result ≡ may_write ms self }
    {
        self.is_writable || self.write_from_ms <= ms
    }
}
