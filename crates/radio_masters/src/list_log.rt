//! What the log says of a slave's list.

ghost use Rattle.std.specs.Prelude.{◌≡◌, false};
ghost use Rattle.radio_masters.specs.RelayFacts.{is_newly_long, long_list};

use crate::MOST_LISTED;
use radio_log::{Fact, KeyPlace, QuotedText, Warning};
use radio_notes::Log;
use std::alloc::Global;
use std::marker::Model;

/// What the log says of a slave's list: its lines wait here. In contracts it is whether the last list was too long.
#[derive(Drop)]
pub struct ListLog {
    log: Log,
    is_long: bool,
}

impl Model for ListLog {
    ghost use Rattle.std.specs.Prelude.{Bool};

    ghost Value = { Bool };

    ghost view = { λ l. l.is_long };
}

impl ListLog {
    /// Nothing is logged yet. It takes no memory.
    pub fn new(alloc: Global) -> ListLog
        ensures { result ≡ false }
    {
        ListLog {
            log: Log::new(alloc),
            is_long: false,
        }
    }

    /// Returns the lines that wait, which are given the moment.
    pub fn lines(&self) -> &Log {
        &self.log
    }

    /// Notes whether a list had more names than are relayed. The first one that has, after one that had not, is
    /// logged.
    pub fn note_list(&mut self, is_long: bool)
        ensures { self.new ≡ is_long }
    {
        if is_newly_long(self.is_long, is_long) {
            self.log.note(long_list());
        }
        self.is_long = is_long;
    }
}

/// Returns whether a list is logged, by whether the last one was too long and this one is.
fn is_newly_long(was_long: bool, is_long: bool) -> bool
    ensures { result ≡ is_newly_long was_long is_long }
{
    is_long && !was_long
}

/// A slave's list has more names than are relayed.
fn long_list() -> Fact<'static>
    ensures { result ≡ long_list }
{
    Fact::Warning(Warning {
        why: QuotedText::of(b"long-list"),
        key: QuotedText::of(b"master-server"),
        mount: QuotedText::of(b""),
        limit: MOST_LISTED as u64,
        place: KeyPlace::none(),
    })
}
