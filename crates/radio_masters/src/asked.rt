//! A server, as a relay asks it.

ghost use Rattle.std.specs.Prelude.{◌≡◌, IfOk};
ghost use Rattle.radio_masters.specs.Askers.{HasEndedBy, untried_asker};

use crate::OutOfMemory;
use crate::failing::Failing;
use crate::relay_log::{PullEnd, RelayLog};
use radio_events::{Event, Reply};
use radio_session::Server;
use radio_settings_values::RelaySetting;
use radio_values::MountName;
use std::alloc::Global;
use std::marker::Model;

/// A server, as a relay asks it; the log gets what is done. In contracts it is that server, and what is noted of the
/// relay.
#[derive(Drop)]
pub struct RelayServer<S: Server + Drop> {
    server: S,
    log: RelayLog,
}

impl<S: Server + Drop> Model for RelayServer<S> {
    ghost use Rattle.radio_masters.specs.Askers.{AskedOf};

    ghost Value = { AskedOf S };

    ghost view = { λ a. record { server = a.server; course = a.log.course } };
}

impl<S: Server + Drop> RelayServer<S> {
    /// Returns this server, as this relay asks it. `OutOfMemory` if memory is refused; the server is gone then.
    pub fn new(
        alloc: Global,
        server: S,
        relay: &RelaySetting,
    ) -> Result<RelayServer<S>, OutOfMemory>
        ensures { IfOk result (λ asked. asked ≡ untried_asker server) }
    {
        let log = RelayLog::new(alloc, relay)?;
        Ok(RelayServer { server, log })
    }

    /// Returns the server.
    pub fn server(&self) -> &S
        ensures { result.now ≡ self.now.server }
    {
        &self.server
    }

    /// Returns what the log says of the relay.
    pub fn log(&self) -> &RelayLog {
        &self.log
    }

    /// Logs that the pull of the relay has ended so, or that the relay did not come up by it.
    pub fn log_end(&mut self, end: PullEnd)
        ensures { HasEndedBy end self.old self.new }
    {
        self.log.end(end);
    }

    /// Returns whether the relay feeds its mount.
    pub fn is_up(&self) -> bool
        ensures { result ≡ self.now.course.is_up }
    {
        self.log.is_up()
    }

    /// Returns how the relay has failed, if it has since it was up last.
    pub fn failing(&self) -> Option<Failing>
        ensures { result ≡ self.now.course.failing }
    {
        self.log.failing()
    }

    /// Notes that the relay has failed so before, or has not.
    pub fn set_failing(&mut self, failing: Option<Failing>)
        ensures { self.new ≡ record self.old { course = record self.old.course { failing = failing } } }
    {
        self.log.set_failing(failing);
    }

    /// Returns the server, when the relay asks it no more.
    pub fn into_server(self) -> S
        ensures { result ≡ self.server }
    {
        self.server
    }
}

impl<S: Server + Drop> Server for RelayServer<S> {
    ghost use Rattle.std.specs.Prelude.{◌≡◌, IfOk, OnErr};
    ghost use Rattle.radio_masters.specs.Askers.{AskedSteps};

    ghost steps = { AskedSteps S.steps };

    ghost refuses = { λ asked event. S.refuses asked.server event };

    /// Applies an event, and logs what of it is done. `OutOfMemory` if memory is refused; nothing has changed then.
    fn apply(&mut self, event: Event) -> Result<Reply, OutOfMemory>
        ensures ok { IfOk result (λ reply. AskedSteps S.steps self.old event reply self.new) }
        ensures err { OnErr result (self.new ≡ self.old) }
        ensures refused { OnErr result (S.refuses self.old.server event) }
    {
        let saying = self.log.saying(&event);
        match self.server.apply(event) {
            Ok(reply) => {
                self.log.note(saying, &reply);
                Ok(reply)
            }
            Err(refused) => Err(refused),
        }
    }

    fn last_mount(&self, id: u64) -> Option<MountName> {
        self.server.last_mount(id)
    }
}
