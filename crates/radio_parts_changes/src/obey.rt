//! What commands do.

ghost use Rattle.std.specs.Prelude.{◌≡◌, IfOk, OnOk, OnErr};
ghost use Rattle.radio_parts_changes.specs.Changes.{changed, session_killed};
ghost use Rattle.radio_parts_changes.specs.Counts.{counted};
ghost use Rattle.radio_parts_mount.specs.Sessions.{session_of};
ghost use Rattle.radio_parts_changes.specs.declared.change.Change.{Change};
ghost use Rattle.radio_events.specs.declared.command.Command.{Command as CommandOf};

use crate::OutOfMemory;
use crate::commit::NOBODY;
use crate::state::ServerState;
use bytes::Bytes;
use radio_events::Command;
use radio_fallback::{Carried, Move};
use radio_policy::Rule;
use radio_values::MountName;
use std::alloc::Global;

impl ServerState {
    /// Does the command, and marks the client that gave it as answered; returns how many listeners it has moved or
    /// finished. `OutOfMemory` if memory was refused; nothing has changed then.
    pub(crate) fn obey(
        &mut self,
        alloc: Global,
        id: u64,
        command: Command,
    ) -> Result<Carried, OutOfMemory>
        ensures ok { OnOk result (self.new ≡ changed self.old (Change.Obey id command)) }
        ensures counts { IfOk result (λ counts. counts ≡ counted self.old (Change.Obey id command)) }
        ensures err { OnErr result (self.new ≡ self.old) }
    {
        match command {
            Command::MoveClients { mount, destination } => {
                self.answer(id);
                Ok(self.carry_along(&Move::To { mount, destination }))
            }
            Command::KillClient { listener, .. } => {
                self.answer(id);
                self.listeners.end(listener, Rule::Killed);
                Ok(NOBODY)
            }
            Command::KillSource { mount } => {
                self.answer(id);
                self.kill_source(mount);
                Ok(NOBODY)
            }
            Command::SetTitle { mount, title } => {
                self.answer(id);
                self.set_title(&mount, title);
                Ok(NOBODY)
            }
            Command::SetFallback { mount, fallback } => {
                self.registry.set_fallback(mount, fallback)?;
                self.answer(id);
                Ok(NOBODY)
            }
            Command::AddUser {
                mount,
                user,
                password,
            } => self.obey_user(alloc, id, mount, user, password),
            Command::DeleteUser { mount, user } => {
                self.answer(id);
                let counts = self.delete_user(&mount, user.as_slice());
                drop(user);
                Ok(counts)
            }
        }
    }

    /// A user of the mount is set, and the client who gave the command has had its answer; how many are
    /// finished. `OutOfMemory` if memory was refused; nothing has changed then.
    fn obey_user(
        &mut self,
        alloc: Global,
        id: u64,
        mount: MountName,
        user: Bytes,
        password: Bytes,
    ) -> Result<Carried, OutOfMemory>
        ensures ok { OnOk result (self.new ≡ changed self.old (Change.Obey id (CommandOf.AddUser mount user password))) }
        ensures counts { IfOk result (λ counts. counts ≡ counted self.old (Change.Obey id (CommandOf.AddUser mount user password))) }
        ensures err { OnErr result (self.new ≡ self.old) }
    {
        let counts = self.add_user(alloc, &mount, user.as_slice(), password.as_slice())?;
        self.answer(id);
        Ok(counts)
    }

    /// The session of the mount ends, if there is one, and its source is finished. It takes no
    /// memory.
    fn kill_source(&mut self, mount: MountName)
        ensures { self.new ≡ session_killed self.old (session_of self.old.station.live mount) }
    {
        let Some(session) = self.listeners.parts().session(&mount) else {
            return;
        };
        let number = session.number;
        let _counts = self.end_session(mount);
        self.registry.finish(number, Rule::SourceKilled);
    }
}
