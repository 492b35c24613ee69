//! The session of a live mount.

ghost use Rattle.std.specs.Prelude.{◌≡◌, IfOk};
ghost use Rattle.radio_parts_mount.specs.Sessions.{opened};
ghost use Rattle.radio_parts_mount.specs.Stream.{end_of};

use crate::OutOfMemory;
use crate::stream::Stream;
use radio_seats_rows::KeptName;
use radio_values::{MountName, Shown, Title};
use std::alloc::Global;
use std::marker::Model;

/// What a source feeds to a mount, from its admission on.
pub struct Session {
    /// The mount that is fed.
    pub mount: KeptName,
    /// The number of the client that feeds it.
    pub number: u64,
    /// Its data.
    pub stream: Stream,
    /// The title of what is on the air, if one was set.
    pub title: Option<Title>,
    /// What the heads of its listeners show.
    pub shown: Shown,
    /// The moment of its last block, or of its admission before there is one, in milliseconds.
    pub last_block: u64,
}

impl Drop for Session {
    fn drop(self) {
        let Session {
            mount,
            number: _,
            stream,
            title,
            shown,
            last_block: _,
        } = self;
        drop(mount);
        drop(stream);
        drop(title);
        drop(shown);
    }
}

impl Model for Session {
    ghost use Rattle.radio_parts_mount.specs.Sessions.{Session};

    ghost Value = { Session };

    ghost view = { λ s. record { mount = s.mount; number = s.number; stream = s.stream; title = s.title; shown = s.shown; last_block = s.last_block } };
}

impl Session {
    /// The session that begins on the mount at this moment, of the source of that number.
    /// `OutOfMemory` if memory was refused.
    pub fn new(
        alloc: Global,
        mount: MountName,
        number: u64,
        shown: Shown,
        moment: u64,
    ) -> Result<Session, OutOfMemory>
        ensures { IfOk result (λ session. session ≡ opened mount number shown moment) }
    {
        Ok(Session {
            mount: KeptName::new(alloc, mount)?,
            number,
            stream: Stream::new(alloc),
            title: None,
            shown,
            last_block: moment,
        })
    }
}

/// A session that begins: nothing has come of its stream yet, and it has no title. Contracts see the session.
#[derive(Drop)]
pub struct NewSession {
    session: Session,
    ghost begins: { session ≡ opened session.mount session.number session.shown session.last_block },
}

impl Model for NewSession {
    ghost use Rattle.radio_parts_mount.specs.Sessions.{Session};

    ghost Value = { Session };

    ghost view = { λ n. n.session };
}

impl NewSession {
    /// Returns the session that begins on the mount at this moment, in milliseconds, of the source of that number.
    /// `OutOfMemory` if memory was refused.
    pub fn new(
        alloc: Global,
        mount: MountName,
        number: u64,
        shown: Shown,
        moment: u64,
    ) -> Result<NewSession, OutOfMemory>
        ensures { IfOk result (λ session. session ≡ opened mount number shown moment) }
    {
        let session = Session::new(alloc, mount, number, shown, moment)?;
        Ok(NewSession { session })
    }

    /// Returns the mount that is fed.
    pub fn mount(&self) -> MountName
        ensures { result ≡ self.now.mount }
    {
        *self.session.mount.get()
    }

    /// Returns the place behind the last byte of its stream.
    pub fn stream_end(&self) -> u64
        ensures { result ≡ end_of self.now.stream }
    {
        self.session.stream.end()
    }

    /// Returns the session.
    pub fn into_session(self) -> Session
        ensures same { result ≡ self }
        ensures begins { result ≡ opened result.mount result.number result.shown result.last_block }
    {
        let NewSession { session, .. } = self;
        session
    }
}
