//! A connection, as its worker has it.

ghost use Rattle.std.specs.Prelude.{◌≡◌, IfOk};
ghost use Rattle.radio_policy.specs.declared.rule.Rule.{Rule};
ghost use Rattle.radio_events.specs.declared.reply.Reply.TheVariants.{Deny};
ghost use Rattle.radio_session.specs.Conversation.{asking, saying_now};
ghost use Rattle.radio_session.specs.Saying.{said};

use crate::outgoing::Outgoing;
use crate::refusals::Refusals;
use crate::{Line, OutOfMemory, WebAnswers};
use radio_addr::Peer;
use radio_events::Reply;
use radio_notes::{Account, ReplyNote};
use radio_session::Session;
use std::alloc::Global;
use std::marker::Model;

/// What has become of a connection.
#[derive(Clone, Copy, Debug, PartialEq, Eq)]
pub enum Fate {
    /// It goes on.
    Open,
    /// Its conversation has ended: what is pending still goes out, and what comes is ignored.
    Ended,
    /// It is closed, and nothing is pending.
    Closed,
    /// It is cut off, and what is pending is given up: its line has failed, or took nothing for too
    /// long, or memory was refused.
    Cut,
}

impl Fate {
    ghost use Rattle.radio_connections.specs.Connections.{is_open};

    /// Whether the connection goes on.
    pub fn is_open(self) -> bool
        ensures { result ≡ is_open self }
    {
        match self {
            Fate::Open => true,
            Fate::Ended | Fate::Closed | Fate::Cut => false,
        }
    }
}

/// What its worker notes of a connection. Moments are in milliseconds.
#[derive(Clone, Copy, Debug, PartialEq, Eq)]
pub struct ConnStatus {
    /// What has become of it.
    pub fate: Fate,
    /// Whether its client has left, or was never let in.
    pub has_left: bool,
    /// Whether its client was given a seat.
    pub sits: bool,
    /// Whether there may be more for it than its last draw has brought.
    pub is_behind: bool,
    /// Whether its line has taken a byte.
    pub has_taken: bool,
    /// Whether its peer knows that nothing more is written.
    pub is_finished: bool,
    /// When something was last asked of the server for it.
    pub asked_ms: u64,
    /// When pending bytes last moved, or began to be pending.
    pub moved_ms: u64,
}

impl ConnStatus {
    ghost use Rattle.radio_connections.specs.Connections.{status_at};

    /// At its arrival.
    pub(crate) fn new(fate: Fate, has_left: bool, ms: u64) -> ConnStatus
        ensures { result ≡ status_at fate has_left ms }
    {
        ConnStatus {
            fate,
            has_left,
            sits: false,
            is_behind: false,
            has_taken: false,
            is_finished: false,
            asked_ms: ms,
            moved_ms: ms,
        }
    }
}

/// A connection: a line, the conversation on it, and what is kept of an answer and a draw that the
/// line has not taken.
///
/// In contracts it is a `Connection`.
#[derive(Drop)]
pub struct Conn<L: Line> {
    pub(crate) id: u64,
    pub(crate) line: L,
    pub(crate) session: Session,
    pub(crate) outgoing: Outgoing,
    pub(crate) status: ConnStatus,
    pub(crate) refusals: Refusals,
    /// What is noted for the log. It changes nothing of what is answered.
    pub(crate) account: Account,
}

impl<L: Line> Model for Conn<L> {
    ghost use Rattle.radio_connections.specs.Connections.{Connection};

    ghost Value = { Connection };

    ghost view = { λ c. record {
      id = c.id;
      given = L.given c.line;
      taken = L.taken c.line;
      calls = L.calls c.line;
      outgoing = c.outgoing;
      session = c.session;
      status = c.status;
      refused = c.refusals;
    } };
}

impl<L: Line> Conn<L> {
    ghost use Rattle.radio_connections.specs.Connections.{newly_come, newly_ended, stays, lingers, ClientIsTurnedAway};
    ghost use Rattle.std.specs.Prelude.{OnErr};
    ghost use Rattle.radio_connections.specs.Admission.{IsTakenIn};
    ghost use Rattle.radio_connections.specs.Course.{LetsNobodyIn};

    /// Returns the connection of a client that was admitted under this number.
    fn new(alloc: Global, web: WebAnswers, id: u64, peer: Peer, line: L, ms: u64) -> Conn<L>
        ensures { result ≡ newly_come web id peer (L.given line) (L.taken line) (L.calls line) ms }
    {
        Conn {
            id,
            line,
            session: Session::new(alloc, web, id, peer),
            outgoing: Outgoing::new(alloc),
            status: ConnStatus::new(Fate::Open, false, ms),
            refusals: Refusals::new(),
            account: Account::new(alloc, ms),
        }
    }

    /// Returns the connection of a client that was not let in, with its answer pending.
    /// `OutOfMemory` if memory was refused; the line is closed then.
    fn turned_away(
        alloc: Global,
        web: WebAnswers,
        peer: Peer,
        line: L,
        denial: Reply,
        ms: u64,
    ) -> Result<Conn<L>, OutOfMemory>
        ensures { IfOk result (λ c. ClientIsTurnedAway web denial (L.given line) (L.taken line) ms c) }
    {
        let account = denied_account(alloc, &denial, ms);
        let mut session = Session::new(alloc, web, 0, peer);
        match first_outgoing(alloc, &mut session, &account, denial) {
            Ok(outgoing) => Ok(Conn::ended(line, session, outgoing, account, ms)),
            Err(refused) => {
                drop(line);
                drop(session);
                drop(account);
                Err(refused)
            }
        }
    }

    /// Returns a connection without a client, whose conversation has ended.
    fn ended(line: L, session: Session, outgoing: Outgoing, account: Account, ms: u64) -> Conn<L>
        ensures { result ≡ newly_ended (L.given line) (L.taken line) (L.calls line) outgoing session ms }
    {
        Conn {
            id: 0,
            line,
            session,
            outgoing,
            status: ConnStatus::new(Fate::Ended, true, ms),
            refusals: Refusals::new(),
            account,
        }
    }

    /// Returns the connection of a newcomer to which the server replies so, with answers as the settings say.
    /// `OutOfMemory` if memory was refused; the line is closed then.
    pub fn admitted(
        alloc: Global,
        web: WebAnswers,
        peer: Peer,
        line: L,
        reply: Reply,
        ms: u64,
    ) -> Result<Conn<L>, OutOfMemory>
        ensures taken_in { IfOk result (λ c. IsTakenIn (record { web = web; peer = peer; reply = reply }) (L.given line) (L.taken line) c) }
        ensures answers { IfOk result (λ c. c.session.says.web ≡ web) }
        ensures denial { IfOk result (λ c. (rule : Rule) → reply ≡ Deny rule → c.outgoing ≡ (said (asking web) (Deny rule)).bytes) }
        // only a connection without a client needs memory here
        ensures err { OnErr result (LetsNobodyIn reply) }
    {
        let Reply::Arrived(id) = reply else {
            return Conn::turned_away(alloc, web, peer, line, reply, ms);
        };
        Ok(Conn::new(alloc, web, id, peer, line, ms))
    }

    /// Whether it is still to be served.
    pub fn stays(&self) -> bool
        ensures { result ≡ stays self.now }
    {
        let fate = self.status.fate;
        match fate {
            Fate::Open | Fate::Ended => true,
            Fate::Closed | Fate::Cut => !self.status.has_left,
        }
    }

    /// Whether nothing more is written on it, its client has left or was none, and it is kept only
    /// until its peer has closed.
    pub(crate) fn lingers(&self) -> bool
        ensures { result ≡ lingers self.now }
    {
        self.status.is_finished && self.status.has_left
    }

    /// Returns the number of the connection's client, or 0 if it has no client.
    pub fn id(&self) -> u64
        ensures { result ≡ self.now.id }
    {
        self.id
    }

    /// What is known of it.
    pub fn status(&self) -> ConnStatus
        ensures { result ≡ self.now.status }
    {
        self.status
    }

    /// Its line.
    pub fn line(&self) -> &L
        ensures given { L.given result.now ≡ self.now.given }
        ensures taken { L.taken result.now ≡ self.now.taken }
        ensures calls { L.calls result.now ≡ self.now.calls }
    {
        &self.line
    }
}

/// What is noted of one who was not let in, and replied to so.
fn denied_account(alloc: Global, denial: &Reply, ms: u64) -> Account {
    let account = Account::new(alloc, ms);
    account.note_reply(ReplyNote::of(denial));
    account
}

/// Returns what is pending on a connection that is sent this reply first; notes whether it goes on. `OutOfMemory` if
/// memory was refused.
fn first_outgoing(
    alloc: Global,
    session: &mut Session,
    account: &Account,
    reply: Reply,
) -> Result<Outgoing, OutOfMemory>
    ensures bytes { IfOk result (λ outgoing. outgoing ≡ (said session.old.says reply).bytes) }
    ensures says { IfOk result (λ _. session.new ≡ saying_now session.old (said session.old.says reply).says) }
{
    let mut outgoing = Outgoing::new(alloc);
    let appended = outgoing.append_reply(session, &reply);
    drop(reply);
    match appended {
        Ok(state) => {
            account.note_state(state);
            Ok(outgoing)
        }
        Err(refused) => Err(refused),
    }
}
