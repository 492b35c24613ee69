//! A listener and its seat, as contracts see them.

ghost use Rattle.std.specs.Prelude.{◌≡◌};

use crate::KeptName;
use radio_addr::Peer;
use radio_blocks::Place;
use radio_creds::Pair;
use radio_policy::Rule;
use radio_values::MountName;

/// A listener's seat at a mount.
#[derive(Drop)]
pub struct Seat {
    /// How far it has heard the stream of its session.
    pub place: Place,
    /// The mount that it hears.
    pub mount: MountName,
    /// The number of the session that it hears.
    pub session: u64,
    /// The mount that it asked for.
    pub home: KeptName,
    /// The address that it came from.
    pub peer: Peer,
    /// The user and the password that it sent, if it did.
    pub pair: Option<Pair>,
    /// After how many bytes of data it is sent a metadata block, if it asked for metadata.
    pub interval: Option<u32>,
    /// The moment of its admission, in milliseconds.
    pub since: u64,
}

/// Whether a listener sits.
#[derive(Drop)]
pub enum Seating {
    /// It has this seat.
    Sits(Seat),
    /// It has lost its seat at the mount by the rule, which the reply to its next event names.
    Finished {
        /// The rule.
        rule: Rule,
        /// The mount where it sat last.
        mount: MountName,
    },
}

/// A client who was admitted as a listener, and has not left.
#[derive(Drop)]
pub struct Listener {
    /// The client's number.
    pub id: u64,
    /// Its seat, or why it has none.
    pub seating: Seating,
}

/// What stays as it is of a seat, wherever the listener sits.
pub struct Guest {
    /// The mount that it asked for.
    pub home: KeptName,
    /// The address that it came from.
    pub peer: Peer,
    /// The user and the password that it sent, if it did.
    pub pair: Option<Pair>,
    /// After how many bytes of data it is sent a metadata block, if it asked for metadata.
    pub interval: Option<u32>,
    /// The moment of its admission, in milliseconds.
    pub since: u64,
}

impl Drop for Guest {
    fn drop(self) {
        let Guest {
            home,
            peer: _,
            pair,
            interval: _,
            since: _,
        } = self;
        drop(home);
        drop(pair);
    }
}

impl Guest {
    ghost use Rattle.radio_seats_rows.specs.Seats.{has_user};

    /// Whether it sent this user. Who sent no pair has no user.
    pub fn has_user(&self, user: &[u8]) -> bool
        ensures { result ≡ has_user user.now self.now.pair }
    {
        match &self.pair {
            Some(pair) => pair.user() == user,
            None => false,
        }
    }
}
