//! What can be changed in the state.

use radio_addr::Peer;
use radio_blocks::{Block, Place};
use radio_events::Command;
use radio_seats_rows::Seat;
use radio_values::{MountName, Shown, Title};

/// What an event changes.
#[derive(Drop)]
pub enum Change {
    /// Nothing.
    Nothing,
    /// The client has had its answer.
    Answer {
        id: u64,
    },
    /// A client has come, and has this number.
    Admit {
        id: u64,
        peer: Peer,
    },
    /// The client feeds the mount from now on: a session begins.
    Begin {
        id: u64,
        mount: MountName,
        shown: Shown,
    },
    /// A relay has come up, has this number, and feeds the mount from now on: a session begins.
    Raise {
        id: u64,
        mount: MountName,
        shown: Shown,
    },
    /// The mount's session has delivered a block; listeners too far behind lose their seats.
    Receive {
        mount: MountName,
        block: Block,
    },
    /// The mount's session has this title from now on.
    SetTitle {
        mount: MountName,
        title: Title,
    },
    /// The client has this seat from now on.
    TakeSeat {
        id: u64,
        seat: Seat,
    },
    /// The listener has heard its stream up to this place.
    Advance {
        id: u64,
        place: Place,
    },
    /// The mount's session ends, and its source has had its answer.
    End {
        id: u64,
        mount: MountName,
    },
    /// The mount's session ends, and nothing is left of its source or relay.
    EndAndLeave {
        id: u64,
        mount: MountName,
    },
    /// Nothing is left of the client or relay.
    Forget {
        id: u64,
    },
    /// It is this moment, and what has had its time ends.
    Tick {
        ms: u64,
    },
    /// The command is done, and the client who gave it has had its answer.
    Obey {
        id: u64,
        command: Command,
    },
}
