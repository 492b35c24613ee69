//! Clients who have had their time.

ghost use Rattle.std.specs.Prelude.{◌≡◌};
ghost use Rattle.radio_parts_station.specs.Timeouts.{asks_too_late};

use crate::clients::{Client, ClientState};
use radio_parts_mount::lies_back;
use radio_policy::Rule;
use radio_tables::RowChange;

/// A client who has asked for nothing in so many seconds is finished.
#[derive(Drop)]
pub(crate) struct TimesOut {
    pub(crate) seconds: u32,
    pub(crate) now: u64,
}

impl RowChange<Client> for TimesOut {
    ghost use Rattle.std.specs.Prelude.{refl};
    ghost use Rattle.radio_parts_station.specs.Timeouts.{timed_out};

    ghost gives = { λ change client. timed_out change.seconds change.now client };

    ghost keeps_key = { λ change client. refl };

    fn apply(&self, row: &mut Client) {
        if asks_too_late(self.seconds, self.now, row) {
            row.state = ClientState::Ended(Rule::HeaderTimeout);
        }
    }
}

/// Whether the client has asked for nothing in so many seconds.
fn asks_too_late(seconds: u32, now: u64, client: &Client) -> bool
    ensures { result ≡ asks_too_late seconds now client.now }
{
    match client.state {
        ClientState::Undecided => lies_back(seconds, client.arrived, now),
        ClientState::Feeds(_)
        | ClientState::Listens
        | ClientState::Answered
        | ClientState::Ended(_) => false,
    }
}
