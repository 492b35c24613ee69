ghost use Rattle.std.specs.Prelude.{◌≡◌};
ghost use Rattle.radio_parts.specs.Title.{sets_title};

use crate::control::Control;
use crate::outcome::Outcome;
use radio_events::Reply;
use radio_parts_changes::Change;
use radio_parts_station::Standing;
use radio_values::Title;

impl Control {
    /// A source sets the title of what it plays.
    pub(crate) fn title(&self, id: u64, text: Title) -> Outcome
        ensures { result ≡ sets_title self.now id text }
    {
        match self.standing(id) {
            Standing::Feeds(mount) => Outcome {
                reply: Reply::Noted,
                change: Change::SetTitle { mount, title: text },
            },
            Standing::Finished(rule) => Outcome::finished(rule),
            Standing::Unknown | Standing::Undecided(_) | Standing::Sits | Standing::Answered => {
                Outcome::stray()
            }
        }
    }
}
