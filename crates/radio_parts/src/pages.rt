//! What the server shows of the web site's paths.

ghost use Rattle.std.specs.Prelude.{◌≡◌, IfOk};
ghost use Rattle.radio_parts.specs.Outcomes.{if_undecided};
ghost use Rattle.radio_parts.specs.Pages.{asks_by_path, shows_page};
ghost use Rattle.radio_parts_station.specs.World.{standing_of};

use crate::OutOfMemory;
use crate::control::Control;
use crate::outcome::Outcome;
use radio_events::{ListenRequest, Reply};
use radio_parts_changes::Change;
use radio_parts_facts::page;
use radio_parts_station::Standing;
use radio_settings_values::WebPath;

impl Control {
    /// Answers a client that asks for a path. It shows what is there if the path is one of the web site's, and
    /// else lets the client ask to hear a mount. `OutOfMemory` if memory was refused.
    pub(crate) fn get(&self, asked: ListenRequest) -> Result<Outcome, OutOfMemory>
        ensures { IfOk result (λ o. o ≡ asks_by_path self.now asked) }
    {
        match self.station().settings().web.path(asked.mount.as_slice()) {
            Some(path) => {
                let outcome = self.visit(&asked, path);
                drop(asked);
                outcome
            }
            None => self.listen(asked),
        }
    }

    /// A client asks for a path of the web site.
    fn visit(&self, asked: &ListenRequest, path: WebPath) -> Result<Outcome, OutOfMemory>
        ensures { IfOk result (λ o. o ≡ if_undecided (standing_of self.now asked.now.id) (λ _. shows_page self.now asked.now path)) }
    {
        match self.standing(asked.id) {
            Standing::Undecided(_) => Ok(Outcome {
                reply: Reply::Text(page(
                    self.alloc,
                    &self.station(),
                    self.seats(),
                    path,
                    &asked.visit,
                )?),
                change: Change::Answer { id: asked.id },
            }),
            Standing::Finished(rule) => Ok(Outcome::finished(rule)),
            Standing::Unknown | Standing::Feeds(_) | Standing::Sits | Standing::Answered => {
                Ok(Outcome::stray())
            }
        }
    }
}
