//! What the clock ends.

ghost use Rattle.std.specs.Prelude.{◌≡◌, fold};
ghost use Rattle.radio_parts_changes.specs.Changes.{ticked, durations_over, session_silenced, silent_in};

use crate::state::ServerState;
use radio_parts_mount::HasSatOut;
use radio_policy::Rule;

impl ServerState {
    /// Sets the time, in milliseconds. It finishes clients that have asked for nothing in their time, then listeners
    /// that have had theirs, and then sources that have sent nothing in theirs. It looks at each of them, and takes no
    /// memory.
    pub fn tick(&mut self, ms: u64)
        ensures { self.new ≡ ticked self.old ms }
    {
        self.registry.time_out(ms);
        self.end_durations();
        self.end_silent();
    }

    /// Listeners who have sat as long as their mounts allow lose their seats.
    fn end_durations(&mut self)
        ensures { self.new ≡ durations_over self.old }
    {
        let settings = self.registry.settings();
        let now = self.registry.time();
        self.listeners
            .finish_if(&HasSatOut { settings, now }, Rule::TimeOver);
    }

    /// Sessions end whose sources have sent nothing in their time, in the order of their mounts.
    fn end_silent(&mut self)
        ensures { self.new ≡ fold session_silenced self.old (silent_in self.old) }
    {
        'sessions: while let Some(session) = self.station().first_silent() {
            let mount = *session.mount.get();
            let number = session.number;
            let _counts = self.end_session(mount);
            self.registry.finish(number, Rule::SourceSilent);
        }
    }
}
