//! Which relays are to run, and which of them may begin now.

ghost use Rattle.std.specs.Prelude.{◌≡◌, ◌-◌, false, not, ◌&&◌, List, [], ◌++◌, filter, length, map, reverse, take, if◌then◌else◌, IsTrue, OnOk, OnErr};
ghost use Rattle.std.specs.Arc.{arc_value};
ghost use Rattle.std.specs.BTreeMap.{is_at};
ghost use Rattle.std.specs.Map.{set_value};
ghost use Rattle.radio_relay.specs.Orders.{orders};
ghost use Rattle.radio_relay.specs.StreamList.{name_order};
ghost use Rattle.radio_settings_values.specs.declared.settings.RelaySetting.{RelaySetting};
ghost use Rattle.radio_tries.specs.Tries.{thread_ended, is_wanted_relay, kept_after, kept_at, no_trials, not_started, queue, tried_at};
ghost use Rattle.radio_tries.specs.Wishes.{in_order, started_by};
ghost use Rattle.radio_connections.specs.Moments.{later};
ghost use Rattle.radio_tries.specs.Pauses.{rest};
ghost use Rattle.radio_pullers.specs.Running.{IsChosen, are_same, pulled_mounts};

use crate::OutOfMemory;
use crate::roster::Roster;
use crate::running::RunningRelay;
use crate::station::RelayedStation;
use radio_events::SharedServer;
use radio_lines::{Network, moment};
use radio_masters::WaitingRelay;
use radio_relay::plan;
use radio_settings_values::{RelaySetting, Settings};
use radio_tries::{REST_MS, RelayOutcome, Tries, after, free_places, wishes_of};
use radio_values::MountName;
use std::alloc::Global;
use std::collections::BTreeSet;
use std::sync::{Arc, Wait};
use std::time::Clock;

/// Which relays run, and which wait for a place.
#[derive(Drop)]
pub(crate) struct Keeper {
    alloc: Global,
    /// The streams that the slave's master listed last.
    names: BTreeSet<MountName>,
    /// The mounts of relays on demand where somebody waits.
    wanted: Vec<MountName>,
    /// Whether `wished` is that of these.
    is_planned: bool,
    /// The relays that are wished: those that did not run when this was found out, of the settings and then of the list, and
    /// those that ran.
    wished: Vec<Arc<RelaySetting>>,
    /// Which of these begin now, the last one first.
    chosen: Vec<WaitingRelay>,
    roster: Roster,
    tries: Tries,
}

impl Keeper {
    /// Returns the keeper of a station of which no relay runs. It takes no memory.
    pub(crate) fn new(alloc: Global) -> Keeper
        ensures planned { result.is_planned ≡ false }
        ensures wished { result.wished.items ≡ [] }
        ensures tries { result.tries ≡ no_trials }
        ensures running { result.roster.running.items ≡ [] }
    {
        Keeper {
            alloc,
            names: BTreeSet::new(alloc),
            wanted: Vec::new(alloc),
            is_planned: false,
            wished: Vec::new(alloc),
            chosen: Vec::new(alloc),
            roster: Roster::new(alloc),
            tries: Tries::new(alloc),
        }
    }

    /// Finds out which relays may begin now, and stops those that are not wished any more. Where memory is refused, fewer
    /// begin.
    pub(crate) fn look<R: Clock + Wait, N: Network, S: SharedServer>(
        &mut self,
        rt: &R,
        station: &RelayedStation<'_, N, S>,
    ) {
        self.note_ends(rt);
        if let Some(names) = station.list.lock(rt).take() {
            self.note_list(station.settings, names);
        }
        if let Ok(wanted) = station.server.wanted(rt) {
            self.note_wanted(wanted);
        }
        self.plan_anew(station.settings);
        let _ = self.choose(station.settings, moment(rt));
    }

    /// Notes how threads of relays have ended. One that was to stop may be wished again by now.
    fn note_ends<R: Wait>(&mut self, rt: &R)
        ensures names { self.new.names ≡ self.old.names }
        ensures wanted { self.new.wanted ≡ self.old.wanted }
        ensures wished { self.new.wished ≡ self.old.wished }
        ensures chosen { self.new.chosen ≡ self.old.chosen }
    {
        'ends: for _ in 0..self.roster.len() {
            let Some(ended) = self.roster.take_ended(rt) else {
                return;
            };
            let was_stopped = ended.relay.is_stopped();
            let _ = self.note_end(ended.relay.mount(), ended.outcome, was_stopped);
        }
    }

    /// Notes that the thread of the relay of this mount has ended so, which was to stop or not.
    ///
    /// `OutOfMemory` if memory was refused to keep its place.
    // rule: Keeping a place
    fn note_end(
        &mut self,
        mount: &MountName,
        outcome: RelayOutcome,
        was_stopped: bool,
    ) -> Result<(), OutOfMemory>
        ensures planned { self.new.is_planned ≡ (self.old.is_planned && not was_stopped) }
        ensures tried { self.new.tries.tried ≡ set_value (is_at (name_order mount.now)) self.old.tries.tried (thread_ended outcome) }
        ensures kept { OnOk result (self.new.tries.kept ≡ kept_after outcome self.old.tries.kept) }
        ensures names { self.new.names ≡ self.old.names }
        ensures wanted { self.new.wanted ≡ self.old.wanted }
        ensures wished { self.new.wished ≡ self.old.wished }
        ensures chosen { self.new.chosen ≡ self.old.chosen }
        ensures running { self.new.roster ≡ self.old.roster }
    {
        self.is_planned = self.is_planned && !was_stopped;
        self.tries.note_end(mount, outcome)
    }

    /// Takes this list for the newest one, and forgets relays that nothing knows any more.
    // rule: Failed list
    fn note_list(&mut self, settings: &Settings, names: BTreeSet<MountName>)
        ensures names { self.new.names ≡ names }
        ensures planned { self.new.is_planned ≡ false }
        ensures tries { self.new.tries ≡ record self.old.tries { tried = filter (λ e. is_wanted_relay settings.now names.keys e.0) self.old.tries.tried } }
        ensures wished { self.new.wished ≡ self.old.wished }
        ensures running { self.new.roster ≡ self.old.roster }
    {
        self.tries.forget_others(settings, &names);
        self.names = names;
        self.is_planned = false;
    }

    /// Notes that somebody waits at these mounts, if they are others than before.
    fn note_wanted(&mut self, wanted: Vec<MountName>)
        ensures wanted { self.new.wanted.items ≡ (if are_same wanted.items self.old.wanted.items then self.old.wanted.items else wanted.items) }
        ensures planned { self.new.is_planned ≡ (self.old.is_planned && are_same wanted.items self.old.wanted.items) }
        ensures names { self.new.names ≡ self.old.names }
        ensures wished { self.new.wished ≡ self.old.wished }
        ensures running { self.new.roster ≡ self.old.roster }
        ensures tries { self.new.tries ≡ self.old.tries }
    {
        if wanted.as_slice() != self.wanted.as_slice() {
            self.wanted = wanted;
            self.is_planned = false;
        }
    }

    /// Plans which relays are wished, unless that is known. Where memory is refused, it is planned again with the next look.
    fn plan_anew(&mut self, settings: &Settings)
        ensures { IsTrue self.old.is_planned → self.new ≡ self.old }
    {
        if !self.is_planned {
            self.is_planned = self.make_plan(settings).is_ok();
        }
    }

    /// Stops the relays that are not wished any more, and notes those that are. `OutOfMemory` if memory was refused.
    // rule: Relay places
    fn make_plan(&mut self, settings: &Settings) -> Result<(), OutOfMemory>
        ensures wished { OnOk result ((rest : List RelaySetting) × (map arc_value self.new.wished.items ≡
            in_order settings.now (started_by (orders settings.now self.old.names.keys (pulled_mounts (map arc_value self.old.roster.running.items)) self.old.wanted.items)) ++ rest)) }
        ensures tries { self.new.tries ≡ self.old.tries }
        ensures running { self.new.roster ≡ self.old.roster }
    {
        let live = self.roster.live()?;
        let orders = plan(
            self.alloc,
            settings,
            &self.names,
            live.as_slice(),
            self.wanted.as_slice(),
        )?;
        let mut wishes = wishes_of(self.alloc, settings, orders)?;
        for mount in &wishes.stops {
            self.roster.stop(mount);
        }
        self.roster.add_settings(&mut wishes.starts)?;
        self.wished = wishes.starts;
        Ok(())
    }

    /// Notes which of the relays that are wished begin at `ms`, in milliseconds, in the places that are free. `OutOfMemory` if
    /// memory was refused: none begins then.
    // rule: Relay places
    fn choose(&mut self, settings: &Settings, ms: u64) -> Result<(), OutOfMemory>
        ensures ok { OnOk result (IsChosen ms settings.now.limits.sources (length self.old.roster.running.items) (length (kept_at ms self.old.tries.kept)) (queue self.new.tries (map arc_value self.old.wished.items)) (reverse self.new.chosen.items)) }
        ensures err { OnErr result (self.new.chosen.items ≡ []) }
        ensures wished { self.new.wished ≡ self.old.wished }
        ensures running { self.new.roster ≡ self.old.roster }
    {
        let kept = self.tries.kept_places(ms);
        let sources = settings.limits.sources.get() as usize;
        let places = free_places(sources, self.roster.len(), kept);
        self.chosen = Vec::new(self.alloc);
        self.chosen = self
            .tries
            .begin(self.alloc, self.wished.as_slice(), places, ms)?;
        Ok(())
    }

    /// Returns the next relay that begins now; `None` if there is none, or memory is refused for it.
    pub(crate) fn next_start(&mut self) -> Option<Arc<RunningRelay>>
        ensures chosen { self.new.chosen.items ≡ take (length self.old.chosen.items - 1) self.old.chosen.items }
        ensures wished { self.new.wished ≡ self.old.wished }
    {
        let chosen = self.chosen.pop()?;
        let relay = self.wished.get(chosen.number)?.clone().ok()?;
        let mount = relay.local_mount;
        self.tries.note_start(mount).ok()?;
        match self.roster.add(relay, self.tries.failing(&mount)) {
            Ok(running) => Some(running),
            Err(_) => {
                self.tries.note_not_started(&mount, 0);
                None
            }
        }
    }

    /// Notes that no thread could be had at `ms`, in milliseconds, for the relay that was to begin last: it rests, and none
    /// begins any more now.
    pub(crate) fn note_no_thread(&mut self, mount: &MountName, ms: u64)
        ensures chosen { self.new.chosen.items ≡ [] }
        ensures running { self.new.roster.running.items ≡ take (length self.old.roster.running.items - 1) self.old.roster.running.items }
        ensures tried { self.new.tries.tried ≡ set_value (is_at (name_order mount.now)) self.old.tries.tried (not_started (later ms rest) (tried_at mount.now self.old.tries)) }
    {
        self.roster.forget_last();
        self.tries.note_not_started(mount, after(ms, REST_MS));
        self.chosen.clear();
    }
}
