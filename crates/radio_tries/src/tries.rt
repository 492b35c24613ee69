//! When relays were tried.

ghost use Rattle.std.specs.Prelude.{◌≡◌, ◌<◌, [], length, filter, map, reverse, IfOk, OnOk, OnErr};
ghost use Rattle.std.specs.Arc.{arc_value};
ghost use Rattle.std.specs.BTreeMap.{is_at};
ghost use Rattle.std.specs.Map.{set_value};
ghost use Rattle.radio_masters.specs.Turns.{HaveTheirTurn};
ghost use Rattle.radio_relay.specs.StreamList.{name_order};
ghost use Rattle.radio_tries.specs.Tries.{IsStarted, due_of, thread_ended, failing_of, free_places, is_wanted_relay, kept_after, kept_at, no_trials, not_started, queue, tried_at};

use crate::OutOfMemory;
use crate::outcome::RelayOutcome;
use radio_masters::{Failing, WaitingRelay, in_turn};
use radio_settings_values::{RelaySetting, Settings};
use radio_values::MountName;
use std::alloc::Global;
use std::collections::{BTreeMap, BTreeSet};
use std::marker::Model;
use std::sync::Arc;

/// When a relay was tried.
#[derive(Clone, Copy, Debug, PartialEq, Eq)]
pub(crate) struct RelayTry {
    /// From which moment on it may be tried again, in milliseconds; the last of all while it runs.
    pub(crate) due_ms: u64,
    /// How it has failed, if it has since it was up last.
    pub(crate) failing: Option<Failing>,
}

/// When relays were tried, by the mounts that they feed, and for how long places are kept that no relay has.
///
/// In contracts it is a `Trials`.
#[derive(Drop)]
pub struct Tries {
    tried: BTreeMap<MountName, RelayTry>,
    /// Until when each of these places is kept, in milliseconds.
    kept_until: Vec<u64>,
}

impl Model for Tries {
    ghost use Rattle.radio_tries.specs.Tries.{Trials};

    ghost Value = { Trials };

    ghost view = { λ t. record { tried = t.tried.entries; kept = t.kept_until.items } };
}

impl Tries {
    /// Returns the tries of a station that has tried no relay. It takes no memory.
    pub fn new(alloc: Global) -> Tries
        ensures { result ≡ no_trials }
    {
        Tries {
            tried: BTreeMap::new(alloc),
            kept_until: Vec::new(alloc),
        }
    }

    /// Returns from which moment on the relay of this mount may be tried, in milliseconds: 0 if it was never tried.
    pub fn due_ms(&self, mount: &MountName) -> u64
        ensures { result ≡ due_of (tried_at mount.now self.now) }
    {
        match self.tried.get(mount) {
            Some(tried) => tried.due_ms,
            None => 0,
        }
    }

    /// Returns how the relay of this mount has failed, if it has since it was up last.
    pub fn failing(&self, mount: &MountName) -> Option<Failing>
        ensures { result ≡ failing_of (tried_at mount.now self.now) }
    {
        match self.tried.get(mount) {
            Some(tried) => tried.failing,
            None => None,
        }
    }

    /// Notes that the relay of this mount is tried now: it is not tried anew before it has ended.
    ///
    /// `OutOfMemory` if memory was refused; nothing has changed then.
    pub fn note_start(&mut self, mount: MountName) -> Result<(), OutOfMemory>
        ensures ok { OnOk result (IsStarted mount self.old self.new) }
        ensures err { OnErr result (self.new ≡ self.old) }
    {
        let tried = RelayTry {
            due_ms: u64::MAX,
            failing: self.failing(&mount),
        };
        self.tried.insert(mount, tried)?;
        Ok(())
    }

    /// Notes that the thread of the relay of this mount has ended so. Some ends keep the relay's place until it may be tried
    /// again.
    ///
    /// `OutOfMemory` if memory was refused for the place: it is free then.
    // rule: Ten seconds; Keeping a place
    pub fn note_end(&mut self, mount: &MountName, outcome: RelayOutcome) -> Result<(), OutOfMemory>
        ensures tried { self.new.tried ≡ set_value (is_at (name_order mount.now)) self.old.tried (thread_ended outcome) }
        ensures kept { OnOk result (self.new.kept ≡ kept_after outcome self.old.kept) }
        ensures free { OnErr result (self.new.kept ≡ self.old.kept) }
    {
        let tried = RelayTry {
            due_ms: outcome.due_ms(),
            failing: outcome.failing,
        };
        set_tried(&mut self.tried, mount, tried);
        if outcome.why.keeps_place() {
            self.kept_until.push(tried.due_ms)?;
        }
        Ok(())
    }

    /// Notes that the relay of this mount could not be started: it may be tried again from `due_ms` on, in milliseconds.
    pub fn note_not_started(&mut self, mount: &MountName, due_ms: u64)
        ensures tried { self.new.tried ≡ set_value (is_at (name_order mount.now)) self.old.tried (not_started due_ms (tried_at mount.now self.old)) }
        ensures kept { self.new.kept ≡ self.old.kept }
    {
        let tried = RelayTry {
            due_ms,
            failing: self.failing(mount),
        };
        set_tried(&mut self.tried, mount, tried);
    }

    /// Returns how many places are kept at `ms`, in milliseconds, that no relay has, and forgets those that are not.
    // rule: Keeping a place
    pub fn kept_places(&mut self, ms: u64) -> usize
        ensures places { self.new ≡ record self.old { kept = kept_at ms self.old.kept } }
        ensures count { result ≡ length (kept_at ms self.old.kept) }
    {
        self.kept_until.retain(|until_ms| ms < *until_ms);
        self.kept_until.len()
    }

    /// Forgets relays that are neither of the settings nor of this list.
    pub fn forget_others(&mut self, settings: &Settings, names: &BTreeSet<MountName>)
        ensures { self.new ≡ record self.old { tried = filter (λ e. is_wanted_relay settings.now names.now.keys e.0) self.old.tried } }
    {
        self.tried.retain(|mount, _| names.contains(mount) || settings.relays.get(mount).is_some());
    }

    /// Returns which of these relays begin at `ms` in so many places, the last one first: of those that may be tried, the one
    /// that may be tried for the longest begins first.
    ///
    /// `OutOfMemory` if memory was refused.
    // rule: Relay places
    pub fn begin(
        &self,
        alloc: Global,
        wished: &[Arc<RelaySetting>],
        places: usize,
        ms: u64,
    ) -> Result<Vec<WaitingRelay>, OutOfMemory>
        ensures turn { IfOk result (λ chosen. 0 < places → HaveTheirTurn ms places (queue self.now (map arc_value wished.now)) (reverse chosen.items)) }
        ensures full { places ≡ 0 → IfOk result (λ chosen. chosen.items ≡ []) }
    {
        if places == 0 {
            return Ok(Vec::new(alloc));
        }
        let waiting = self.waiting(alloc, wished)?;
        let mut chosen = in_turn(waiting, places, ms)?;
        chosen.reverse();
        Ok(chosen)
    }

    /// Returns these relays as they wait for a place, in their order. `OutOfMemory` if memory was refused.
    fn waiting(
        &self,
        alloc: Global,
        wished: &[Arc<RelaySetting>],
    ) -> Result<Vec<WaitingRelay>, OutOfMemory>
        ensures { IfOk result (λ waiting. waiting.items ≡ queue self.now (map arc_value wished.now)) }
    {
        let mut waiting = Vec::new(alloc);
        'relays: for (number, relay) in wished.iter().enumerate() {
            let due_ms = self.due_ms(&relay.local_mount);
            waiting.push(WaitingRelay { due_ms, number })?;
        }
        Ok(waiting)
    }
}

/// Replaces what is known of the relay of this mount, if anything is.
fn set_tried(tries: &mut BTreeMap<MountName, RelayTry>, mount: &MountName, tried: RelayTry)
    ensures { tries.new.entries ≡ set_value (is_at (name_order mount.now)) tries.old.entries tried }
{
    let Some(old) = tries.get_mut(mount) else {
        return;
    };
    *old = tried;
}

/// Returns how many more relays may begin if there may be so many sources, so many relays run, and so many places are kept.
// rule: Relay places
pub fn free_places(sources: usize, running: usize, kept: usize) -> usize
    ensures { result ≡ free_places sources running kept }
{
    sources.saturating_sub(running).saturating_sub(kept)
}
