//! Which relays run.

ghost use Rattle.std.specs.Prelude.{◌≡◌, ◌<◌, ◌-◌, ℕ, List, [], ◌∷◌, ◌++◌, length, map, take, if◌then◌else◌, IfOk, IfSome, OnOk, OnErr, MatchOption};
ghost use Rattle.std.specs.Arc.{arc_value};
ghost use Rattle.std.specs.List.{swap_remove};
ghost use Rattle.radio_settings_values.specs.declared.settings.RelaySetting.{RelaySetting};
ghost use Rattle.radio_pullers.specs.Running.{pulled_mounts};

use crate::OutOfMemory;
use crate::running::RunningRelay;
use radio_masters::Failing;
use radio_settings_values::RelaySetting;
use radio_tries::RelayOutcome;
use radio_values::MountName;
use std::alloc::Global;
use std::sync::atomic::Ordering;
use std::sync::{Arc, Wait};

/// A relay whose thread has ended, and how.
#[derive(Drop)]
pub(crate) struct Ended {
    pub(crate) relay: Arc<RunningRelay>,
    pub(crate) outcome: RelayOutcome,
}

/// The relays that run.
#[derive(Drop)]
pub(crate) struct Roster {
    alloc: Global,
    running: Vec<Arc<RunningRelay>>,
}

impl Roster {
    /// Returns the roster of a station of which no relay runs. It takes no memory.
    pub(crate) fn new(alloc: Global) -> Roster
        ensures { result.running.items ≡ [] }
    {
        Roster {
            alloc,
            running: Vec::new(alloc),
        }
    }

    /// Returns how many run.
    pub(crate) fn len(&self) -> usize
        ensures { result ≡ length self.now.running.items }
    {
        self.running.len()
    }

    /// Returns the mounts of those that run. `OutOfMemory` if memory was refused.
    pub(crate) fn live(&self) -> Result<Vec<MountName>, OutOfMemory>
        ensures { IfOk result (λ mounts. mounts.items ≡ pulled_mounts (map arc_value self.now.running.items)) }
    {
        let mut mounts = Vec::new(self.alloc);
        'relays: for relay in &self.running {
            mounts.push(*relay.mount())?;
        }
        Ok(mounts)
    }

    /// Adds what the settings say of those that run and are not to stop behind others. `OutOfMemory` if memory was refused.
    pub(crate) fn add_settings(
        &self,
        others: &mut Vec<Arc<RelaySetting>>,
    ) -> Result<(), OutOfMemory>
        ensures { OnOk result ((rest : List RelaySetting) × (map arc_value others.new.items ≡ map arc_value others.old.items ++ rest)) }
    {
        'relays: for relay in &self.running {
            add_setting(relay, relay.is_stopped(), others)?;
        }
        Ok(())
    }

    /// Notes that this relay runs, which has failed so before. `OutOfMemory` if memory was refused; nothing has changed then.
    pub(crate) fn add(
        &mut self,
        setting: Arc<RelaySetting>,
        failing: Option<Failing>,
    ) -> Result<Arc<RunningRelay>, OutOfMemory>
        ensures relay { IfOk result (λ relay. arc_value relay ≡ record { setting = arc_value setting; failing = failing }) }
        ensures running { IfOk result (λ relay. map arc_value self.new.running.items ≡ map arc_value self.old.running.items ++ arc_value relay ∷ []) }
        ensures err { OnErr result (self.new.running.items ≡ self.old.running.items) }
    {
        let relay = Arc::new(self.alloc, RunningRelay::new(setting, failing))?;
        self.running.push(relay.clone()?)?;
        Ok(relay)
    }

    /// Notes that the relay that was added last does not run.
    pub(crate) fn forget_last(&mut self)
        ensures { self.new.running.items ≡ take (length self.old.running.items - 1) self.old.running.items }
    {
        let _ = self.running.pop();
    }

    /// Returns a relay whose thread has ended, which runs no more; `None` if there is none, and nothing has changed then.
    pub(crate) fn take_ended<W: Wait>(&mut self, waits: &W) -> Option<Ended>
        ensures { MatchOption result (self.new.running.items ≡ self.old.running.items) (λ ended. (place : ℕ) × (self.new.running.items ≡ swap_remove self.old.running.items place ended.relay)) }
    {
        for place in 0..self.running.len() {
            if let Some(outcome) = outcome_at(self.running.as_slice(), place, waits) {
                let relay = self.running.swap_remove(place);
                return Some(Ended { relay, outcome });
            }
        }
        None
    }

    /// The relay that feeds this mount is to stop, if one does.
    pub(crate) fn stop(&self, mount: &MountName) {
        for relay in &self.running {
            if relay.mount() == mount {
                relay.is_stopped.store(true, Ordering::SeqCst);
            }
        }
    }
}

/// Returns how the thread of the relay at this place has ended, if there is one and it has.
fn outcome_at<W: Wait>(
    running: &[Arc<RunningRelay>],
    place: usize,
    waits: &W,
) -> Option<RelayOutcome>
    ensures { IfSome result (λ outcome. place < length running.now) }
{
    let relay = running.get(place)?;
    *relay.outcome.lock(waits)
}

/// Adds what the settings say of a relay behind others, unless the relay is to stop. `OutOfMemory` if memory was refused.
fn add_setting(
    relay: &RunningRelay,
    is_stopped: bool,
    others: &mut Vec<Arc<RelaySetting>>,
) -> Result<(), OutOfMemory>
    ensures { OnOk result (map arc_value others.new.items ≡ map arc_value others.old.items ++ (if is_stopped then [] else relay.now.setting ∷ [])) }
{
    if is_stopped {
        return Ok(());
    }
    others.push(relay.setting().clone()?)?;
    Ok(())
}
