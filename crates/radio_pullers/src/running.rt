//! A relay that runs, and what its thread and the one that started it report to each other.

ghost use Rattle.std.specs.Prelude.{◌≡◌};
ghost use Rattle.std.specs.Arc.{arc_value};

use radio_masters::Failing;
use radio_settings_values::RelaySetting;
use radio_tries::RelayOutcome;
use radio_values::MountName;
use std::marker::Model;
use std::sync::atomic::{AtomicBool, Ordering};
use std::sync::{Arc, Mutex};

/// A relay that runs, whether it is to stop, and how its thread has ended.
///
/// In contracts it is its setting, and how it had failed before it began.
#[derive(Drop)]
pub(crate) struct RunningRelay {
    setting: Arc<RelaySetting>,
    failing: Option<Failing>,
    /// Whether it is to stop.
    pub(crate) is_stopped: AtomicBool,
    /// How its thread has ended, once it has.
    pub(crate) outcome: Mutex<Option<RelayOutcome>>,
}

impl Model for RunningRelay {
    ghost use Rattle.std.specs.Arc.{arc_value};
    ghost use Rattle.radio_pullers.specs.Running.{Begun};

    ghost Value = { Begun };

    ghost view = { λ r. record { setting = arc_value r.setting; failing = r.failing } };
}

impl RunningRelay {
    /// Returns one whose thread begins, and which has failed so before.
    pub(crate) fn new(setting: Arc<RelaySetting>, failing: Option<Failing>) -> RunningRelay
        ensures { result ≡ record { setting = arc_value setting; failing = failing } }
    {
        RunningRelay {
            setting,
            failing,
            is_stopped: AtomicBool::new(false),
            outcome: Mutex::new(None),
        }
    }

    /// Returns what the settings, or the slave's list, say of it.
    pub(crate) fn setting(&self) -> &Arc<RelaySetting>
        ensures { arc_value result.now ≡ self.now.setting }
    {
        &self.setting
    }

    /// Returns the mount that it feeds.
    pub(crate) fn mount(&self) -> &MountName
        ensures { result.now ≡ self.now.setting.local_mount }
    {
        &self.setting.local_mount
    }

    /// Returns how it had failed before it began.
    pub(crate) fn failing(&self) -> Option<Failing>
        ensures { result ≡ self.now.failing }
    {
        self.failing
    }

    /// Returns whether it is to stop.
    pub(crate) fn is_stopped(&self) -> bool {
        self.is_stopped.load(Ordering::SeqCst)
    }
}
