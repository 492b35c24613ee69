//! Settings of a test's server, and a core of them.

use radio_access::Lists;
use radio_core::Core;
use radio_settings::{SettingsFault, read_settings};
use radio_settings_values::Settings;
use std::alloc::Global;

/// A queue of ten bytes, at which a listener lags that is three blocks of four bytes behind.
pub const SHORT_QUEUE: &str = "[limits]\nqueue-size = 10\n";

/// Returns the settings of a source's and an admin's password, and of these lines. A fault if the lines are no settings, or memory
/// was refused.
pub fn settings(alloc: Global, more: &str) -> Result<Settings, SettingsFault> {
    let text = format!(in alloc;
        "source-password = \"hackme\"\nadmin-password = \"letmein\"\n{more}"
    )?;
    read_settings(alloc, text.as_str())
}

/// Returns a core of these settings, without clients.
pub fn core(alloc: Global, more: &str) -> Result<Core, SettingsFault> {
    let settings = settings(alloc, more)?;
    Ok(Core::new(alloc, settings, Lists::new(alloc)))
}
