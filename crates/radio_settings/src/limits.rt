//! The table `[limits]`.
ghost use Rattle.toml.specs.View.{table_view};
ghost use Rattle.radio_keys.specs.Lookup.{table_or_empty};
ghost use Rattle.radio_keys.specs.declared.key.Key.TheVariants.{Limits};
ghost use Rattle.radio_keys.specs.Reading.{Reads};
ghost use Rattle.radio_settings.specs.Limits.{limits_fault, limits_of};
ghost use Rattle.radio_settings.specs.Parts.{limits_table_fault};

use crate::{Key, SettingsFault};
use radio_keys::{number_or, table_or};
use radio_settings_values::LimitSettings;
use std::alloc::Global;
use toml::Table;

/// The limits of the whole station.
#[tactic(auto, unfolding(crate::specs::Parts::limits_table_fault, crate::specs::Limits::limits_fault))]
pub fn limits(alloc: Global, document: &Table) -> Result<LimitSettings, SettingsFault>
    ensures { let d = table_view document.now in
        Reads (limits_table_fault d) (limits_of (table_or_empty Limits d)) result }
{
    let empty = Table::new(alloc);
    limits_in(table_or(document, Key::Limits, &empty)?)
}

#[tactic(auto, unfolding(crate::specs::Limits::limits_fault, crate::specs::Limits::limits_of))]
fn limits_in(table: &Table) -> Result<LimitSettings, SettingsFault>
    ensures { let t = table_view table.now in
        Reads (limits_fault t) (limits_of t) result }
{
    Ok(LimitSettings {
        clients: number_or(table, Key::Clients, 100)?,
        sources: number_or(table, Key::Sources, 2)?,
        queue_size: number_or(table, Key::QueueSize, 524_288)?,
        burst_size: number_or(table, Key::BurstSize, 65_536)?,
        source_timeout: number_or(table, Key::SourceTimeout, 10)?,
        header_timeout: number_or(table, Key::HeaderTimeout, 15)?,
    })
}
