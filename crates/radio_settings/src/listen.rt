//! The table `[listen]`.
ghost use Rattle.std.specs.Prelude.{◌≡◌, IfOk};
ghost use Rattle.toml.specs.View.{table_view};
ghost use Rattle.radio_keys.specs.Lookup.{table_or_empty};
ghost use Rattle.radio_keys.specs.declared.key.Key.TheVariants.{Listen};
ghost use Rattle.radio_keys.specs.Reading.{Reads};
ghost use Rattle.radio_settings.specs.Listen.{listen_fault, listen_of, proxies_in};
ghost use Rattle.radio_settings.specs.Parts.{listen_table_fault};

use crate::{Key, SettingsFault};
use radio_keys::{number_or, table_at, table_or, text, text_or};
use radio_settings_values::ListenSettings;
use radio_values::Text;
use std::alloc::Global;
use toml::Table;

/// Where the server listens.
#[tactic(auto, unfolding(crate::specs::Parts::listen_table_fault, crate::specs::Listen::listen_fault))]
pub fn listen(alloc: Global, document: &Table) -> Result<ListenSettings, SettingsFault>
    ensures { let d = table_view document.now in
        Reads (listen_table_fault d) (listen_of (table_or_empty Listen d)) result }
{
    let empty = Table::new(alloc);
    listen_in(alloc, table_or(document, Key::Listen, &empty)?)
}

#[tactic(auto, unfolding(crate::specs::Listen::listen_fault, crate::specs::Listen::listen_of))]
fn listen_in(alloc: Global, table: &Table) -> Result<ListenSettings, SettingsFault>
    ensures { let t = table_view table.now in
        Reads (listen_fault t) (listen_of t) result }
{
    let address = text_or(alloc, table, Key::Address, "127.0.0.1")?;
    let port = number_or(table, Key::Port, 8000)?;
    let workers = number_or(table, Key::Workers, 4)?;
    let _proxies = text(alloc, table, Key::ProxyFrom)?;
    Ok(ListenSettings {
        address,
        port,
        workers,
    })
}

/// Returns the path of the list of proxies that a document names: `proxy-from` in `[listen]`. Its faults are among those of
/// [`listen`].
#[tactic(auto, unfolding(radio_keys::specs::Lookup::table_at))]
pub fn proxies(alloc: Global, document: &Table) -> Result<Option<Text>, SettingsFault>
    ensures { IfOk result (λ path. path ≡ proxies_in (table_view document.now)) }
{
    match table_at(document, Key::Listen)? {
        Some(table) => text(alloc, table, Key::ProxyFrom),
        None => Ok(None),
    }
}
