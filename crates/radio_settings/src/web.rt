//! The table `[web]`, and the names that it takes from mounts.
ghost use Rattle.std.specs.Prelude.{◌≡◌, IfOk};
ghost use Rattle.std.specs.List.{list_all};
ghost use Rattle.toml.specs.View.{table_view};
ghost use Rattle.radio_keys.specs.Lookup.{table_or_empty};
ghost use Rattle.radio_keys.specs.declared.key.Key.TheVariants.{Web};
ghost use Rattle.radio_keys.specs.Reading.{Reads};
ghost use Rattle.radio_settings.specs.Parts.{web_table_fault};
ghost use Rattle.radio_settings.specs.Web.{answers_fault, answers_in, answers_of, no_answers, web_fault, web_of};
ghost use Rattle.radio_settings.specs.WebNames.{feeds_free_mount, has_free_fallback, has_free_name, web_names_fault};

use crate::{Key, SettingsFault};
use radio_keys::{flag_or, origin, table_at, table_or, text};
use radio_settings_values::{MountSetting, RelaySetting, WebSettings};
use std::alloc::Global;
use toml::Table;

/// What the table `[web]` says of requests and answers.
#[derive(Clone, Copy, PartialEq, Eq)]
pub struct AnswerSettings {
    /// There is such a table.
    pub has_table: bool,
    /// `cache-control`
    pub cache_control: bool,
    /// `browser-commands`
    pub browser_commands: bool,
    /// `log-polls`
    pub log_polls: bool,
    /// `icecast-heads`
    pub icecast_heads: bool,
}

/// Returns the table `[web]`: what is meant for browsers and the scripts of web sites.
#[tactic(auto, unfolding(crate::specs::Parts::web_table_fault, crate::specs::Web::web_fault))]
pub fn web(alloc: Global, document: &Table) -> Result<WebSettings, SettingsFault>
    ensures { let d = table_view document.now in
        Reads (web_table_fault d) (web_of (table_or_empty Web d)) result }
{
    let empty = Table::new(alloc);
    web_in(alloc, table_or(document, Key::Web, &empty)?)
}

#[tactic(auto, unfolding(crate::specs::Web::web_fault, crate::specs::Web::answers_fault, crate::specs::Web::web_of))]
fn web_in(alloc: Global, table: &Table) -> Result<WebSettings, SettingsFault>
    ensures { let t = table_view table.now in
        Reads (web_fault t) (web_of t) result }
{
    let allow_origin = origin(alloc, table, Key::AllowOrigin)?;
    let icecast_status = flag_or(table, Key::IcecastStatus, false)?;
    let page = flag_or(table, Key::Page, false)?;
    let public_url = text(alloc, table, Key::PublicUrl)?;
    let _answers = answers_of(table)?;
    Ok(WebSettings {
        allow_origin,
        icecast_status,
        page,
        public_url,
    })
}

#[tactic(auto, unfolding(crate::specs::Web::answers_fault, crate::specs::Web::answers_of))]
fn answers_of(table: &Table) -> Result<AnswerSettings, SettingsFault>
    ensures { let t = table_view table.now in
        Reads (answers_fault t) (answers_of t) result }
{
    Ok(AnswerSettings {
        has_table: true,
        cache_control: flag_or(table, Key::CacheControl, false)?,
        browser_commands: flag_or(table, Key::BrowserCommands, false)?,
        log_polls: flag_or(table, Key::LogPolls, true)?,
        icecast_heads: flag_or(table, Key::IcecastHeads, false)?,
    })
}

/// What a document says of answers. Its faults are among those of [`web`].
#[tactic(auto, unfolding(radio_keys::specs::Lookup::table_at))]
pub fn answers(document: &Table) -> Result<AnswerSettings, SettingsFault>
    ensures { IfOk result (λ answers. answers ≡ answers_in (table_view document.now)) }
{
    match table_at(document, Key::Web)? {
        Some(table) => answers_of(table),
        None => Ok(AnswerSettings {
            has_table: false,
            cache_control: false,
            browser_commands: false,
            log_polls: true,
            icecast_heads: false,
        }),
    }
}

/// The fault of the first name that is a path of the web site: of a mount, of a fallback, or of a mount that a relay feeds.
#[tactic(auto, unfolding(crate::specs::WebNames::web_names_fault))]
pub fn names_fault(
    web: &WebSettings,
    mounts: &[MountSetting],
    relays: &[RelaySetting],
) -> Option<SettingsFault>
    ensures { result ≡ web_names_fault web.now mounts.now relays.now }
{
    if !have_free_names(web, mounts) {
        return Some(SettingsFault::BadName {
            key: Key::MountName,
        });
    }
    if !have_free_fallbacks(web, mounts) {
        return Some(SettingsFault::BadName {
            key: Key::FallbackMount,
        });
    }
    if !feed_free_mounts(web, relays) {
        return Some(SettingsFault::BadName {
            key: Key::LocalMount,
        });
    }
    None
}

fn have_free_names(web: &WebSettings, mounts: &[MountSetting]) -> bool
    ensures { result ≡ list_all (has_free_name web.now) mounts.now }
{
    mounts.iter().all(|mount| !web.has(mount.name.as_bytes()))
}

fn have_free_fallbacks(web: &WebSettings, mounts: &[MountSetting]) -> bool
    ensures { result ≡ list_all (has_free_fallback web.now) mounts.now }
{
    mounts.iter().all(|mount| has_free_fallback(web, mount))
}

fn has_free_fallback(web: &WebSettings, mount: &MountSetting) -> bool
    ensures { result ≡ has_free_fallback web.now mount.now }
{
    match &mount.options.listeners.fallback_mount {
        Some(name) => !web.has(name.as_bytes()),
        None => true,
    }
}

fn feed_free_mounts(web: &WebSettings, relays: &[RelaySetting]) -> bool
    ensures { result ≡ list_all (feeds_free_mount web.now) relays.now }
{
    relays
        .iter()
        .all(|relay| !web.has(relay.local_mount.as_bytes()))
}
