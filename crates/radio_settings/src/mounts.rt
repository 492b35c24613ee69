//! The tables `[[mount]]`.
ghost use Rattle.std.specs.Prelude.{◌≡◌, IfOk, [], ◌∷◌, map};
ghost use Rattle.toml.specs.Data.{no_members};
ghost use Rattle.std.specs.List.{flat_map};
ghost use Rattle.toml.specs.View.{table_view};
ghost use Rattle.radio_keys.specs.Rows.{faults_in, first_fault};
ghost use Rattle.radio_keys.specs.Reading.{Reads, ReadsAs};
ghost use Rattle.radio_settings.specs.Parts.{mounts_fault};
ghost use Rattle.radio_settings.specs.Mounts.{about_fault, about_options, listeners_fault, listeners_of, mount_fault, mount_keys, mounts_of, mount_setting_of};
ghost use Rattle.radio_settings.specs.Mounts.{options_fault, options_of, source_fault, source_of, stream_fault, stream_options, user_options, users_fault};

use crate::{Key, OutOfMemory, SettingsFault};
use radio_keys::{
    field, flag_or, name, number, number_or, required_name, tables_at, text, text_or,
};
use radio_settings_values::{
    AboutOptions, AccessSettings, LimitSettings, ListenerOptions, Login, MountOptions,
    MountSetting, StreamOptions, UserOptions,
};
use std::alloc::{AllocError, Global};
use toml::Table;

/// All mounts that have a table.
#[tactic(auto, unfolding(crate::specs::Parts::mounts_fault))]
pub fn mounts(
    alloc: Global,
    document: &Table,
    access: &AccessSettings,
    limits: &LimitSettings,
) -> Result<Vec<MountSetting>, SettingsFault>
    ensures { let d = table_view document.now in
        ReadsAs (λ v. v.items) (mounts_fault d) (mounts_of access.now limits.now d) result }
{
    let tables = tables_at(alloc, document, Key::Mount)?;
    mounts_in(alloc, tables.as_slice(), access, limits)
}

fn mounts_in(
    alloc: Global,
    tables: &[&Table],
    access: &AccessSettings,
    limits: &LimitSettings,
) -> Result<Vec<MountSetting>, SettingsFault>
    ensures { let ts = map (λ t. table_view t.now) tables.now in
        ReadsAs (λ v. v.items) (first_fault (flat_map (faults_in mount_keys) ts)) (map (mount_setting_of access.now limits.now) ts) result }
{
    let mut mounts = Vec::new(alloc);
    for table in tables {
        mounts.push(mount(alloc, table, access, limits)?)?;
    }
    Ok(mounts)
}

#[tactic(auto, using(crate::proofs::PartLemmas::mount_parts), unfolding(crate::specs::Mounts::mount_setting_of))]
pub(crate) fn mount(
    alloc: Global,
    table: &Table,
    access: &AccessSettings,
    limits: &LimitSettings,
) -> Result<MountSetting, SettingsFault>
    ensures { let t = table_view table.now in
        Reads (mount_fault t) (mount_setting_of access.now limits.now t) result }
{
    Ok(MountSetting {
        name: required_name(table, Key::MountName)?,
        options: options(alloc, table, access, limits)?,
    })
}

/// What a table sets for a mount.
#[tactic(auto, using(crate::proofs::PartLemmas::options_parts), unfolding(crate::specs::Mounts::options_of))]
fn options(
    alloc: Global,
    table: &Table,
    access: &AccessSettings,
    limits: &LimitSettings,
) -> Result<MountOptions, SettingsFault>
    ensures { let t = table_view table.now in
        Reads (options_fault t) (options_of access.now limits.now t) result }
{
    let source = source(alloc, table, access)?;
    let listeners = listeners(table)?;
    let (stream, users) = stream_and_users(alloc, table, limits)?;
    Ok(MountOptions {
        source,
        listeners,
        stream,
        users,
    })
}

fn stream_and_users(
    alloc: Global,
    table: &Table,
    limits: &LimitSettings,
) -> Result<(StreamOptions, UserOptions), SettingsFault>
    ensures { let t = table_view table.now in
        Reads (first_fault (stream_fault t ∷ users_fault t ∷ [])) (stream_options limits.now t, user_options t) result }
{
    let stream = stream(alloc, table, limits)?;
    let users = users(alloc, table)?;
    Ok((stream, users))
}

#[tactic(auto, unfolding(crate::specs::Mounts::source_fault, crate::specs::Mounts::source_of))]
fn source(alloc: Global, table: &Table, access: &AccessSettings) -> Result<Login, SettingsFault>
    ensures { let t = table_view table.now in
        Reads (source_fault t) (source_of access.now t) result }
{
    Ok(Login {
        username: text_or(alloc, table, Key::Username, "source")?,
        password: text_or(alloc, table, Key::Password, access.source_password.as_str())?,
    })
}

#[tactic(auto, unfolding(crate::specs::Mounts::listeners_fault, crate::specs::Mounts::listeners_of))]
fn listeners(table: &Table) -> Result<ListenerOptions, SettingsFault>
    ensures { let t = table_view table.now in
        Reads (listeners_fault t) (listeners_of t) result }
{
    Ok(ListenerOptions {
        max_listeners: number(table, Key::MaxListeners)?,
        max_listener_duration: number(table, Key::MaxListenerDuration)?,
        fallback_mount: name(table, Key::FallbackMount)?,
        fallback_override: flag_or(table, Key::FallbackOverride, false)?,
        fallback_when_full: flag_or(table, Key::FallbackWhenFull, false)?,
    })
}

#[tactic(auto, unfolding(crate::specs::Mounts::stream_fault, crate::specs::Mounts::stream_options, crate::specs::Mounts::about_fault))]
fn stream(
    alloc: Global,
    table: &Table,
    limits: &LimitSettings,
) -> Result<StreamOptions, SettingsFault>
    ensures { let t = table_view table.now in
        Reads (stream_fault t) (stream_options limits.now t) result }
{
    Ok(StreamOptions {
        hidden: flag_or(table, Key::Hidden, false)?,
        burst_size: number_or(table, Key::BurstSize, limits.burst_size.get())?,
        mp3_metadata_interval: number_or(table, Key::Mp3MetadataInterval, 16000)?,
        stream_name: field(alloc, table, Key::StreamName)?,
        genre: field(alloc, table, Key::Genre)?,
        about: about(alloc, table)?,
    })
}

#[tactic(auto, unfolding(crate::specs::Mounts::about_fault, crate::specs::Mounts::about_options))]
fn about(alloc: Global, table: &Table) -> Result<AboutOptions, SettingsFault>
    ensures { let t = table_view table.now in
        Reads (about_fault t) (about_options t) result }
{
    Ok(AboutOptions {
        description: field(alloc, table, Key::StreamDescription)?,
        url: field(alloc, table, Key::StreamUrl)?,
        bitrate: field(alloc, table, Key::Bitrate)?,
    })
}

#[tactic(auto, unfolding(crate::specs::Mounts::users_fault, crate::specs::Mounts::user_options))]
fn users(alloc: Global, table: &Table) -> Result<UserOptions, SettingsFault>
    ensures { let t = table_view table.now in
        Reads (users_fault t) (user_options t) result }
{
    Ok(UserOptions {
        htpasswd: text(alloc, table, Key::Htpasswd)?,
        allow_duplicate_users: flag_or(table, Key::AllowDuplicateUsers, true)?,
    })
}

/// What holds for a mount that has no table: all defaults. The empty table has no fault, so an `Err` means that memory
/// ran out.
pub fn default_options(
    alloc: Global,
    access: &AccessSettings,
    limits: &LimitSettings,
) -> Result<MountOptions, OutOfMemory>
    ensures { IfOk result (λ options. options ≡ options_of access.now limits.now no_members) }
{
    let empty = Table::new(alloc);
    match options(alloc, &empty, access, limits) {
        Ok(options) => Ok(options),
        Err(_) => Err(AllocError),
    }
}
