//! What an operator should know of its settings.

ghost use Rattle.std.specs.Prelude.{◌≡◌, ◌++◌, map, IfOk, OnOk};
ghost use Rattle.std.specs.List.{flat_map};
ghost use Rattle.std.specs.Option.{option_to_list};
ghost use Rattle.radio_startup.specs.Warnings.{belongs_to, did_you_mean, few_descriptors, no_room, of_passwords, of_station_passwords, of_streams, only_this_machine, unknown_fallback, unknown_key, warning, warnings_of, weak_mount_password, weak_password, weak_relay_password};

use crate::OutOfMemory;
use crate::doubts::{is_example, is_loopback, is_named, limited_listeners};
use radio_log::{KeyPlace, QuotedText, Warning};
use radio_review::{Meant, UnknownKey};
use radio_settings_values::{AccessSettings, MountSetting, Settings};
use radio_values::Text as Password;
use std::alloc::Global;

/// How many descriptors are wanted in addition to those of clients: the standard streams, the bound socket, that
/// which reports sockets, and one for a file.
const OTHER_DESCRIPTORS: u64 = 8;

/// Returns a warning for each doubtful setting that an operator should know of, and for keys that are ignored,
/// in the order of their lines. `descriptors` is how many the system allows the process, if it says so.
///
/// `OutOfMemory` if memory is refused.
// rule: Doubtful settings
pub fn warnings_of<'a>(
    alloc: Global,
    settings: &'a Settings,
    unknown: &'a [UnknownKey],
    descriptors: Option<u64>,
) -> Result<Vec<Warning<'a>>, OutOfMemory>
    ensures { IfOk result (λ warnings. warnings.items ≡ warnings_of settings.now unknown.now descriptors) }
{
    let mut warnings = Vec::new(alloc);
    add_unknown(&mut warnings, unknown)?;
    add(
        &mut warnings,
        few_descriptors(settings.limits.clients.get(), descriptors),
    )?;
    add(
        &mut warnings,
        only_this_machine(settings.listen.address.as_str()),
    )?;
    add_passwords(&mut warnings, settings)?;
    add_streams(&mut warnings, settings)?;
    Ok(warnings)
}

fn add<'a>(to: &mut Vec<Warning<'a>>, warning: Option<Warning<'a>>) -> Result<(), OutOfMemory>
    ensures { OnOk result (to.new.items ≡ to.old.items ++ option_to_list warning.entry) }
{
    if let Some(warning) = warning {
        to.push(warning)?;
    }
    Ok(())
}

/// A warning of each key that is passed over.
fn add_unknown<'a>(to: &mut Vec<Warning<'a>>, unknown: &'a [UnknownKey]) -> Result<(), OutOfMemory>
    ensures { OnOk result (to.new.items ≡ to.old.items ++ map unknown_key unknown.now) }
{
    for key in unknown {
        to.push(unknown_key(key))?;
    }
    Ok(())
}

/// Warnings of passwords.
fn add_passwords<'a>(to: &mut Vec<Warning<'a>>, settings: &'a Settings) -> Result<(), OutOfMemory>
    ensures { OnOk result (to.new.items ≡ to.old.items ++ of_passwords settings.now) }
{
    let access = &settings.access;
    add_station_passwords(to, access)?;
    add_mount_passwords(
        to,
        settings.mounts.as_slice(),
        access.source_password.as_str(),
    )?;
    Ok(())
}

/// Warnings of the passwords that hold for the whole station.
fn add_station_passwords<'a>(
    to: &mut Vec<Warning<'a>>,
    access: &AccessSettings,
) -> Result<(), OutOfMemory>
    ensures { OnOk result (to.new.items ≡ to.old.items ++ of_station_passwords access.now) }
{
    let source = access.source_password.as_str();
    let admin = access.admin.password.as_str();
    add(to, weak_password("source-password", "", source))?;
    add(to, weak_password("admin-password", "", admin))?;
    add(to, weak_relay_password(&access.relays.password))?;
    Ok(())
}

/// Warnings of the passwords of the mounts' own sources.
fn add_mount_passwords<'a>(
    to: &mut Vec<Warning<'a>>,
    mounts: &'a [MountSetting],
    source: &str,
) -> Result<(), OutOfMemory>
    ensures { OnOk result (to.new.items ≡ to.old.items ++ flat_map (λ mount. option_to_list (weak_mount_password source.now mount)) mounts.now) }
{
    for mount in mounts {
        add(to, weak_mount_password(source, mount))?;
    }
    Ok(())
}

/// Warnings of fallbacks that nothing names, and of limits that leave no room for sources and commands.
fn add_streams<'a>(to: &mut Vec<Warning<'a>>, settings: &'a Settings) -> Result<(), OutOfMemory>
    ensures { OnOk result (to.new.items ≡ to.old.items ++ of_streams settings.now) }
{
    add_fallbacks(to, settings)?;
    let clients = settings.limits.clients.get();
    add(to, no_room(settings.mounts.as_slice(), clients))
}

fn add_fallbacks<'a>(to: &mut Vec<Warning<'a>>, settings: &'a Settings) -> Result<(), OutOfMemory>
    ensures { OnOk result (to.new.items ≡ to.old.items ++ flat_map (λ mount. option_to_list (unknown_fallback settings.now mount)) settings.now.mounts) }
{
    let mounts = settings.mounts.as_slice();
    for mount in mounts {
        add(to, unknown_fallback(settings, mount))?;
    }
    Ok(())
}

/// A warning of a key that the settings have.
fn warning<'a>(why: &'a str, key: &'a str, mount: &'a str, limit: u64) -> Warning<'a>
    ensures { result ≡ warning why.now key.now mount.now limit }
{
    Warning {
        why: QuotedText::of(why.as_bytes()),
        key: QuotedText::of(key.as_bytes()),
        mount: QuotedText::of(mount.as_bytes()),
        limit,
        place: KeyPlace::none(),
    }
}

/// A key is passed over.
fn unknown_key<'a>(unknown: &'a UnknownKey) -> Warning<'a>
    ensures { result ≡ unknown_key unknown.now }
{
    Warning {
        why: QuotedText::of(b"unknown-key"),
        key: QuotedText::of(unknown.key.as_bytes()),
        mount: QuotedText::of(unknown.mount.as_bytes()),
        limit: 0,
        place: KeyPlace {
            table: QuotedText::of(unknown.section.word().as_bytes()),
            line: unknown.line,
            did_you_mean: QuotedText::of(did_you_mean(unknown.meant).as_bytes()),
            belongs_to: QuotedText::of(belongs_to(unknown.meant).as_bytes()),
        },
    }
}

/// The key of the same table that may have been meant, empty if there is none.
fn did_you_mean(meant: Meant) -> &'static str
    ensures { result.now ≡ did_you_mean meant }
{
    match meant {
        Meant::Key(key) => key.word(),
        Meant::At(_) | Meant::Nothing => "",
    }
}

/// The table that has a key of the name, empty if none has.
fn belongs_to(meant: Meant) -> &'static str
    ensures { result.now ≡ belongs_to meant }
{
    match meant {
        Meant::At(section) => section.word(),
        Meant::Key(_) | Meant::Nothing => "",
    }
}

/// The system allows fewer descriptors than so many clients want.
fn few_descriptors(clients: u32, descriptors: Option<u64>) -> Option<Warning<'static>>
    ensures { result ≡ few_descriptors clients descriptors }
{
    let limit = descriptors?;
    if limit < u64::from(clients) + OTHER_DESCRIPTORS {
        Some(warning("few-descriptors", "clients", "", limit))
    } else {
        None
    }
}

/// No other machine reaches the address.
fn only_this_machine(address: &str) -> Option<Warning<'static>>
    ensures { result ≡ only_this_machine address.now }
{
    if is_loopback(address) {
        Some(warning("only-this-machine", "address", "", 0))
    } else {
        None
    }
}

/// The password of this key is empty, or known to everybody.
fn weak_password<'a>(key: &'a str, mount: &'a str, password: &str) -> Option<Warning<'a>>
    ensures { result ≡ weak_password key.now mount.now password.now }
{
    if password.is_empty() {
        Some(warning("empty-password", key, mount, 0))
    } else if is_example(password) {
        Some(warning("example-password", key, mount, 0))
    } else {
        None
    }
}

/// The password of relays is so, if there is one.
fn weak_relay_password(password: &Option<Password>) -> Option<Warning<'static>>
    ensures { result ≡ weak_relay_password password.now }
{
    match password {
        Some(password) => weak_password("relay-password", "", password.as_str()),
        None => None,
    }
}

/// The password of a mount's own source is so, and is not the one of all mounts.
fn weak_mount_password<'a>(source: &str, mount: &'a MountSetting) -> Option<Warning<'a>>
    ensures { result ≡ weak_mount_password source.now mount.now }
{
    let password = mount.options.source.password.as_str();
    if password == source {
        None
    } else {
        weak_password("password", mount.name.as_str(), password)
    }
}

/// Nothing names the fallback of a mount.
fn unknown_fallback<'a>(settings: &Settings, mount: &'a MountSetting) -> Option<Warning<'a>>
    ensures { result ≡ unknown_fallback settings.now mount.now }
{
    match mount.options.listeners.fallback_mount {
        Some(fallback) if !is_named(settings, &fallback) => Some(warning(
            "unknown-fallback",
            "fallback-mount",
            mount.name.as_str(),
            0,
        )),
        Some(_) | None => None,
    }
}

/// The listeners of the mounts that have a limit leave no room for sources and commands.
fn no_room(mounts: &[MountSetting], clients: u32) -> Option<Warning<'static>>
    ensures { result ≡ no_room mounts.now clients }
{
    if limited_listeners(mounts) >= u64::from(clients) {
        Some(warning(
            "no-room-for-others",
            "max-listeners",
            "",
            u64::from(clients),
        ))
    } else {
        None
    }
}
