//! A user, who has a default, and a password.
ghost use Rattle.toml.specs.View.{table_view};
ghost use Rattle.radio_keys.specs.Reading.{Reads};
ghost use Rattle.radio_settings.specs.Logins.{login_fault, login_of};

use crate::{Key, SettingsFault};
use radio_keys::{required_text, text_or};
use radio_settings_values::Login;
use std::alloc::Global;
use toml::Table;

/// The user at one key, or the default, and the password that must be at another.
#[tactic(auto, unfolding(crate::specs::Logins::login_fault, crate::specs::Logins::login_of))]
pub fn login(
    alloc: Global,
    table: &Table,
    username: Key,
    default: &str,
    password: Key,
) -> Result<Login, SettingsFault>
    ensures { let t = table_view table.now in
        Reads (login_fault username password t) (login_of username password default.now t) result }
{
    Ok(Login {
        username: text_or(alloc, table, username, default)?,
        password: required_text(alloc, table, password)?,
    })
}
