//! What a relay sends to its master.
ghost use Rattle.std.specs.Prelude.{◌≡◌, ◌++◌, IfOk, OnOk};
ghost use Rattle.std.specs.String.{string_bytes};
ghost use Rattle.radio_heads.specs.Answer.{line, header_line};
ghost use Rattle.radio_relay.specs.Request.{request_text, list_request, request_start, path_text, basic_value, pair_text, login_line, login_lines, host};

use crate::OutOfMemory;
use base64::engine::general_purpose::STANDARD;
use percent_encoding::{AsciiSet, NON_ALPHANUMERIC, ascii_set, percent_encode};
use radio_settings_values::{Login, Master, RelaySetting, SlaveSetting};
use std::alloc::Global;

/// What is written in a path as `%XX`: every byte but letters, digits and `-._~/` (RFC 3986, sections 2.3 and
/// 3.3).
const ESCAPED: AsciiSet = ascii_set!(
    NON_ALPHANUMERIC
        .remove(b'-')
        .remove(b'.')
        .remove(b'_')
        .remove(b'~')
        .remove(b'/')
);

/// The path of a master's list of streams.
const STREAM_LIST: &[u8] = b"/admin/streamlist.txt";

/// The request of a relay for its master's mount, as a listener with metadata (ICY convention, `Icy-MetaData`).
///
/// The only error is `OutOfMemory`.
// rule: Relay request
pub fn request_text(alloc: Global, relay: &RelaySetting) -> Result<Vec<u8>, OutOfMemory>
    ensures { IfOk result (λ text. text.items ≡ request_text relay.now) }
{
    let path = path_text(alloc, relay.mount.as_bytes())?;
    let mut text = Vec::new(alloc);
    push_start(alloc, &mut text, path.as_bytes(), &relay.master)?;
    push_header(&mut text, b"Icy-MetaData", b"1")?;
    push_login_if(alloc, &mut text, &relay.login)?;
    push_line(&mut text, b"")?;
    Ok(text)
}

/// The request of a slave for the list of its master's streams.
///
/// The only error is `OutOfMemory`.
pub fn list_request(alloc: Global, slave: &SlaveSetting) -> Result<Vec<u8>, OutOfMemory>
    ensures { IfOk result (λ text. text.items ≡ list_request slave.now) }
{
    let mut text = Vec::new(alloc);
    push_start(alloc, &mut text, STREAM_LIST, &slave.master)?;
    push_login(alloc, &mut text, &slave.login)?;
    push_line(&mut text, b"")?;
    Ok(text)
}

/// The name of a mount as the path of a request.
fn path_text(alloc: Global, mount: &[u8]) -> Result<String, OutOfMemory>
    ensures { IfOk result (λ text. string_bytes text ≡ path_text mount.now) }
{
    let mut text = String::new(alloc);
    percent_encode(mount, ESCAPED).append_to(&mut text)?;
    Ok(text)
}

/// The request line, and the headers that each request has.
fn push_start(
    alloc: Global,
    text: &mut Vec<u8>,
    path: &[u8],
    master: &Master,
) -> Result<(), OutOfMemory>
    ensures { OnOk result (text.new.items ≡ text.old.items ++ request_start path.now master.now) }
{
    text.extend_from_slice(b"GET ")?;
    text.extend_from_slice(path)?;
    push_line(text, b" HTTP/1.0")?;
    let host = host(alloc, master)?;
    push_header(text, b"Host", host.as_slice())?;
    push_header(text, b"User-Agent", b"radiod")
}

/// The server and its port.
fn host(alloc: Global, master: &Master) -> Result<Vec<u8>, OutOfMemory>
    ensures { IfOk result (λ text. text.items ≡ host master.now) }
{
    let mut text = Vec::from_slice(alloc, master.server.as_bytes())?;
    text.extend_from_slice(b":")?;
    text.extend_from_slice(master.port.get().to_string(alloc)?.as_bytes())?;
    Ok(text)
}

/// The login, if one is sent.
fn push_login_if(
    alloc: Global,
    text: &mut Vec<u8>,
    login: &Option<Login>,
) -> Result<(), OutOfMemory>
    ensures { OnOk result (text.new.items ≡ text.old.items ++ login_lines login.now) }
{
    match login {
        Some(login) => push_login(alloc, text, login),
        None => Ok(()),
    }
}

fn push_login(alloc: Global, text: &mut Vec<u8>, login: &Login) -> Result<(), OutOfMemory>
    ensures { OnOk result (text.new.items ≡ text.old.items ++ login_line login.now) }
{
    let value = basic_value(alloc, login)?;
    push_header(text, b"Authorization", value.as_slice())
}

/// A user and a password as the value of a header `Authorization` (RFC 7617, section 2).
fn basic_value(alloc: Global, login: &Login) -> Result<Vec<u8>, OutOfMemory>
    ensures { IfOk result (λ value. value.items ≡ basic_value login.now) }
{
    let pair = pair_text(alloc, login)?;
    let encoded = STANDARD.encode(alloc, pair.as_slice())?;
    let mut value = Vec::from_slice(alloc, b"Basic ")?;
    value.extend_from_slice(encoded.as_bytes())?;
    Ok(value)
}

/// A user and a password with a colon between them.
fn pair_text(alloc: Global, login: &Login) -> Result<Vec<u8>, OutOfMemory>
    ensures { IfOk result (λ pair. pair.items ≡ pair_text login.now) }
{
    let mut pair = Vec::from_slice(alloc, login.username.as_bytes())?;
    pair.extend_from_slice(b":")?;
    pair.extend_from_slice(login.password.as_bytes())?;
    Ok(pair)
}

fn push_header(text: &mut Vec<u8>, name: &[u8], value: &[u8]) -> Result<(), OutOfMemory>
    ensures { OnOk result (text.new.items ≡ text.old.items ++ header_line name.now value.now) }
{
    text.extend_from_slice(name)?;
    text.extend_from_slice(b": ")?;
    push_line(text, value)
}

fn push_line(text: &mut Vec<u8>, content: &[u8]) -> Result<(), OutOfMemory>
    ensures { OnOk result (text.new.items ≡ text.old.items ++ line content.now) }
{
    text.extend_from_slice(content)?;
    text.extend_from_slice(b"\r\n")
}
