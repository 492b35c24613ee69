//! What no clause says: that calls with ample memory succeed, and what they answer to real clients.

use radio_admin::{AdminFault, Command, OutOfMemory, RawText, read_command, read_path};
use radio_values::MountName;
use std::alloc::Global;

/// A path, a query, and the command or the fault that is read of them, as `shown` writes it.
const ROWS: &[(&[u8], &[u8], &str)] = &[
    (b"/admin/stats", b"", "stats"),
    (b"/admin/listmounts", b"mount=a", "list mounts"),
    (b"/admin/streamlist.txt", b"", "stream list"),
    (b"/admin/listclients", b"mount=%2Fa", "clients /a"),
    (b"/admin/killsource", b"mount=/a&mount=/b", "kill source /a"),
    (b"/admin/killsource", b"mo%75nt=/a", "kill source /a"),
    (
        b"/admin/killsource",
        b"mount=a",
        "missing argument of /admin/killsource",
    ),
    (
        b"/admin/moveclients",
        b"destination=/b&mount=/a",
        "move /a /b",
    ),
    (
        b"/admin/moveclients",
        b"mount=/a",
        "missing argument of /admin/moveclients at /a",
    ),
    (
        b"/admin/killclient",
        b"mount=/a&id=18446744073709551615",
        "kill /a 18446744073709551615",
    ),
    (b"/admin/killclient", b"mount=/a&id=007", "kill /a 7"),
    (
        b"/admin/killclient",
        b"mount=/a&id=184467440737095516150",
        "missing argument of /admin/killclient at /a",
    ),
    (
        b"/admin/killclient",
        b"mount=/z&id=x",
        "missing argument of /admin/killclient at /z",
    ),
    (
        b"/admin/killclient",
        b"mount=/z&id=+7",
        "missing argument of /admin/killclient at /z",
    ),
    (
        b"/admin/fallbacks",
        b"mount=/a&fallback=/b",
        "fallback /a /b",
    ),
    (b"/admin/fallbacks", b"mount=/a&fallback=", "no fallback /a"),
    (
        b"/admin/fallbacks",
        b"mount=/a&fallback=b",
        "missing argument of /admin/fallbacks at /a",
    ),
    (
        b"/admin/fallbacks",
        b"mount=/a",
        "missing argument of /admin/fallbacks at /a",
    ),
    (
        b"/admin/users",
        b"mount=%2Fa&action=add&username=ann&password=",
        "add ann /a",
    ),
    (
        b"/admin/users",
        b"mount=/a&action=delete&username=ann&password=x",
        "delete ann /a",
    ),
    (
        b"/admin/users",
        b"mount=/a&action=add&username=ann",
        "missing argument of /admin/users at /a",
    ),
    (
        b"/admin/users",
        b"mount=/a&action=add&username=a:b&password=x",
        "missing argument of /admin/users at /a",
    ),
    (
        b"/admin/users",
        b"mount=/a&action=set&username=ann&password=x",
        "missing argument of /admin/users at /a",
    ),
    (b"/status.json", b"", "status"),
    (b"/admin/", b"mount=/a", "no command"),
];

/// A query of `/admin/metadata`, and the title that it sets at `/a`; `None` if an argument is missing.
const TITLES: &[(&[u8], Option<&[u8]>)] = &[
    (b"mode=updinfo&mount=/a&song=x", Some(b"x")),
    (
        b"mode=updinfo&mount=%2Fa&charset=UTF-8&song=A%20-%20B",
        Some(b"A - B"),
    ),
    (
        b"mode=updinfo&mount=/a&song=caf%C3%A9+au%2Blait",
        Some(b"caf\xc3\xa9 au+lait"),
    ),
    (
        b"mode=updinfo&mount=/a&song=a%00b'c%22%0D%0A",
        Some(b"a\0b'c\"\r\n"),
    ),
    (b"mode=updinfo&mount=/a&song=%FF%", Some(b"\xef\xbf\xbd%")),
    (b"mode=updinfo&mount=/a&song=", Some(b"")),
    (b"mode=updinfo&mount=/a&song", Some(b"")),
    (b"mode=updinfo&mount=/a&song=x&artist=y&title=z", Some(b"x")),
    (b"mode=updinfo&mount=/a&artist=y&title=z", Some(b"y - z")),
    (b"mode=updinfo&mount=/a&title=z", Some(b"z")),
    (b"mode=updinfo&mount=/a&artist=y", None),
    (b"mode=updinfo&mount=/a", None),
    (b"mount=/a&song=x", None),
    (b"mode=other&mode=updinfo&mount=/a&song=x", None),
];

// rule: No command; Missing argument; First argument
#[test]
fn commands_are_read(rt: HostRuntime) {
    for (path, query, want) in ROWS {
        assert!(rt; is_shown(rt.alloc(), path, query, want));
    }
}

// rule: First argument
#[test]
fn titles_are_read(rt: HostRuntime) {
    for (query, want) in TITLES {
        assert!(rt; sets_title(rt.alloc(), query, *want));
    }
}

// rule: Percent decoding
#[test]
fn paths_are_read(rt: HostRuntime) {
    assert!(rt; is_path_read(rt.alloc()));
}

fn is_path_read(alloc: Global) -> bool {
    match read_path(alloc, b"/%61+b%2g%") {
        Ok(path) => path.as_slice() == b"/a+b%2g%".as_slice(),
        Err(_) => false,
    }
}

/// Whether the command or the fault of the path and the query is shown so.
fn is_shown(alloc: Global, path: &[u8], query: &[u8], want: &str) -> bool {
    match shown(alloc, path, query) {
        Ok(got) => got.as_str() == want,
        Err(_) => false,
    }
}

fn sets_title(alloc: Global, query: &[u8], want: Option<&[u8]>) -> bool {
    match read_command(alloc, b"/admin/metadata", query) {
        Ok(command) => is_title(&command, want),
        Err(fault) => want.is_none() && lacks_argument(&fault),
    }
}

/// Whether the command sets this title at `/a`.
fn is_title(command: &Command, want: Option<&[u8]>) -> bool {
    match (command, want) {
        (Command::Metadata(asked), Some(title)) => asked.mount.as_bytes() == b"/a".as_slice()
            && asked.title.as_bytes() == title,
        _ => false,
    }
}

/// Whether an argument is missing of a command that names `/a`.
fn lacks_argument(fault: &AdminFault) -> bool {
    match fault {
        AdminFault::MissingArgument(_, Some(mount)) => mount.as_bytes() == b"/a".as_slice(),
        _ => false,
    }
}

fn shown(alloc: Global, path: &[u8], query: &[u8]) -> Result<String, OutOfMemory> {
    match read_command(alloc, path, query) {
        Ok(command) => shown_command(alloc, &command),
        Err(fault) => shown_fault(alloc, &fault),
    }
}

fn shown_fault(alloc: Global, fault: &AdminFault) -> Result<String, OutOfMemory> {
    match fault {
        AdminFault::MissingArgument(kind, Some(mount)) => format!(in alloc;
            "missing argument of {kind} at {mount}"
        ),
        fault => format!(in alloc; "{fault}"),
    }
}

fn shown_command(alloc: Global, command: &Command) -> Result<String, OutOfMemory> {
    match command {
        Command::Status => "status".to_string(alloc),
        Command::Stats => "stats".to_string(alloc),
        Command::ListMounts => "list mounts".to_string(alloc),
        Command::StreamList => "stream list".to_string(alloc),
        Command::ListClients(mount) => shown_at(alloc, "clients", mount),
        Command::KillSource(mount) => shown_at(alloc, "kill source", mount),
        Command::Metadata(asked) => shown_at(alloc, "title", &asked.mount),
        Command::MoveClients(asked) => shown_to(alloc, "move", &asked.mount, &asked.destination),
        Command::KillClient(asked) => shown_kill(alloc, &asked.mount, asked.id),
        Command::Fallbacks(asked) => shown_fallback(alloc, &asked.mount, &asked.fallback),
        Command::AddUser(asked) => shown_user(alloc, "add", &asked.user, &asked.mount),
        Command::DeleteUser(asked) => shown_user(alloc, "delete", &asked.user, &asked.mount),
    }
}

fn shown_at(alloc: Global, words: &str, mount: &MountName) -> Result<String, OutOfMemory> {
    format!(in alloc; "{words} {mount}")
}

fn shown_to(
    alloc: Global,
    words: &str,
    mount: &MountName,
    other: &MountName,
) -> Result<String, OutOfMemory> {
    format!(in alloc; "{words} {mount} {other}")
}

fn shown_kill(alloc: Global, mount: &MountName, id: u64) -> Result<String, OutOfMemory> {
    format!(in alloc; "kill {mount} {id}")
}

fn shown_fallback(
    alloc: Global,
    mount: &MountName,
    fallback: &Option<MountName>,
) -> Result<String, OutOfMemory> {
    match fallback {
        Some(fallback) => shown_to(alloc, "fallback", mount, fallback),
        None => shown_at(alloc, "no fallback", mount),
    }
}

fn shown_user(
    alloc: Global,
    words: &str,
    user: &RawText,
    mount: &MountName,
) -> Result<String, OutOfMemory> {
    match std::str::from_utf8(user.as_bytes()) {
        Ok(user) => format!(in alloc; "{words} {user} {mount}"),
        Err(_) => shown_at(alloc, words, mount),
    }
}
