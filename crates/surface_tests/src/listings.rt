//! Listings of one mount, and the command of a target.

use radio_addr::Peer;
use radio_admin::{AdminFault, CommandKind, read_command, read_path};
use radio_listing::{
    AboutRow, ListedListener, ListedText, MountRow, OutOfMemory, PublicRow, list_clients,
    list_mounts, stats, status, stream_list,
};
use radio_settings::MountName;
use std::alloc::{AllocGlobal, Global};

/// The mount `/a` with a listener.
fn row<'a>() -> MountRow<'a> {
    MountRow {
        public: PublicRow {
            mount: ListedText::of(b"/a"),
            name: ListedText::of(b""),
            genre: ListedText::of(b""),
            content_type: ListedText::of(b"audio/mpeg"),
            title: ListedText::of(b"X"),
            listeners: 1,
            about: AboutRow {
                description: ListedText::of(b""),
                url: ListedText::of(b""),
                bitrate: ListedText::of(b""),
                audio_info: ListedText::of(b""),
            },
        },
        hidden: false,
        session: 1,
        fallback: None,
    }
}

const STATUS: &[u8] =
    br#"{"mounts":[{"genre":"","listeners":1,"mount":"/a","name":"","title":"X","type":"audio/mpeg"}]}"#;

const STATS: &[u8] =
    br#"{"clients":2,"listeners":1,"mounts":[{"genre":"","hidden":false,"listeners":1,"mount":"/a","name":"","session":1,"title":"X","type":"audio/mpeg"}],"sources":1}"#;

const MOUNTS: &[u8] = br#"{"mounts":[{"fallback":"","hidden":false,"listeners":1,"mount":"/a"}]}"#;

const CLIENTS: &[u8] =
    br#"{"listeners":[{"home":"/a","id":2,"mount":"/a","peer":"10.0.0.2","seconds":0,"user":""}],"mount":"/a"}"#;

/// Whether a listing was written, and is this one.
fn is_written(listing: Result<Vec<u8>, OutOfMemory>, want: &[u8]) -> bool {
    match listing {
        Ok(bytes) => bytes.as_slice() == want,
        Err(_) => false,
    }
}

/// Whether the listener of the mount is listed.
fn is_listed(alloc: Global) -> bool {
    let listener = ListedListener {
        home: ListedText::of(b"/a"),
        id: 2,
        peer: Peer::of_v4(0x0a00_0002),
        seconds: 0,
        user: None,
    };
    is_written(
        list_clients(alloc, &ListedText::of(b"/a"), &[listener]),
        CLIENTS,
    )
}

#[test]
fn listings_of_a_mount(rt: HostRuntime) {
    let rows = [row()];
    assert!(rt; is_written(status(rt.alloc(), &rows), STATUS));
    assert!(rt; is_written(stats(rt.alloc(), 2, &rows), STATS));
    assert!(rt; is_written(list_mounts(rt.alloc(), &rows), MOUNTS));
    assert!(rt; is_written(stream_list(rt.alloc(), &rows), b"/a\r\n"));
    assert!(rt; is_listed(rt.alloc()));
}

/// Whether a target is read as the end of the session at `/a`.
fn is_command(alloc: Global, path: &[u8], query: &[u8]) -> bool {
    match read_command(alloc, path, query) {
        Ok(command) => {
            let mount = command.mount();
            let is_end = command.kind() == CommandKind::KillSource;
            drop(command);
            is_end && mount == MountName::read(b"/a")
        }
        Err(_) => false,
    }
}

/// Whether the fault has the words of a path without a command.
fn has_words(alloc: Global, fault: &AdminFault) -> Result<bool, OutOfMemory> {
    let text = format!(in alloc; "{fault}")?;
    Ok(text.as_str() == "no command")
}

/// Whether a path without a command has that fault, and its words.
fn is_none(alloc: Global) -> bool {
    match read_command(alloc, b"/admin/none", b"") {
        Ok(command) => {
            drop(command);
            false
        }
        Err(fault) => { fault == AdminFault::NoCommand && has_words(alloc, &fault) == Ok(true) }
    }
}

fn is_path(alloc: Global) -> Result<bool, OutOfMemory> {
    let path = read_path(alloc, b"/admin/kill%73ource")?;
    Ok(is_command(alloc, path.as_slice(), b"mount=%2Fa"))
}

#[test]
fn commands_of_targets(rt: HostRuntime) {
    assert!(rt; is_path(rt.alloc()) == Ok(true));
    assert!(rt; is_none(rt.alloc()));
}
