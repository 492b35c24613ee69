//! What no clause says: that calls with ample memory succeed, and what they write of worked rows.

use radio_addr::Peer;
use radio_listing::{
    AboutRow, ListedListener, ListedServer, ListedText, MountRow, OutOfMemory, PublicRow, base_url,
    icecast_status, list_clients, list_mounts, stats, status, stream_list,
};
use std::alloc::Global;

fn about<'a>(
    description: &'a [u8],
    url: &'a [u8],
    bitrate: &'a [u8],
    audio_info: &'a [u8],
) -> AboutRow<'a> {
    AboutRow {
        description: ListedText::of(description),
        url: ListedText::of(url),
        bitrate: ListedText::of(bitrate),
        audio_info: ListedText::of(audio_info),
    }
}

fn mount<'a>(name: &'a [u8], title: &'a [u8], hidden: bool) -> MountRow<'a> {
    mount_with(name, title, hidden, about(b"", b"", b"", b""))
}

/// A mount whose stream says this of itself.
fn mount_with<'a>(
    name: &'a [u8],
    title: &'a [u8],
    hidden: bool,
    about: AboutRow<'a>,
) -> MountRow<'a> {
    let public = PublicRow {
        mount: ListedText::of(name),
        name: ListedText::of(b""),
        genre: ListedText::of(b""),
        content_type: ListedText::of(b"audio/mpeg"),
        title: ListedText::of(title),
        listeners: 1,
        about,
    };
    MountRow {
        public,
        hidden,
        session: 1,
        fallback: None,
    }
}

/// Whether a listing was written, and is this one.
fn is_written(listing: Result<Vec<u8>, OutOfMemory>, want: &[u8]) -> bool {
    match listing {
        Ok(bytes) => bytes.as_slice() == want,
        Err(_) => false,
    }
}

/// What everybody may see of `/a`.
const SHOWN: &[u8] =
    br#"{"mounts":[{"genre":"","listeners":1,"mount":"/a","name":"","title":"X","type":"audio/mpeg"}]}"#;

#[test]
fn public_listings_are_written(rt: HostRuntime) {
    let rows = [mount(b"/a", b"X", false), mount(b"/h", b"", true)];
    assert!(rt; is_written(status(rt.alloc(), &rows), SHOWN));
    assert!(rt; is_written(stream_list(rt.alloc(), &rows), b"/a\r\n"));
}

/// A title with characters that JSON escapes, one that it does not, and bytes that are no text.
const ODD_TITLE: &[u8] = b"\"\\\t\xe2\x80\xa8\xe2\x80";

/// What everybody may see of `/b` with that title.
const ODD_SHOWN: &[u8] =
    b"{\"mounts\":[{\"genre\":\"\",\"listeners\":1,\"mount\":\"/b\",\"name\":\"\",\"title\":\"\\\"\\\\\\t\xe2\x80\xa8\xef\xbf\xbd\",\"type\":\"audio/mpeg\"}]}";

#[test]
fn odd_titles_are_written(rt: HostRuntime) {
    let rows = [mount(b"/b", ODD_TITLE, false)];
    assert!(rt; is_written(status(rt.alloc(), &rows), ODD_SHOWN));
    assert!(rt; is_written(status(rt.alloc(), &[]), br#"{"mounts":[]}"#));
}

/// What the admin may see of `/h`, and of the mounts.
const STATS: &[u8] =
    br#"{"clients":2,"listeners":1,"mounts":[{"genre":"","hidden":true,"listeners":1,"mount":"/h","name":"","session":1,"title":"","type":"audio/mpeg"}],"sources":1}"#;

const MOUNTS: &[u8] = br#"{"mounts":[{"fallback":"","hidden":true,"listeners":1,"mount":"/h"}]}"#;

// rule: List of mounts
#[test]
fn admin_listings_are_written(rt: HostRuntime) {
    let rows = [mount(b"/h", b"", true)];
    assert!(rt; is_written(stats(rt.alloc(), 2, &rows), STATS));
    assert!(rt; is_written(list_mounts(rt.alloc(), &rows), MOUNTS));
}

/// What the admin may see of two listeners.
const LISTENERS: &[u8] =
    b"{\"listeners\":[{\"home\":\"/a\",\"id\":3,\"mount\":\"/a\",\"peer\":\"10.0.0.3\",\"seconds\":0,\"user\":\"\"},{\"home\":\"/b\",\"id\":4,\"mount\":\"/a\",\"peer\":\"0:0:0:0:0:0:0:1\",\"seconds\":9,\"user\":\"\xef\xbf\xbd\"}],\"mount\":\"/a\"}";

#[test]
fn listeners_are_written(rt: HostRuntime) {
    let quad = ListedListener {
        home: ListedText::of(b"/a"),
        id: 3,
        peer: Peer::of_v4(0x0a00_0003),
        seconds: 0,
        user: None,
    };
    let groups = ListedListener {
        home: ListedText::of(b"/b"),
        id: 4,
        peer: Peer::of_v6(1),
        seconds: 9,
        user: Some(ListedText::of(b"\xff")),
    };
    let listing = list_clients(rt.alloc(), &ListedText::of(b"/a"), &[quad, groups]);
    assert!(rt; is_written(listing, LISTENERS));
}

fn server<'a>(base_url: &'a [u8], start: &'a [u8]) -> ListedServer<'a> {
    ListedServer {
        name: ListedText::of(b"radiod"),
        base_url: ListedText::of(base_url),
        start: ListedText::of(start),
    }
}

/// What Icecast's status has of no source, of one, and of two.
const NO_SOURCE: &[u8] = br#"{"icestats":{"server_id":"radiod","source":[]}}"#;

const ONE_SOURCE: &[u8] =
    br#"{"icestats":{"server_id":"radiod","source":{"genre":"","listeners":1,"listenurl":"http://r:8000/a","server_name":"","server_type":"audio/mpeg","title":"X"}}}"#;

const TWO_SOURCES: &str =
    "{\"icestats\":{\"server_id\":\"radiod\",\"source\":[{\"genre\":\"\",\"listeners\":1,\"listenurl\":\"http://r/a\",\"server_name\":\"\",\"server_type\":\"audio/mpeg\",\"title\":\"\u{fffd}\\\"\"},{\"genre\":\"\",\"listeners\":1,\"listenurl\":\"http://r/b c\",\"server_name\":\"\",\"server_type\":\"audio/mpeg\",\"title\":\"\"}]}}";

#[test]
fn icecast_listings_are_written(rt: HostRuntime) {
    let server = server(b"http://r:8000", b"");
    let rows = [mount(b"/a", b"X", false), mount(b"/h", b"", true)];
    assert!(rt; is_written(icecast_status(rt.alloc(), &server, &[]), NO_SOURCE));
    assert!(rt; is_written(icecast_status(rt.alloc(), &server, &rows), ONE_SOURCE));
}

/// Icecast's status of a server that says when it started, and of a source with a bit rate and more, one with parts of these.
const WITH_MORE: &[u8] =
    br#"{"icestats":{"server_id":"radiod","server_start_iso8601":"2026-11-25T08:43:49+0000","source":[{"audio_info":"bitrate=128;channels=2","bitrate":128,"genre":"","listeners":1,"listenurl":"http://r/a","server_description":"Talk","server_name":"","server_type":"audio/mpeg","server_url":"https://r.example/","title":""},{"bitrate":"0128","genre":"","listeners":1,"listenurl":"http://r/b","server_name":"","server_type":"audio/mpeg","title":""},{"bitrate":"Quality 5","genre":"","listeners":1,"listenurl":"http://r/c","server_name":"","server_type":"audio/mpeg","title":""}]}}"#;

#[test]
fn icecast_tells_what_streams_say_of_themselves(rt: HostRuntime) {
    let server = server(b"http://r", b"2026-11-25T08:43:49+0000");
    let whole = about(
        b"Talk",
        b"https://r.example/",
        b"128",
        b"bitrate=128;channels=2",
    );
    let rows = [
        mount_with(b"/a", b"", false, whole),
        mount_with(b"/b", b"", false, about(b"", b"", b"0128", b"")),
        mount_with(b"/c", b"", false, about(b"", b"", b"Quality 5", b"")),
    ];
    assert!(rt; is_written(icecast_status(rt.alloc(), &server, &rows), WITH_MORE));
}

#[test]
fn other_listings_say_nothing_more(rt: HostRuntime) {
    let whole = about(b"Talk", b"https://r.example/", b"128", b"");
    let rows = [mount_with(b"/a", b"X", false, whole)];
    assert!(rt; is_written(status(rt.alloc(), &rows), SHOWN));
}

#[test]
fn icecast_lists_are_written(rt: HostRuntime) {
    let rows = [mount(b"/a", b"\xff\"", false), mount(b"/b c", b"", false)];
    let listing = icecast_status(rt.alloc(), &server(b"http://r", b""), &rows);
    assert!(rt; is_written(listing, TWO_SOURCES.as_bytes()));
}

/// A `Host`, the address where the server listens, and where it is reached; the port is 8000.
const REACHED: &[(&[u8], &[u8], &[u8])] = &[
    (b"radio.example", b"0.0.0.0", b"http://radio.example"),
    (b"Radio.Example:80", b"0.0.0.0", b"http://Radio.Example:80"),
    (b"[2001:db8::1]:8000", b"::", b"http://[2001:db8::1]:8000"),
    (b"", b"127.0.0.1", b"http://127.0.0.1:8000"),
    (b"", b"::1", b"http://[::1]:8000"),
    (b"", b"", b"http://:8000"),
    (b"a\"b/<script>\r\n\xc3\xa9", b"0.0.0.0", b"http://abscript"),
    (b"\"\\ \t", b"10.0.0.1", b"http://10.0.0.1:8000"),
];

fn is_reached(alloc: Global, host: &[u8], address: &[u8], want: &[u8]) -> bool {
    match base_url(alloc, host, address, 8000) {
        Ok(url) => url.as_slice() == want,
        Err(_) => false,
    }
}

// rule: Address of a stream
#[test]
fn servers_are_reached(rt: HostRuntime) {
    for (host, address, want) in REACHED {
        assert!(rt; is_reached(rt.alloc(), host, address, want));
    }
}

fn has_length(alloc: Global, host: &[u8], length: usize) -> bool {
    match base_url(alloc, host, b"", 0) {
        Ok(url) => url.len() == length,
        Err(_) => false,
    }
}

#[test]
fn long_hosts_are_cut(rt: HostRuntime) {
    assert!(rt; has_length(rt.alloc(), &[b'a'; 255], 262));
    assert!(rt; has_length(rt.alloc(), &[b'a'; 300], 262));
}
