//! What is noted of a connection, and which lines it has in the log.

use radio_addr::Peer;
use radio_notes::{Account, Log, ReplyNote};
use std::alloc::Global;

/// The account of a connection that came two seconds ago, and was replied to so.
fn account_of(alloc: Global, note: ReplyNote) -> Account {
    let account = Account::new(alloc, 1000);
    account.note_reply(note);
    account
}

/// Whether a client that is gone, to which this was replied, has so many lines with this word, however often the account
/// writes it.
fn has_lines(alloc: Global, log: &Log, account: &Account, word: &str, count: usize) -> bool {
    let peer = Peer::of_v4(0x7f00_0001);
    account.log_source_gone(log, peer, 3000);
    account.log_source_gone(log, peer, 3000);
    account.log_client_ended(log, peer, 3000);
    account.log_client_ended(log, peer, 3000);
    lines_with(log.take().as_slice(), word) == count
}

/// How many lines of a text have this word; none if it is no text.
fn lines_with(bytes: &[u8], word: &str) -> usize {
    let Ok(text) = str::from_utf8(bytes) else {
        return 0;
    };
    let mut count = 0usize;
    for line in text.lines() {
        if line.contains(word) {
            count = count.saturating_add(1);
        }
    }
    count
}

// rule: Line of a client
// only tested: Line of a client: that a worker notes each thing
#[test]
fn a_source_is_logged_once(rt: HostRuntime) {
    let alloc = rt.alloc();
    let log = Log::new(alloc);
    let account = account_of(alloc, ReplyNote::Feeding);
    assert!(rt; has_lines(alloc, &log, &account, "source-gone", 1));
}

// rule: Line of a client
#[test]
fn the_first_end_is_logged(rt: HostRuntime) {
    let alloc = rt.alloc();
    let log = Log::new(alloc);
    let account = account_of(alloc, ReplyNote::Seated);
    account.note_no_memory();
    account.note_stalled();
    assert!(rt; has_lines(alloc, &log, &account, "why=out-of-memory", 1));
}

#[test]
fn polls_may_be_left_out(rt: HostRuntime) {
    let alloc = rt.alloc();
    let log = Log::new(alloc);
    let shown = account_of(alloc, ReplyNote::Shown);
    let logged = account_of(alloc, ReplyNote::Shown);
    assert!(rt; has_lines(alloc, &log, &logged, "why=left", 1));
    log.leave_out_polls();
    assert!(rt; has_lines(alloc, &log, &shown, "why=", 0));
}
