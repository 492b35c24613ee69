//! Connections of proxies that end before a client has arrived, as the log has them.

ghost use Rattle.std.specs.Prelude.{◌≡◌};
ghost use Rattle.radio_sockets.specs.Gone.{gone, gone_word};

use radio_addr::Peer;
use radio_log::{ClientEnded, QuotedText};
use radio_proxy::HeaderOutcome;

/// Returns the word for the end of a connection whose header was awaited and has not come.
pub(crate) fn gone_word(outcome: HeaderOutcome) -> &'static str
    ensures { result.now ≡ gone_word outcome }
{
    match outcome {
        HeaderOutcome::Bad => "bad-proxy",
        HeaderOutcome::Named(_) | HeaderOutcome::Left => "left",
    }
}

/// Returns what the log has of a connection of this proxy that was there for so many seconds and has asked for nothing.
pub(crate) fn gone(proxy: Peer, why: &str, seconds: u64) -> ClientEnded<'_>
    ensures { result ≡ gone proxy why.now seconds }
{
    ClientEnded {
        peer: proxy,
        method: QuotedText::of(b""),
        path: QuotedText::of(b""),
        mount: QuotedText::of(b""),
        status: 0,
        why: QuotedText::of(why.as_bytes()),
        user: QuotedText::of(b""),
        seconds,
        bytes: 0,
        agent: QuotedText::of(b""),
    }
}
