//! Laws: what is true of all that is pulled in, by the definitions that the calls cite.
//!
//! Each law is a function that does nothing, and its contract is the law.
//! A caller that needs a law in a proof calls the function, and cites its clause.
ghost use Rattle.radio_relay.specs.Cuts.{PiecesArePulledAsOne, PullingIsOne};
ghost use Rattle.radio_relay.specs.Laws.{PlainIsSound, WovenIsBare, RelaysLoseNothing};

use radio_heads::{answers_read_back, heads_lie_within, readings_agree, settled};
use radio_icy::laws::{bare_of_woven, cut_streams, titles_of_texts, unwoven_streams};

/// However a master's answer is cut into pieces, the same is pulled in. That is what its head shows, the same sound
/// and titles in the same order, and the same fault, in the piece that has it.
// rule: Pulled stream
pub fn cuts_do_not_matter()
    ensures cuts { PiecesArePulledAsOne }
    ensures one { PullingIsOne }
{
    readings_agree();
    settled();
    heads_lie_within();
    cut_streams();
}

/// The sound that is pulled in is the bare sound of the stream, and the titles are those of its metadata texts, cleaned.
/// Without an interval all is sound.
// rule: Pulled stream
pub fn pulls_are_bare()
    ensures plain { PlainIsSound }
    ensures woven { WovenIsBare }
{
    unwoven_streams();
}

/// What this server sends to a listener with metadata, pulled in by another, is the stream's sound and the titles that
/// were sent: for intervals to 16777216, and titles without `';StreamUrl=` inside. So a relay of a relay loses nothing.
// rule: Pulled stream
pub fn relays_lose_nothing()
    ensures { RelaysLoseNothing }
{
    readings_agree();
    answers_read_back();
    unwoven_streams();
    bare_of_woven();
    titles_of_texts();
}
