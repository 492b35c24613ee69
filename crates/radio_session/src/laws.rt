//! Laws on sessions. They run no code.

ghost use Rattle.std.specs.Prelude.{◌≡◌, codes};
ghost use Rattle.radio_events.specs.Endings.{ending_word};
ghost use Rattle.radio_events.specs.declared.state.Ending.TheVariants.{Done};
ghost use Rattle.radio_session.specs.LastWords.{DenialsNameTheirRule, RulesWithoutStatusAreSilent, LateDenialsAreSilent, FinishesAreSilent, DoneCommandsAreAnswered};
ghost use Rattle.radio_session.specs.LastWords.{RefusalsNameTheirRule, WholeBodiesAreDone, FaultyBodiesAreSilent};
ghost use Rattle.radio_session.specs.Bodies.{PlainBodiesAreHeard, SizedBodiesAreHeard, ChunkedBodiesAreHeard, FaultyBodiesAreHeard};
ghost use Rattle.radio_session.specs.Greetings.{WhoWaitsIsToldToGoOn, NobodyElseIsToldToGoOn};
ghost use Rattle.radio_session.specs.Cuts.{CutsDoNotMatter, PiecesAreHeardAsOne};
ghost use Rattle.radio_session.specs.CutTelling.{CutsAreToldAlike, PiecesAreToldAsOne};
ghost use Rattle.radio_session.specs.Told.{DrawsFollowTheHead, PlainDrawsAreTheirData, JoinedDrawsAreWoven, DrawsAreTakenOutAgain};
ghost use Rattle.radio_session.specs.SentTitles.{TitlesAreSentInTime, NoTitleIsRepeated};
ghost use Rattle.radio_session.specs.Laws.{HearingIsOne, HearingFailsNothing, TellingFailsNothing};

use radio_blocks::laws::blocks_are_the_data;
use radio_events::Server;
use radio_heads::{heads_lie_within, readings_agree, settled};
use radio_icy::laws::{bare_of_woven, unwoven_streams, woven_streams};
use radio_source::laws::{
    pieces_are_joined, plain_bodies, sized_bodies, whole_bodies_are_complete,
};

/// The events of a source's whole body are its data and, if the body has an end, that end (RFC 9112, section 6). No
/// byte of its framing is data. A body with a fault ends by that fault.
// rule: Framing; End of a body
pub fn bodies_are_heard_as_their_data()
    ensures plain { PlainBodiesAreHeard }
    ensures sized { SizedBodiesAreHeard }
    // the data of the chunks, and nothing of their lines and trailers
    ensures chunked { ChunkedBodiesAreHeard }
    // with a byte that no chunked body has there, the body ends by a fault
    ensures faulty { FaultyBodiesAreHeard }
{
    plain_bodies();
    sized_bodies();
    whole_bodies_are_complete();
}

/// An admitted source that waits for `100 Continue` gets that first (RFC 9110, section 10.1.1). Each other source
/// gets the answer that it is admitted.
// rule: Greeting of a source
pub fn who_waits_is_told_to_go_on()
    ensures waits { WhoWaitsIsToldToGoOn }
    ensures other { NobodyElseIsToldToGoOn }
{}

/// However a connection's bytes are cut into pieces, they mean the same head, the same data and the same events. Only
/// the cuts between blocks may differ.
// rule: Cuts do not matter
pub fn cuts_do_not_matter()
    // in two cuttings of the same bytes
    ensures alike { CutsDoNotMatter }
    // in pieces, and in one
    ensures as_one { PiecesAreHeardAsOne }
{
    readings_agree();
    settled();
    heads_lie_within();
    blocks_are_the_data();
    pieces_are_joined();
}

/// However a connection's bytes are cut into pieces, the server writes the same bytes to it, and shuts it with the
/// same word. This holds if nothing else happens between the pieces, and the server's replies depend on a source's
/// data, not on its cuts into blocks. The connection takes no piece once it is shut.
// rule: Cuts do not matter
pub fn cuts_are_told_alike<S: Server>()
    // in two cuttings of the same bytes
    ensures alike { CutsAreToldAlike S.steps }
    // in pieces, and in one
    ensures as_one { PiecesAreToldAsOne S.steps }
{
    readings_agree();
    settled();
    heads_lie_within();
    blocks_are_the_data();
    pieces_are_joined();
}

/// The bytes of a connection have one meaning: one list of events.
pub fn hearing_is_one()
    ensures { HearingIsOne }
{
    readings_agree();
}

/// A session fails only by a call that is refused memory.
pub fn only_refused_calls_fail()
    ensures read { HearingFailsNothing }
    ensures written { TellingFailsNothing }
{}

/// A connection is shut with the word of the rule that ended it, or with `done` if none did. If an answer of that
/// rule precedes the end, it names the rule and has the rule's status.
// rule: Bad head; Bad method; Finishes are silent; Answer to a denial; Commands by GET; Greeting of a source
// rule: End of a body
pub fn last_words_name_the_rule()
    // a denial of the request is an answer that names the rule
    ensures denied { DenialsNameTheirRule }
    // there is no answer if the rule has no status
    ensures no_status { RulesWithoutStatusAreSilent }
    // nor if a source or a listener was admitted before
    ensures denied_late { LateDenialsAreSilent }
    // a client that a rule finished gets nothing
    ensures finished { FinishesAreSilent }
    // a command that was done gets an answer of its text, and the word is `done`
    ensures command { DoneCommandsAreAnswered }
    // the connection's own refusal is an answer that names the rule
    ensures refused { RefusalsNameTheirRule }
    // a whole body ends with `done`, and a body with a fault ends silently with `bad-body`
    ensures whole { WholeBodiesAreDone }
    ensures faulty { FaultyBodiesAreSilent }
    // `done` is the word if no rule ended the connection
    ensures done { ending_word Done ≡ codes "done" }
{}

/// A listener's head is followed by the data of its draws. If the head names an interval, a metadata block follows
/// each interval of the data.
// rule: Metadata interval; Metadata count
pub fn listeners_are_told_what_they_draw()
    // the joined data of the draws follow the head
    ensures joined { DrawsFollowTheHead }
    // they are the data alone if the head names no interval
    ensures plain { PlainDrawsAreTheirData }
    // if it names one, they are woven: each block has the title of the draw that ended its interval
    ensures woven { JoinedDrawsAreWoven }
    // that title is then the last one sent, and none is sent twice in a row
    ensures in_time { TitlesAreSentInTime }
    ensures not_repeated { NoTitleIsRepeated }
    // with the metadata taken out, they are the data and the texts of the titles sent
    ensures taken_out { DrawsAreTakenOutAgain }
{
    woven_streams();
    bare_of_woven();
    unwoven_streams();
}
