//! Laws on readings, which run no code.
ghost use Rattle.radio_heads.specs.Head.{ShowsRequest};
ghost use Rattle.radio_heads.specs.Response.{ShowsResponse};
ghost use Rattle.radio_heads.specs.Laws.{ReadingsAgree, IsStableReading, HeadsLieWithin, FrontsAreUnfinished, RequestsAreFound, ResponsesAreFound};
ghost use Rattle.radio_heads.specs.declared.additions.Additions.{Additions};
ghost use Rattle.radio_heads.specs.AdditionLaws.{AdditionsAreReadBack};
ghost use Rattle.radio_heads.specs.WebLaws.{IsUnchanged, WebAnswersAreReadBack};
ghost use Rattle.radio_heads.specs.Laws.{ListenerIsReadBack, ShortListenerIsReadBack, DenialIsReadBack, TextIsReadBack};

/// Two readings of the same bytes are equal, or both are faults.
// rule: Grammar of heads
pub fn readings_agree()
    ensures requests { ReadingsAgree ShowsRequest }
    ensures responses { ReadingsAgree ShowsResponse }
{}

/// Once a reading is not `More`, more bytes change nothing.
// rule: Longest head
pub fn settled()
    ensures requests { IsStableReading ShowsRequest }
    ensures responses { IsStableReading ShowsResponse }
{}

/// A front of bytes whose reading is `More` gives `More` too.
pub fn fronts_are_unfinished()
    ensures { FrontsAreUnfinished }
{}

/// A head lies within the bytes that it was read from.
pub fn heads_lie_within()
    ensures requests { HeadsLieWithin ShowsRequest }
    ensures responses { HeadsLieWithin ShowsResponse }
{}

/// The rule for ends loses no head of the grammar: one at the front, of at most 64 headers and 8192
/// bytes, is a head to a reading, whatever follows it.
// rule: Grammar of heads
pub fn heads_are_found()
    ensures requests { RequestsAreFound }
    ensures responses { ResponsesAreFound }
{}

/// What `write_answer` writes for a listener, a denial or a text is read back with that status and
/// those headers, whatever bytes follow it. A listener's values come back without the white space
/// at their ends. For a listener this holds if the values have no control bytes but tabs, and the
/// head has at most 8192 bytes or no value has more than 255.
// rule: Answers are read back
pub fn answers_read_back()
    ensures listener { ListenerIsReadBack }
    ensures short { ShortListenerIsReadBack }
    ensures denial { DenialIsReadBack }
    ensures text { TextIsReadBack }
{}

/// Where nothing is said of origins, `write_web_answer` writes a stream and a text as `write_answer` does.
// rule: Answers are read back
pub fn unsaid_origins_change_nothing()
    ensures { IsUnchanged }
{}

/// What `write_web_answer` writes is read back with its headers, whatever bytes follow it. The policy must have at most
/// 4096 bytes and each other value at most 255. Values come back without the white space at their ends.
// rule: Answers are read back
pub fn web_answers_read_back()
    ensures { WebAnswersAreReadBack }
{}

/// What `add_headers` makes of an answer is read back with the headers that were added, and its own behind them, whatever
/// bytes follow it, with the same bounds.
// rule: Cache control; Sandboxed streams
pub fn additions_read_back()
    ensures { (additions : Additions) → AdditionsAreReadBack additions }
{}
