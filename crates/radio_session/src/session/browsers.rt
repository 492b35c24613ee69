//! Commands that a browser may send for the page of another site.

ghost use Rattle.std.specs.Prelude.{◌≡◌, not};
ghost use Rattle.std.specs.Option.{option_copied};
ghost use Rattle.radio_events.specs.declared.command.Asked.{Asked as AskedOf};
ghost use Rattle.radio_session.specs.Browsers.{is_change, is_from_browser, is_other_site, is_own_site, is_refused_pair, may_be_forged, names_language};

use crate::WebAnswers;
use radio_events::{Asked, Command};
use radio_heads::Head;

/// Returns whether the pair of this request does not count. This is so if it asks for a change that the page of another site may
/// have sent, unless the settings allow such commands.
pub(super) fn is_refused_pair(web: WebAnswers, head: &Head, asked: &Asked) -> bool
    ensures { result ≡ is_refused_pair web head.now asked.now }
{
    !web.browser_commands && is_change(asked) && may_be_forged(head)
}

/// Returns whether this is a command that changes something other than a title.
fn is_change(asked: &Asked) -> bool
    ensures { result ≡ is_change asked.now }
{
    match asked {
        Asked::Command(command) => !is_title(command),
        Asked::NoCommand | Asked::MissingArgument(_) | Asked::Listing(_) => false,
    }
}

fn is_title(command: &Command) -> bool
    ensures { is_change (AskedOf.Command command.now) ≡ not result }
{
    matches!(command, Command::SetTitle { .. })
}

/// Returns whether the page of another site may have sent the request.
fn may_be_forged(head: &Head) -> bool
    ensures { result ≡ may_be_forged head.now }
{
    is_other_site(is_from_browser(head), head.value("Sec-Fetch-Site"))
}

/// Returns whether the site that a browser names is another one. If it names none, any request of a browser counts as another
/// site's.
fn is_other_site(from_browser: bool, site: Option<&[u8]>) -> bool
    ensures { result ≡ is_other_site from_browser (option_copied site.entry) }
{
    match site {
        Some(site) => !is_own_site(site),
        None => from_browser,
    }
}

fn is_own_site(site: &[u8]) -> bool
    ensures { result ≡ is_own_site site.now }
{
    site == b"same-origin".as_slice() || site == b"none".as_slice()
}

/// Returns whether a browser sent the request: for a page, whose origin it names, or for its user, whose language it names.
fn is_from_browser(head: &Head) -> bool
    ensures { result ≡ is_from_browser head.now }
{
    head.value("Origin").is_some() || names_language(head.value("Accept-Language"))
}

fn names_language(languages: Option<&[u8]>) -> bool
    ensures { result ≡ names_language (option_copied languages.entry) }
{
    match languages {
        Some(languages) => languages != b"*".as_slice(),
        None => false,
    }
}
