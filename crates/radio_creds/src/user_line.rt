//! A line of a user list.
ghost use Rattle.std.specs.Prelude.{◌≡◌};
ghost use Rattle.std.specs.Option.{option_map};
ghost use Rattle.radio_creds.specs.UserLine.{user_line};

use crate::digest::{PasswordDigest, read_digest};
use radio_texts::cut;

/// The user and the digest of a line `user:digest`, which is cut at its first colon.
///
/// `None` for a line of another form, and for one that begins with `#`.
#[tactic(auto, unfolding(crate::specs::UserLine::user_line))]
pub(crate) fn user_line(line: &[u8]) -> Option<(&[u8], PasswordDigest)>
    ensures { option_map (λ listed. (listed.0.now, listed.1)) result ≡ user_line line.now }
{
    if line.starts_with(b"#") {
        return None;
    }
    let Some((user, digits)) = cut(line, b':') else {
        return None;
    };
    match read_digest(digits) {
        Some(digest) => Some((user, digest)),
        None => None,
    }
}
