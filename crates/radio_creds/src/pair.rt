//! A user and a password.
ghost use Rattle.std.specs.Prelude.{◌≡◌, IfOk, length};
ghost use Rattle.std.specs.Option.{option_map};
ghost use Rattle.radio_texts.specs.Cuts.{cut as cut_at};
ghost use Rattle.radio_creds.specs.Credentials.{credentials_of};

use crate::OutOfMemory;
use radio_texts::cut;
use radio_texts::laws::cuts;
use std::fmt;
use std::marker::Model;

/// A user and a password, as bytes: who asks, and what shows that it is them.
pub struct Pair {
    text: Vec<u8>,
    colon: usize,
}

impl Drop for Pair {
    fn drop(self) {
        let Pair { text, colon: _ } = self;
        drop(text);
    }
}

impl Model for Pair {
    ghost use Rattle.std.specs.Prelude.{◌+◌, ◌<◌, length, take, drop};
    ghost use Rattle.radio_creds.specs.Credentials.{Credentials};

    ghost Value = { Credentials };

    ghost view = { λ a. record { user = take a.colon a.text.items; password = drop (a.colon + 1) a.text.items } };

    ghost invariant = { λ a. a.colon < length a.text.items };
}

impl Pair {
    /// The pair of a text `user:password`, which is cut at its first colon. `None` if it has no colon.
    pub(crate) fn of_text(text: Vec<u8>) -> Option<Pair>
        ensures { result ≡ credentials_of text.items }
    {
        cuts();
        let colon = front_len(text.as_slice())?;
        Some(Pair { text, colon })
    }

    /// Another pair of the same user and the same password. `Err` if there is no memory for it.
    pub fn copy(&self) -> Result<Pair, OutOfMemory>
        ensures { IfOk result (λ copy. copy ≡ self.now) }
    {
        let text = self.text.clone()?;
        Ok(Pair {
            text,
            colon: self.colon,
        })
    }

    /// The user. It may be empty, and need not be text in UTF-8.
    pub fn user(&self) -> &[u8]
        ensures { result.now ≡ self.now.user }
    {
        let (user, _) = self.text.as_slice().split_at(self.colon);
        user
    }

    /// The password. It may be empty, have colons, and need not be text in UTF-8.
    pub fn password(&self) -> &[u8]
        ensures { result.now ≡ self.now.password }
    {
        let (_, password) = self.text.as_slice().split_at(self.colon + 1);
        password
    }
}

/// Returns how many bytes are before the first colon.
fn front_len(text: &[u8]) -> Option<usize>
    ensures { result ≡ option_map (λ parts. length parts.0) (cut_at 58 text.now) }
{
    let (front, _) = cut(text, b':')?;
    Some(front.len())
}

/// Shows neither the user nor the password.
impl fmt::Debug for Pair {
    fn fmt<W: fmt::Write>(&self, f: &mut fmt::Formatter<W>) -> fmt::Result {
        f.write_str("Pair { .. }")
    }
}
