//! User lists.
ghost use Rattle.std.specs.Prelude.{◌≡◌, ◌↔◌, IsTrue, IfOk, OnOk, OnErr};
ghost use Rattle.std.specs.FinMap as finite;
ghost use Rattle.std.specs.Option.{option_copied};
ghost use Rattle.radio_creds.specs.UserLine.{user_line};
ghost use Rattle.radio_creds.specs.UserList.{Accepts, has_user, users_of, with_line, with_user, without_user};

use crate::OutOfMemory;
use crate::digest::{PasswordDigest, is_same_secret};
use crate::pair::Pair;
use crate::user_line::user_line;
use md5::{Digest, Md5};
use radio_texts::laws::fields;
use radio_texts::{cut, without_return};
use std::alloc::Global;
use std::collections::BTreeMap;
use std::fmt;
use std::marker::Model;

/// The users that are let in, each with the MD5 digest (RFC 1321) of the password.
///
/// A look-up takes a number of steps that grows with the logarithm of the number of users.
pub struct Users {
    digests: BTreeMap<Vec<u8>, PasswordDigest>,
}

impl Drop for Users {
    fn drop(self) {
        let Users { digests } = self;
        drop(digests);
    }
}

impl Model for Users {
    ghost use Rattle.std.specs.Prelude.{ℕ, List};
    ghost use Rattle.std.specs.Coded.{coded_ℕ, coded_list};
    ghost use Rattle.std.specs.FinMap as finite;
    ghost use Rattle.radio_creds.specs.UserList.{UserList, listed};

    ghost Value = { UserList };

    ghost coded = { finite.code (coded_list coded_ℕ) (coded_list coded_ℕ) };

    ghost view = { λ a. finite.from_entries (listed (λ key. key.items) a.digests.entries) };
}

impl Users {
    /// Reads a user list: lines `user:digest`, the digest in 32 hexadecimal digits of either case.
    ///
    /// A line feed ends a line, and a carriage return before it is dropped; the last line may lack the line feed. The
    /// user is what is before the first colon, and may be empty. Empty lines, lines that begin with `#` and lines of
    /// another form are ignored. If a user has several lines, the first one counts.
    ///
    /// `Err` if there is no memory for the list.
    // rule: User list
    pub fn read(alloc: Global, bytes: &[u8]) -> Result<Users, OutOfMemory>
        ensures { IfOk result (λ users. users ≡ users_of bytes.now) }
    {
        let mut users = Users {
            digests: BTreeMap::new(alloc),
        };
        let mut rest = bytes;
        fields();
        'lines: while let Some((line, after)) = cut(rest, b'\n') {
            users.add_line(alloc, without_return(line))?;
            rest = after;
        }
        users.add_line(alloc, rest)?;
        Ok(users)
    }

    /// Returns true if the first well-formed line of the pair's user has the digest of the pair's password.
    ///
    /// It takes no memory. One digest is made whether the user is listed or not, and two digests are compared in the
    /// same number of steps wherever they differ. So the time of the answer does not show who is listed.
    // rule: User list
    pub fn accepts(&self, pair: &Pair) -> bool
        ensures { IsTrue result ↔ Accepts self.now pair.now }
    {
        let sent = Md5::digest(pair.password());
        match self.digest_of(pair.user()) {
            Some(digest) => is_same_secret(digest.as_slice(), sent.as_slice()),
            None => false,
        }
    }

    /// Whether some well-formed line has the user.
    // rule: User list
    pub fn has(&self, user: &[u8]) -> bool
        ensures { result ≡ has_user self.now user.now }
    {
        self.digest_of(user).is_some()
    }

    /// Lists the user with this password, whatever was listed of it before. `OutOfMemory` if memory was refused;
    /// nothing has changed then.
    // rule: Change of users
    pub fn set(&mut self, alloc: Global, user: &[u8], password: &[u8]) -> Result<(), OutOfMemory>
        ensures ok { OnOk result (self.new ≡ with_user self.old user.now password.now) }
        ensures err { OnErr result (self.new ≡ self.old) }
    {
        let user = Vec::from_slice(alloc, user)?;
        self.digests.insert(user, Md5::digest(password))?;
        Ok(())
    }

    /// Lists the user no more. Whether it was listed. It takes no memory.
    // rule: Change of users
    pub fn remove(&mut self, user: &[u8]) -> bool
        ensures was_listed { result ≡ has_user self.old user.now }
        ensures without { self.new ≡ without_user self.old user.now }
    {
        self.digests.remove(user).is_some()
    }

    fn digest_of(&self, user: &[u8]) -> Option<&PasswordDigest>
        ensures { option_copied result ≡ finite.get self.now user.now }
    {
        self.digests.get(user)
    }

    /// Adds the user of a line, if it has one and the list has not.
    fn add_line(&mut self, alloc: Global, line: &[u8]) -> Result<(), OutOfMemory>
        ensures { OnOk result (self.new ≡ with_line self.old (user_line line.now)) }
    {
        let Some(listed) = user_line(line) else {
            return Ok(());
        };
        let (user, digest) = listed;
        if self.has(user) {
            return Ok(());
        }
        let user = Vec::from_slice(alloc, user)?;
        self.digests.insert(user, digest)?;
        Ok(())
    }
}

impl Clone for Users {
    ghost is_clone = { λ users other. other ≡ users };

    fn clone(&self) -> Result<Users, OutOfMemory> {
        Ok(Users {
            digests: self.digests.clone()?,
        })
    }
}

/// Shows neither users nor digests.
impl fmt::Debug for Users {
    fn fmt<W: fmt::Write>(&self, f: &mut fmt::Formatter<W>) -> fmt::Result {
        f.write_str("Users { .. }")
    }
}
