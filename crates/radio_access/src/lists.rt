//! The address lists and user lists of a station.
ghost use Rattle.std.specs.Prelude.{◌≡◌, ◌↔◌, IsTrue, None, Some, [], OnOk, OnErr};
ghost use Rattle.std.specs.Option.{option_copied};
ghost use Rattle.radio_access.specs.Lists.{no_lists, is_denied, is_allowed, users_at, accepts, lets_in, with_users, has_users, has_user_at, with_user_at, without_user_at};

use crate::OutOfMemory;
use radio_addr::{AddressList, Peer};
use radio_creds::{Pair, Users};
use radio_tables::{Row, RowChange, Table, TryChange};
use radio_values::MountName;
use std::alloc::Global;
use std::marker::Model;

/// The users of a mount that has a user list.
pub struct MountUsers {
    /// The mount.
    pub mount: MountName,
    /// The users that it lets in.
    pub users: Users,
}

impl Drop for MountUsers {
    fn drop(self) {
        let MountUsers { mount: _, users } = self;
        drop(users);
    }
}

impl Clone for MountUsers {
    ghost is_clone = { λ listed other. other ≡ listed };

    fn clone(&self) -> Result<MountUsers, OutOfMemory> {
        Ok(MountUsers {
            mount: self.mount,
            users: self.users.clone()?,
        })
    }
}

impl Row for MountUsers {
    type Key = MountName;

    ghost use Rattle.radio_tables.proofs.KeyLaws.{name_is};
    ghost use Rattle.radio_access.specs.Lists.{is_users_of_mount};

    ghost key = { λ listed. listed.mount };

    ghost has_key = { is_users_of_mount };

    ghost has_key_is = { λ mount listed. name_is mount listed.mount };

    fn key(&self) -> MountName {
        self.mount
    }
}

/// A user who is let in with this password from now on.
#[derive(Drop)]
struct SetUser<'a> {
    alloc: Global,
    user: &'a [u8],
    password: &'a [u8],
}

impl TryChange<MountUsers> for SetUser<'_> {
    ghost use Rattle.std.specs.Prelude.{refl};
    ghost use Rattle.radio_access.specs.Lists.{listing};

    ghost gives = { λ change listed. listing change.user.now change.password.now listed };

    ghost keeps_key = { λ change listed. refl };

    fn try_apply(&self, row: &mut MountUsers) -> Result<(), OutOfMemory> {
        row.users.set(self.alloc, self.user, self.password)
    }
}

/// A user who is let in no more.
#[derive(Drop)]
struct RemoveUser<'a> {
    user: &'a [u8],
}

impl RowChange<MountUsers> for RemoveUser<'_> {
    ghost use Rattle.std.specs.Prelude.{refl};
    ghost use Rattle.radio_access.specs.Lists.{unlisting};

    ghost gives = { λ change listed. unlisting change.user.now listed };

    ghost keeps_key = { λ change listed. refl };

    fn apply(&self, row: &mut MountUsers) {
        let _ = row.users.remove(self.user);
    }
}

/// What the files that the settings name hold: `deny-ip`, `allow-ip` and each mount's `htpasswd`.
pub struct Lists {
    denied: Option<AddressList>,
    allowed: Option<AddressList>,
    users: Table<MountUsers>,
}

impl Drop for Lists {
    fn drop(self) {
        let Lists {
            denied,
            allowed,
            users,
        } = self;
        drop(denied);
        drop(allowed);
        drop(users);
    }
}

impl Model for Lists {
    ghost use Rattle.radio_access.specs.Lists.{Lists};
    ghost use Rattle.std.specs.Coded.{codes};
    ghost use Rattle.radio_creds.specs.contracts.user_list.Users as creds_users;

    ghost Value = { Lists };

    ghost coded = { Prim.hlevel (codes, creds_users.the_row.coded) };

    ghost view = { λ l. record { denied = l.denied; allowed = l.allowed; users = l.users } };
}

impl Lists {
    /// No lists: nobody is denied, everybody is allowed, and no mount has users. It takes no memory.
    pub fn new(alloc: Global) -> Lists
        ensures { result ≡ no_lists }
    {
        Lists {
            denied: None,
            allowed: None,
            users: Table::new(alloc),
        }
    }

    /// Denies the addresses of a list, and no others.
    pub fn deny(&mut self, list: AddressList)
        ensures { self.new ≡ record self.old { denied = Some list } }
    {
        self.denied = Some(list);
    }

    /// Allows the addresses of a list alone. Where it lists none, nobody is allowed.
    pub fn allow(&mut self, list: AddressList)
        ensures { self.new ≡ record self.old { allowed = Some list } }
    {
        self.allowed = Some(list);
    }

    /// Closes a mount to all but these users; if there are none, nobody is let in. `OutOfMemory` if memory was
    /// refused; nothing has changed then.
    pub fn set_users(&mut self, mount: MountName, users: Users) -> Result<(), OutOfMemory>
        ensures ok { OnOk result (self.new ≡ with_users self.old mount users) }
        ensures err { OnErr result (self.new ≡ self.old) }
    {
        self.users.insert(MountUsers { mount, users })
    }

    /// Whether the mount has users.
    pub fn has_users(&self, mount: &MountName) -> bool
        ensures { result ≡ has_users self.now mount.now }
    {
        self.users.get(mount).is_some()
    }

    /// Whether the mount has users, and this is one of them.
    pub fn has_user(&self, mount: &MountName, user: &[u8]) -> bool
        ensures { result ≡ has_user_at self.now mount.now user.now }
    {
        match self.users.get(mount) {
            Some(listed) => listed.users.has(user),
            None => false,
        }
    }

    /// Lets the user in with this password, and no more as it was before; where the mount has no users, nothing changes.
    /// `OutOfMemory` if memory was refused; nothing has changed then.
    // rule: Change of users
    pub fn set_user(
        &mut self,
        alloc: Global,
        mount: &MountName,
        user: &[u8],
        password: &[u8],
    ) -> Result<(), OutOfMemory>
        ensures ok { OnOk result (self.new ≡ with_user_at self.old mount.now user.now password.now) }
        ensures err { OnErr result (self.new ≡ self.old) }
    {
        self.users.try_change(
            mount,
            &SetUser {
                alloc,
                user,
                password,
            },
        )
    }

    /// Lets the user in no more; where the mount has no users, or not this one, nothing changes. It takes no memory.
    // rule: Change of users
    pub fn remove_user(&mut self, mount: &MountName, user: &[u8])
        ensures { self.new ≡ without_user_at self.old mount.now user.now }
    {
        self.users.change(mount, &RemoveUser { user });
    }

    /// Whether the deny list has the peer. Without a deny list nobody is denied.
    // rule: Address denied; Address not allowed
    pub fn is_denied(&self, peer: Peer) -> bool
        ensures { result ≡ is_denied self.now peer }
    {
        match &self.denied {
            Some(list) => list.contains(peer),
            None => false,
        }
    }

    /// Whether the allow list has the peer. Without an allow list everybody is allowed.
    // rule: Address denied; Address not allowed
    pub fn is_allowed(&self, peer: Peer) -> bool
        ensures { result ≡ is_allowed self.now peer }
    {
        match &self.allowed {
            Some(list) => list.contains(peer),
            None => true,
        }
    }

    /// Whether the mount is open to one who sends this pair, or none: it has no user list, or the list accepts its pair.
    ///
    /// One digest is made if the mount has users and a pair was sent, whether its user is listed or not.
    // rule: Listener password
    pub fn lets_in(&self, mount: &MountName, pair: Option<&Pair>) -> bool
        ensures { result ≡ lets_in self.now mount.now (option_copied pair.entry) }
    {
        match self.users.get(mount) {
            Some(listed) => accepts_sent(&listed.users, pair),
            None => true,
        }
    }
}

impl Clone for Lists {
    ghost is_clone = { λ lists other. other ≡ lists };

    fn clone(&self) -> Result<Lists, OutOfMemory> {
        Ok(Lists {
            denied: self.denied.clone()?,
            allowed: self.allowed.clone()?,
            users: self.users.again()?,
        })
    }
}

/// Whether users accept what was sent: nobody is let in without a pair.
fn accepts_sent(users: &Users, pair: Option<&Pair>) -> bool
    ensures { result ≡ accepts users.now (option_copied pair.entry) }
{
    match pair {
        Some(pair) => is_accepted(users, pair),
        None => false,
    }
}

/// Whether users accept a pair.
fn is_accepted(users: &Users, pair: &Pair) -> bool
    ensures { result ≡ accepts users.now (Some pair.now) }
{
    users.accepts(pair)
}
