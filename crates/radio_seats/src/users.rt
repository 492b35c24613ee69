//! The index of the rows by user: under which numbers somebody sits who sent a user.

ghost use Rattle.std.specs.Prelude.{◌≡◌, ◌&&◌, ◌||◌, not, ◌==◌, None, [], find, OnOk, OnErr, IfOk};
ghost use Rattle.std.specs.BTreeSet.{contains};
ghost use Rattle.std.specs.List.{list_any};
ghost use Rattle.std.specs.Option.{option_copied};
ghost use Rattle.std.specs.Ordering.{nat_cmp};
ghost use Rattle.std.specs.Str.{bytes_eq};
ghost use Rattle.radio_seats_rows.specs.Rows.{is_row, seated_row};
ghost use Rattle.radio_seats_rows.specs.Sent.{is_user};
ghost use Rattle.radio_seats_rows.specs.declared.row.ListenerRow.{ListenerRow as RowOf};
ghost use Rattle.radio_tables.specs.Lists.{placed};
ghost use Rattle.radio_seats.specs.Users.{entry_of, is_kept, user_in, is_own, is_other, is_other_in, AreKept};

use radio_seats_rows::{KeptUser, ListenerRow, OutOfMemory, Seat};
use radio_tables::Table;
use std::alloc::{AllocError, Global};
use std::collections::{BTreeMap, BTreeSet};

/// Who is asked for.
#[derive(Clone, Copy)]
pub(crate) struct UserAt<'a> {
    /// The number of the mount where it sits.
    pub number: u64,
    /// The user that it sent.
    pub user: &'a [u8],
    /// The listener who is left out, if one is.
    pub own: Option<u64>,
}

impl UserAt<'_> {
    /// Whether it is the row of such a one.
    fn is(&self, row: &ListenerRow) -> bool
        ensures { result ≡ is_other self.now.own self.now.number self.now.user.now row.now }
    {
        !is_own(self.own, row.id) && row.state.is_of_user(self.number, self.user)
    }

    /// Whether it is such a one who has this number.
    fn has(&self, rows: &Table<ListenerRow>, id: u64) -> bool
        ensures { result ≡ is_other_in self.now.own self.now.number self.now.user.now (find (is_row id) rows.now) }
    {
        match rows.get(&id) {
            Some(row) => self.is(row),
            None => false,
        }
    }
}

/// Whether the listener of this number is left out.
fn is_own(own: Option<u64>, id: u64) -> bool
    ensures { result ≡ is_own own id }
{
    match own {
        Some(own) => id == own,
        None => false,
    }
}

/// Users in the order of their bytes, each with the numbers of the listeners who sent it.
pub(crate) struct UserIndex {
    alloc: Global,
    pub(crate) seats: BTreeMap<Vec<u8>, BTreeSet<u64>>,
}

impl Drop for UserIndex {
    fn drop(self) {
        let UserIndex { alloc: _, seats } = self;
        drop(seats);
    }
}

impl UserIndex {
    /// No users. It takes no memory.
    pub(crate) fn new(alloc: Global) -> UserIndex
        ensures { result.seats.entries ≡ [] }
    {
        UserIndex {
            alloc,
            seats: BTreeMap::new(alloc),
        }
    }

    /// The listener of this number sits at the mount of that number: its row is in the table, and
    /// it is kept under its user. Of a row that it had, nothing is left. `OutOfMemory` if memory
    /// was refused; the rows are the same then, and each is kept as before.
    pub(crate) fn insert_row(
        &mut self,
        rows: &mut Table<ListenerRow>,
        id: u64,
        number: u64,
        seat: Seat,
    ) -> Result<(), OutOfMemory>
        requires { AreKept self.old.seats rows.old }
        ensures ok { OnOk result (rows.new ≡ placed (λ (a b : RowOf). nat_cmp a.id b.id) (seated_row id number seat) rows.old) }
        ensures err { OnErr result (rows.new ≡ rows.old) }
        ensures kept { AreKept self.new.seats rows.new }
    {
        let before = copied(user_of(rows.get(&id)))?;
        let row = ListenerRow::new(self.alloc, id, number, seat)?;
        let user = copied(row.user.as_ref())?;
        self.add(user.as_ref(), id)?;
        match rows.insert(row) {
            Ok(()) => {
                self.remove(before.as_ref(), id, user.as_ref());
                Ok(())
            }
            Err(refused) => {
                self.remove(user.as_ref(), id, before.as_ref());
                Err(refused)
            }
        }
    }

    /// The listener is kept under this user from now on, if it is one. `OutOfMemory` if memory
    /// was refused; nothing has changed then.
    fn add(&mut self, user: Option<&KeptUser>, id: u64) -> Result<(), OutOfMemory>
        ensures ok { OnOk result ((other k : _) → is_kept self.new.seats other k
            ≡ (is_kept self.old.seats other k || ((id == k) && is_user other (option_copied user.entry)))) }
        ensures err { OnErr result ((other k : _) → is_kept self.new.seats other k ≡ is_kept self.old.seats other k) }
    {
        let Some(user) = user else {
            return Ok(());
        };
        self.keep(user.as_bytes(), id)
    }

    /// The listener is kept under this user from now on. `OutOfMemory` if memory was refused;
    /// nothing has changed then.
    fn keep(&mut self, user: &[u8], id: u64) -> Result<(), OutOfMemory>
        ensures ok { OnOk result ((other k : _) → is_kept self.new.seats other k
            ≡ (is_kept self.old.seats other k || ((id == k) && bytes_eq user.now other))) }
        ensures err { OnErr result ((other k : _) → is_kept self.new.seats other k ≡ is_kept self.old.seats other k) }
    {
        match self.seats.get_mut(user) {
            Some(ids) => match ids.insert(id) {
                Ok(_) => Ok(()),
                Err(_) => Err(AllocError),
            },
            None => self.keep_new(user, id),
        }
    }

    /// The same for a user who has no entry.
    fn keep_new(&mut self, user: &[u8], id: u64) -> Result<(), OutOfMemory>
        requires { entry_of self.now.seats user.now ≡ None }
        ensures ok { OnOk result ((other k : _) → is_kept self.new.seats other k
            ≡ (is_kept self.old.seats other k || ((id == k) && bytes_eq user.now other))) }
        ensures err { OnErr result ((other k : _) → is_kept self.new.seats other k ≡ is_kept self.old.seats other k) }
    {
        let key = Vec::from_slice(self.alloc, user)?;
        self.seats.insert(key, alone(self.alloc, id)?)?;
        Ok(())
    }

    /// The listener is not kept under the user any more, if it is one, and not the one under which
    /// it stays. It takes no memory.
    pub(crate) fn remove(&mut self, user: Option<&KeptUser>, id: u64, stays: Option<&KeptUser>)
        ensures { (other k : _) → is_kept self.new.seats other k
            ≡ (is_kept self.old.seats other k && not ((id == k) && is_user other (option_copied user.entry) && not (is_user other (option_copied stays.entry)))) }
    {
        let Some(user) = user else {
            return;
        };
        if !is_user(user.as_bytes(), stays) {
            self.take(user.as_bytes(), id);
        }
    }

    /// The listener is not kept under the user any more. It takes no memory.
    fn take(&mut self, user: &[u8], id: u64)
        ensures { (other k : _) → is_kept self.new.seats other k
            ≡ (is_kept self.old.seats other k && not ((id == k) && bytes_eq user.now other)) }
    {
        let Some(ids) = self.seats.get_mut(user) else {
            return;
        };
        ids.remove(&id);
        if ids.is_empty() {
            self.seats.remove(user);
        }
    }

    /// Whether one of the rows is of one who is asked for. The time grows as the number of the rows
    /// of its user, and as the logarithm of the number of all.
    pub(crate) fn has(&self, rows: &Table<ListenerRow>, asked: &UserAt<'_>) -> bool
        requires { AreKept self.now.seats rows.now }
        ensures { result ≡ list_any (is_other asked.now.own asked.now.number asked.now.user.now) rows.now }
    {
        // no listener has two rows
        let _ = rows.len();
        match self.seats.get(asked.user) {
            Some(ids) => has_one(ids, rows, asked),
            None => false,
        }
    }
}

/// Whether a listener of one of these numbers is one who is asked for.
fn has_one(ids: &BTreeSet<u64>, rows: &Table<ListenerRow>, asked: &UserAt<'_>) -> bool
    ensures { result ≡ list_any (λ id. is_other_in asked.now.own asked.now.number asked.now.user.now (find (is_row id) rows.now)) ids.now.keys }
{
    ids.iter().any(|id| asked.has(rows, *id))
}

/// This number alone. `OutOfMemory` if memory was refused.
fn alone(alloc: Global, id: u64) -> Result<BTreeSet<u64>, OutOfMemory>
    ensures { IfOk result (λ ids. (k : _) → contains nat_cmp ids k ≡ (id == k)) }
{
    let mut ids = BTreeSet::new(alloc);
    ids.insert(id)?;
    Ok(ids)
}

/// Whether it is that user.
fn is_user(user: &[u8], his: Option<&KeptUser>) -> bool
    ensures { result ≡ is_user user.now (option_copied his.entry) }
{
    match his {
        Some(his) => his.as_bytes() == user,
        None => false,
    }
}

/// The user of a row, if there is a row, and it sent one.
pub(crate) fn user_of(row: Option<&ListenerRow>) -> Option<&KeptUser>
    ensures { option_copied result ≡ user_in (option_copied row.entry) }
{
    match row {
        Some(row) => row.user.as_ref(),
        None => None,
    }
}

/// The same user, if there is one. `OutOfMemory` if memory was refused.
fn copied(user: Option<&KeptUser>) -> Result<Option<KeptUser>, OutOfMemory>
    ensures { IfOk result (λ copy. copy ≡ option_copied user.entry) }
{
    match user {
        Some(user) => Ok(Some(user.clone()?)),
        None => Ok(None),
    }
}
