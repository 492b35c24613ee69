//! The mounts' books, taken out of their locks and put back.

ghost use Rattle.std.specs.Prelude.{◌≡◌, ◌+◌, ◌≤◌, None, IsOk, vec_len};
ghost use Rattle.radio_locks.specs.Concerned.{IsOneAtMost};

use crate::concerned::Concerned;
use crate::list_numbers::ListNumbers;
use crate::mount_lists::MountLists;
use crate::{Hall, OutOfMemory};
use radio_book::{Chronicle, MountBook, Origin};
use radio_values::MountName;
use std::alloc::AllocError;
use std::hint::spin_loop;
use std::sync::{Mutex, MutexGuard, Wait};

/// How often a thread tries to take a lock before it sleeps until that is free: each is held for a moment alone.
const TRIES: u32 = 128;

/// A mount's lock, which holds its book, or nothing while that is lent.
pub(crate) type MountLock<C> = Mutex<Option<MountBook<C>>>;

impl<C: Chronicle, H: Origin> Hall<C, H> {
    /// Returns the lock of the mount of this list.
    pub(crate) fn lock_of(&self, list: u64) -> Option<&MountLock<C>> {
        let place = list.checked_sub(1)?;
        self.mounts.get(place as usize)
    }

    /// Takes the books that an event is lent out of their locks. It takes no memory.
    pub(crate) fn take<R: Wait>(&self, rt: &R, lent: &mut Vec<MountBook<C>>, concerned: Concerned)
        requires none { vec_len lent.old ≡ 0 }
        ensures one { IsOneAtMost concerned → vec_len lent.new ≤ 1 }
    {
        match concerned {
            Concerned::Nobody => {}
            Concerned::One(list) => self.take_one(rt, lent, list),
            Concerned::Few(lists) => self.take_few(rt, lent, lists),
            Concerned::All => self.take_all(rt, lent),
        }
    }

    /// Takes the books of these lists out of their locks. It takes no memory.
    fn take_few<R: Wait>(&self, rt: &R, lent: &mut Vec<MountBook<C>>, lists: ListNumbers) {
        for list in lists.as_slice() {
            self.take_one(rt, lent, *list);
        }
        drop(lists);
    }

    /// Takes all books out of their locks. It takes no memory.
    pub(crate) fn take_all<R: Wait>(&self, rt: &R, lent: &mut Vec<MountBook<C>>) {
        for place in 0..self.mounts.count() {
            self.take_one(rt, lent, (place as u64).saturating_add(1));
        }
    }

    /// Takes the book of this list out of its lock, if there is room for it. Whoever made the book has made room.
    fn take_one<R: Wait>(&self, rt: &R, lent: &mut Vec<MountBook<C>>, list: u64)
        ensures { vec_len lent.new ≤ vec_len lent.old + 1 }
    {
        if lent.len() == lent.capacity() {
            return;
        }
        if let Some(lock) = self.lock_of(list) {
            lent.push_reserved(take_out(rt, lock));
        }
    }

    /// Adds a book of the mount, if one is named that has none, with a lock that holds nothing yet. If nothing has happened at
    /// the mount of a lent book, it reuses that book. `OutOfMemory` if memory was refused.
    pub(crate) fn add_book<R: Wait>(
        &self,
        rt: &R,
        lent: &mut Vec<MountBook<C>>,
        lists: &mut MountLists,
        mount: Option<MountName>,
    ) -> Result<(), OutOfMemory>
        ensures none { mount ≡ None → IsOk result }
        ensures same { mount ≡ None → lent.new ≡ lent.old }
    {
        let Some(mount) = mount else {
            return Ok(());
        };
        if lists.get(&mount).is_some() {
            return Ok(());
        }
        if let Some(list) = reuse_one(lent.as_mut_slice(), lists, &mount) {
            return lists.set(mount, list);
        }
        let list = self.add_new(rt, lent, mount)?;
        lists.set(mount, list)
    }

    /// Adds a new book of the mount, with a lock that holds nothing yet. Returns the number of its list. `OutOfMemory` if memory was
    /// refused.
    fn add_new<R: Wait>(
        &self,
        rt: &R,
        lent: &mut Vec<MountBook<C>>,
        mount: MountName,
    ) -> Result<u64, OutOfMemory> {
        lent.reserve(1)?;
        let mut book = MountBook::new(self.alloc, mount, self.queue)?;
        match self.add_lock(rt) {
            Ok(list) => {
                book.set_list(list);
                lent.push_reserved(book);
                Ok(list)
            }
            Err(refused) => {
                drop(book);
                Err(refused)
            }
        }
    }

    /// Adds a lock that holds nothing, and returns the number of its list. `OutOfMemory` if memory was refused.
    fn add_lock<R: Wait>(&self, rt: &R) -> Result<u64, OutOfMemory> {
        match self.mounts.push(rt, Mutex::new(None)) {
            Ok(place) => Ok((place as u64).saturating_add(1)),
            Err(lock) => {
                drop(lock);
                Err(AllocError)
            }
        }
    }

    /// Puts all books back into their locks.
    pub(crate) fn put_all<R: Wait>(&self, rt: &R, lent: &mut Vec<MountBook<C>>)
        ensures { vec_len lent.new ≡ 0 }
    {
        'lent: while let Some(book) = lent.pop() {
            match self.lock_of(book.list()) {
                Some(lock) => put_back(rt, lock, book),
                None => drop(book),
            }
        }
    }
}

/// Takes the lock, as soon as nobody else has it.
pub(crate) fn locked<'a, T, R: Wait>(rt: &R, lock: &'a Mutex<T>) -> MutexGuard<'a, T> {
    for _ in 0..TRIES {
        if let Some(guard) = lock.try_lock() {
            return guard;
        }
        spin_loop();
    }
    lock.lock(rt)
}

/// Waits until the mount's book is in its lock, and takes it.
fn take_out<R: Wait, C: Chronicle>(rt: &R, lock: &MountLock<C>) -> MountBook<C> {
    for _ in rt.forever() {
        let mut guard = locked(rt, lock);
        if let Some(book) = guard.take() {
            return book;
        }
    }
    unreachable!()
}

/// Puts the book into its lock.
fn put_back<R: Wait, C: Chronicle>(rt: &R, lock: &MountLock<C>, book: MountBook<C>) {
    let mut guard = locked(rt, lock);
    *guard = Some(book);
}

/// Makes one of the books this mount's, if nothing has happened at its own, which has no list then. Returns the number of its list.
fn reuse_one<C: Chronicle>(
    lent: &mut [MountBook<C>],
    lists: &mut MountLists,
    mount: &MountName,
) -> Option<u64> {
    for book in lent.iter_mut() {
        let before = *book.mount();
        if book.reuse(*mount) {
            lists.forget(&before, book.list());
            return Some(book.list());
        }
    }
    None
}
