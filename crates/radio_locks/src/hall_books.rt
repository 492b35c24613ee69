//! What a hall has stored, once nobody calls it any more.

ghost use Rattle.std.specs.Prelude.{◌≡◌, IfOk};
ghost use Rattle.radio_parts_station.specs.World.{opening};

use crate::locked_control::LockedControl;
use crate::mount_locks::MountLock;
use crate::{Hall, OutOfMemory};
use radio_access::Lists;
use radio_book::{Book, Chronicle, Kept, MountBook, Origin};
use radio_settings_values::Settings;

/// The books of a hall that stores its entries, and with what it was opened.
#[derive(Drop)]
pub struct HallBooks<H: Origin> {
    /// The settings with which the hall was opened.
    pub settings: Settings,
    /// The lists with which it was opened. Those of the control may have changed.
    pub lists: Lists,
    /// The control's book.
    pub control: Book<Kept, H>,
    /// The books of the mounts, in the order of their lists; `None` for a lock that holds nothing.
    pub mounts: Vec<Option<MountBook<Kept>>>,
}

impl<H: Origin> Hall<Kept, H> {
    /// Returns what the hall has stored, when nobody calls any more. `OutOfMemory` if memory was refused; the hall is gone then.
    pub fn into_books(self) -> Result<HallBooks<H>, OutOfMemory>
        // the settings and the lists are those of the opening
        ensures opening { IfOk result (λ books. H.opening ≡ opening books.settings books.lists) }
    {
        let Hall {
            alloc,
            queue: _,
            control,
            mounts,
        } = self;
        let mut books = Vec::new(alloc);
        let taken = take_each(&mounts, &mut books);
        drop(mounts);
        let locked = control.into_inner();
        match taken {
            Ok(()) => Ok(books_of(locked, books)),
            Err(refused) => {
                drop(locked);
                drop(books);
                Err(refused)
            }
        }
    }
}

/// The control's book and those of the mounts, with what the hall was opened with.
fn books_of<H: Origin>(
    locked: LockedControl<Kept, H>,
    mounts: Vec<Option<MountBook<Kept>>>,
) -> HallBooks<H>
    ensures { H.opening ≡ opening result.settings result.lists }
{
    let LockedControl {
        control,
        lent,
        lists,
        opened,
        ..
    } = locked;
    drop(lent);
    drop(lists);
    let (settings, lists) = opened.into_pair();
    HallBooks {
        settings,
        lists,
        control,
        mounts,
    }
}

/// Takes each mount's book out of its lock, if it is there and nobody has the lock.
fn take_each<C: Chronicle>(
    mounts: &boxcar::Vec<MountLock<C>>,
    books: &mut Vec<Option<MountBook<C>>>,
) -> Result<(), OutOfMemory> {
    books.reserve(mounts.count())?;
    for (_, lock) in mounts {
        let book = match lock.try_lock() {
            Some(mut guard) => guard.take(),
            None => None,
        };
        books.push(book)?;
    }
    Ok(())
}
