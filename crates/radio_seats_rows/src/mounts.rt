//! The mounts that were prepared: each has a number, under which the rows of listeners know it.

ghost use Rattle.std.specs.Prelude.{◌≡◌, ◌+◌, ◌-◌, ◌<◌, ◌^◌, true, false, ◌||◌, ◌&&◌, not, [], ◌==◌, is_some, find, IfSome, OnOk, OnErr, if◌then◌else◌};
ghost use Rattle.std.specs.Option.{option_copied};
ghost use Rattle.std.specs.Str.{bytes_eq};
ghost use Rattle.radio_seats_rows.specs.SeatTable.{is_prepared};
ghost use Rattle.radio_seats_rows.specs.Mounts.{is_numbered, name_in, sitting_in, naming_in, is_number, one_at, IsThere};

use crate::OutOfMemory;
use radio_tables::{Row, RowChange, Table};
use radio_values::MountName;
use std::alloc::{AllocError, Global};
use std::marker::Model;

/// A mount that was prepared.
#[derive(Drop)]
pub struct Mount {
    /// Its number.
    pub number: u64,
    /// Its name.
    pub name: MountName,
    /// How many sit there.
    pub sitting: u64,
    /// How many sit there, or sat there last: their rows name it.
    pub naming: u64,
}

impl Row for Mount {
    type Key = u64;

    ghost use Rattle.radio_tables.proofs.KeyLaws.{number_is};
    ghost use Rattle.radio_seats_rows.specs.Mounts.{is_numbered};

    ghost key = { λ mount. mount.number };

    ghost has_key = { is_numbered };

    ghost has_key_is = { λ number mount. number_is number mount.number };

    fn key(&self) -> u64 {
        self.number
    }
}

/// The number of a mount, to be found by its name.
#[derive(Drop)]
pub(crate) struct NumberedName {
    pub(crate) name: MountName,
    pub(crate) number: u64,
}

impl Row for NumberedName {
    type Key = MountName;

    ghost use Rattle.radio_tables.proofs.KeyLaws.{name_is};
    ghost use Rattle.radio_seats_rows.specs.Mounts.{is_named};

    ghost key = { λ entry. entry.name };

    ghost has_key = { is_named };

    ghost has_key_is = { λ name entry. name_is name entry.name };

    fn key(&self) -> MountName {
        self.name
    }
}

/// So many sit at the mount, and so many rows name it.
#[derive(Drop)]
struct Counts {
    sitting: u64,
    naming: u64,
}

impl RowChange<Mount> for Counts {
    ghost use Rattle.std.specs.Prelude.{refl};

    ghost gives = { λ change mount. record mount { sitting = change.sitting; naming = change.naming } };

    ghost keeps_key = { λ change mount. refl };

    fn apply(&self, row: &mut Mount) {
        row.sitting = self.sitting;
        row.naming = self.naming;
    }
}

/// The prepared mounts, by their numbers and by their names.
pub struct Mounts {
    mounts: Table<Mount>,
    names: Table<NumberedName>,
    last: u64,
}

impl Drop for Mounts {
    fn drop(self) {
        let Mounts {
            mounts,
            names,
            last: _,
        } = self;
        drop(mounts);
        drop(names);
    }
}

impl Model for Mounts {
    ghost use Rattle.std.specs.Prelude.{map};
    ghost use Rattle.radio_seats_rows.specs.declared.mounts.NumberedName.{NumberedName};
    ghost use Rattle.radio_seats_rows.specs.Mounts.{Prepared, AreMounts};

    ghost Value = { Prepared };

    ghost view = { λ m. record { names = map (λ (entry : NumberedName). entry.name) m.names; mounts = m.mounts } };

    ghost invariant = { λ m. AreMounts m.names m.mounts m.last };
}

impl Mounts {
    /// No mounts. It takes no memory.
    pub fn new(alloc: Global) -> Mounts
        ensures { result ≡ record { names = []; mounts = [] } }
    {
        Mounts {
            mounts: Table::new(alloc),
            names: Table::new(alloc),
            last: 0,
        }
    }

    /// The number of the mount, if it was prepared.
    pub fn number(&self, name: &MountName) -> Option<u64>
        // it is the only number under which the name is found
        ensures only { (number : _) → bytes_eq (name_in self.now.mounts number) name.now ≡ is_number result number }
        ensures there { IfSome result (λ number. IsThere self.now.mounts number) }
        ensures prepared { is_some result ≡ is_prepared self.now.names name.now }
    {
        let _ = name.as_bytes();
        match self.names.get(name) {
            Some(entry) => Some(entry.number),
            None => None,
        }
    }

    /// The mount of this number.
    pub fn get(&self, number: u64) -> Option<&Mount>
        ensures { option_copied result ≡ find (is_numbered number) self.now.mounts }
    {
        self.mounts.get(&number)
    }

    /// The mount is prepared from now on; of one that was, nothing changes. `OutOfMemory` where
    /// memory was refused, and where the numbers are spent; nothing has changed then.
    pub fn prepare(&mut self, name: &MountName) -> Result<(), OutOfMemory>
        ensures prepared { OnOk result ((other : _) → is_prepared self.new.names other ≡ (is_prepared self.old.names other || bytes_eq name.now other)) }
        // who sits at a mount of a number, or sat there last, does so still
        ensures sitting { (number : _) → sitting_in self.new.mounts number ≡ sitting_in self.old.mounts number }
        ensures naming { (number : _) → naming_in self.new.mounts number ≡ naming_in self.old.mounts number }
        ensures names { (number : _) → 0 < naming_in self.old.mounts number → name_in self.new.mounts number ≡ name_in self.old.mounts number }
        ensures err { OnErr result (self.new ≡ self.old) }
    {
        match self.number(name) {
            Some(_) => Ok(()),
            None => self.prepare_new(name),
        }
    }

    /// The mount, which was not prepared, is prepared from now on. `OutOfMemory` if memory was
    /// refused, and where the numbers are spent; nothing has changed then.
    fn prepare_new(&mut self, name: &MountName) -> Result<(), OutOfMemory>
        requires { is_prepared self.old.names name.now ≡ false }
        ensures prepared { OnOk result ((other : _) → is_prepared self.new.names other ≡ (is_prepared self.old.names other || bytes_eq name.now other)) }
        ensures sitting { (number : _) → sitting_in self.new.mounts number ≡ sitting_in self.old.mounts number }
        ensures naming { (number : _) → naming_in self.new.mounts number ≡ naming_in self.old.mounts number }
        ensures names { (number : _) → 0 < naming_in self.old.mounts number → name_in self.new.mounts number ≡ name_in self.old.mounts number }
        ensures err { OnErr result (self.new ≡ self.old) }
    {
        let Some(number) = self.last.checked_add(1) else {
            return Err(AllocError);
        };
        self.mounts.insert(Mount {
            number,
            name: *name,
            sitting: 0,
            naming: 0,
        })?;
        match self.names.insert(NumberedName {
            name: *name,
            number,
        }) {
            Ok(()) => {
                self.last = number;
                Ok(())
            }
            Err(refused) => {
                self.mounts.remove(&number);
                Err(refused)
            }
        }
    }

    /// The mount is not prepared any more. It takes no memory.
    pub fn release(&mut self, name: &MountName)
        // nobody sits there, or sat there last
        requires sitting { (number : _) → bytes_eq (name_in self.old.mounts number) name.now ≡ true → sitting_in self.old.mounts number ≡ 0 }
        requires naming { (number : _) → bytes_eq (name_in self.old.mounts number) name.now ≡ true → naming_in self.old.mounts number ≡ 0 }
        ensures prepared { (other : _) → is_prepared self.new.names other ≡ (is_prepared self.old.names other && not (bytes_eq name.now other)) }
        ensures sitting { (number : _) → sitting_in self.new.mounts number ≡ sitting_in self.old.mounts number }
        ensures naming { (number : _) → naming_in self.new.mounts number ≡ naming_in self.old.mounts number }
        ensures names { (number : _) → 0 < naming_in self.old.mounts number → name_in self.new.mounts number ≡ name_in self.old.mounts number }
    {
        if let Some(entry) = self.names.remove(name) {
            self.mounts.remove(&entry.number);
        }
    }

    /// One more sits at the mount of this number.
    pub fn gain(&mut self, number: u64)
        requires there { IsThere self.old.mounts number }
        requires room_to_sit { sitting_in self.old.mounts number + 1 < 2 ^ 64 }
        requires room_to_name { naming_in self.old.mounts number + 1 < 2 ^ 64 }
        ensures sitting { (other : _) → sitting_in self.new.mounts other ≡ sitting_in self.old.mounts other + (if number == other then 1 else 0) }
        ensures naming { (other : _) → naming_in self.new.mounts other ≡ naming_in self.old.mounts other + (if number == other then 1 else 0) }
        ensures names { (other : _) → name_in self.new.mounts other ≡ name_in self.old.mounts other }
        ensures prepared { self.new.names ≡ self.old.names }
    {
        if let Some(mount) = self.mounts.get(&number) {
            let sitting = mount.sitting + 1;
            let naming = mount.naming + 1;
            self.mounts.change(&number, &Counts { sitting, naming });
        }
    }

    /// So many have lost their seats at the mount of this number, and sat there last.
    // rule: Mount full
    pub fn lose(&mut self, number: u64, count: u64)
        ensures sitting { (other : _) → sitting_in self.new.mounts other ≡ sitting_in self.old.mounts other - (if number == other then count else 0) }
        ensures naming { (other : _) → naming_in self.new.mounts other ≡ naming_in self.old.mounts other }
        ensures names { (other : _) → name_in self.new.mounts other ≡ name_in self.old.mounts other }
        ensures prepared { self.new.names ≡ self.old.names }
        ensures there { (other : _) → IsThere self.old.mounts other → IsThere self.new.mounts other }
    {
        if let Some(mount) = self.mounts.get(&number) {
            let sitting = mount.sitting.saturating_sub(count);
            let naming = mount.naming;
            self.mounts.change(&number, &Counts { sitting, naming });
        }
    }

    /// One has left its seat at the mount of this number, if it had one, and sat there last.
    pub fn leave(&mut self, number: Option<u64>)
        ensures sitting { (other : _) → sitting_in self.new.mounts other ≡ sitting_in self.old.mounts other - one_at number other }
        ensures naming { (other : _) → naming_in self.new.mounts other ≡ naming_in self.old.mounts other }
        ensures names { (other : _) → name_in self.new.mounts other ≡ name_in self.old.mounts other }
        ensures prepared { self.new.names ≡ self.old.names }
        ensures there { (other : _) → IsThere self.old.mounts other → IsThere self.new.mounts other }
    {
        if let Some(number) = number {
            self.lose(number, 1);
        }
    }

    /// One row less names the mount of this number, if it named one.
    pub fn give_up(&mut self, number: Option<u64>)
        ensures sitting { (other : _) → sitting_in self.new.mounts other ≡ sitting_in self.old.mounts other }
        ensures naming { (other : _) → naming_in self.new.mounts other ≡ naming_in self.old.mounts other - one_at number other }
        ensures names { (other : _) → name_in self.new.mounts other ≡ name_in self.old.mounts other }
        ensures prepared { self.new.names ≡ self.old.names }
        ensures there { (other : _) → IsThere self.old.mounts other → IsThere self.new.mounts other }
    {
        let Some(number) = number else {
            return;
        };
        if let Some(mount) = self.mounts.get(&number) {
            let sitting = mount.sitting;
            let naming = mount.naming.saturating_sub(1);
            self.mounts.change(&number, &Counts { sitting, naming });
        }
    }
}
