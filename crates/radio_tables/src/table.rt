//! The table.

ghost use Rattle.std.specs.Prelude.{◌≡◌, true, [], ◌∷◌, ◌++◌, find, filter, not, map, length, IfOk, OnOk, OnErr};
ghost use Rattle.std.specs.Option.{option_copied, option_map_or};
ghost use Rattle.std.specs.List.Sorted.{IsStrictlySortedBy};
ghost use Rattle.std.specs.Map.Iter.{ShowsInOrder, deref};
ghost use Rattle.std.specs.declared.cmp.Ordering.TheVariants.{Less};
ghost use Rattle.std.specs.Ordering.{is_lt};
ghost use Rattle.radio_tables.specs.Lists.{update_first, placed, Each};
ghost use Rattle.radio_tables.specs.Past.{is_past};
ghost use Rattle.radio_tables.specs.Visits.{IsVisited};

use crate::{OutOfMemory, Row, RowChange, RowVisit, Swap, TryChange};
use std::alloc::Global;
use std::collections::BTreeMap;
use std::collections::btree_map::Values;
use std::marker::Model;
use std::ops::Bound;

/// Rows in rising order of their keys, each key once. Contracts see the list of the rows.
#[derive(Drop)]
pub struct Table<R: Row> {
    rows: BTreeMap<R::Key, R>,
}

impl<R: Row> Model for Table<R> {
    ghost use Rattle.std.specs.Prelude.{List};
    ghost use Rattle.std.specs.BTreeMap.{values};
    ghost use Rattle.radio_tables.specs.Entries.{AreRows};

    ghost Value = { List R };

    ghost view = { λ t. values t.rows };

    ghost invariant = { λ t. AreRows R.Key.cmp R.key t.rows.entries };
}

impl<R: Row> Table<R> {
    /// No rows. It takes no memory.
    pub fn new(alloc: Global) -> Table<R>
        ensures { result ≡ [] }
    {
        Table {
            rows: BTreeMap::new(alloc),
        }
    }

    /// The row of this key.
    pub fn get(&self, key: &R::Key) -> Option<&R>
        ensures { option_copied result ≡ find (R.has_key key.now) self.now }
    {
        self.rows.get(key)
    }

    /// The first row past this key, or the first of all where none is given. The time grows as the
    /// logarithm of the number of rows.
    pub fn after(&self, last: Option<R::Key>) -> Option<&R>
        ensures next { option_copied result ≡ find (λ row. is_past R.Key.cmp last (R.key row)) self.now }
        ensures rising { IsStrictlySortedBy R.Key.cmp (map R.key self.now) }
    {
        match last {
            Some(key) => self.past(&key),
            None => self.first(),
        }
    }

    /// The first row past this key.
    fn past(&self, key: &R::Key) -> Option<&R>
        ensures next { option_copied result ≡ find (λ row. is_lt (R.Key.cmp key.now (R.key row))) self.now }
        ensures rising { IsStrictlySortedBy R.Key.cmp (map R.key self.now) }
    {
        let mut rows = self.rows.range((Bound::Excluded(key), Bound::Unbounded));
        match rows.next() {
            Some((_, row)) => Some(row),
            None => None,
        }
    }

    /// The first row of all.
    fn first(&self) -> Option<&R>
        ensures next { option_copied result ≡ find (λ row. true) self.now }
        ensures rising { IsStrictlySortedBy R.Key.cmp (map R.key self.now) }
    {
        let mut rows = self.iter();
        rows.next()
    }

    /// Changes the row of this key, if there is one. It takes no memory.
    pub fn change<C: RowChange<R>>(&mut self, key: &R::Key, change: &C)
        ensures { self.new ≡ update_first (R.has_key key.now) (C.gives change.now) self.old }
    {
        let Some(row) = self.rows.get_mut(key) else {
            return;
        };
        change.apply(row);
    }

    /// Changes the row of this key, if there is one. `OutOfMemory` if the change was refused
    /// memory; nothing has changed then.
    pub fn try_change<C: TryChange<R>>(
        &mut self,
        key: &R::Key,
        change: &C,
    ) -> Result<(), OutOfMemory>
        ensures ok { OnOk result (self.new ≡ update_first (R.has_key key.now) (C.gives change.now) self.old) }
        ensures err { OnErr result (self.new ≡ self.old) }
    {
        let Some(row) = self.rows.get_mut(key) else {
            return Ok(());
        };
        change.try_apply(row)
    }

    /// Swaps something in the row of this key, if there is one. It takes no memory.
    pub fn swap<S: Swap<R>>(&mut self, key: &R::Key, swap: &mut S)
        ensures row { self.new ≡ update_first (R.has_key key.now) (S.gives swap.old) self.old }
        ensures taken { swap.new ≡ option_map_or (S.takes swap.old) (find (R.has_key key.now) self.old) swap.old }
    {
        let Some(row) = self.rows.get_mut(key) else {
            return;
        };
        swap.swap(row);
    }

    /// Deals with the row of this key in its place, and answers; `None` if there is none, and
    /// nothing has changed then. The row is looked up once.
    pub fn visit<V: RowVisit<R>>(
        &mut self,
        key: &R::Key,
        visitor: &mut V,
        given: &V::Given,
    ) -> Option<V::Answer>
        ensures { IsVisited V.visits (R.has_key key.now) visitor.old given.now self.old result visitor.new self.new }
    {
        let Some(row) = self.rows.get_mut(key) else {
            return None;
        };
        Some(visitor.visit(row, given))
    }

    /// Changes all rows. It takes no memory.
    pub fn change_all<C: RowChange<R>>(&mut self, change: &C)
        ensures { self.new ≡ map (C.gives change.now) self.old }
    {
        self.rows.retain(|_, row| {
            change.apply(row);
            true
        });
    }

    /// Puts a row into its place among the others. A row of an equal key gives way to it.
    /// `OutOfMemory` if memory was refused; nothing has changed then.
    pub fn insert(&mut self, row: R) -> Result<(), OutOfMemory>
        ensures ok { OnOk result (self.new ≡ placed (λ a b. R.Key.cmp (R.key a) (R.key b)) row self.old) }
        ensures err { OnErr result (self.new ≡ self.old) }
    {
        let key = row.key();
        self.rows.insert(key, row)?;
        Ok(())
    }

    /// Puts a row behind all others. `OutOfMemory` if memory was refused; nothing has changed
    /// then.
    pub fn push(&mut self, row: R) -> Result<(), OutOfMemory>
        // its key is above theirs
        requires { Each (λ other. R.Key.cmp (R.key other) (R.key row) ≡ Less) self.old }
        ensures ok { OnOk result (self.new ≡ self.old ++ row ∷ []) }
        ensures err { OnErr result (self.new ≡ self.old) }
    {
        self.insert(row)
    }

    /// Removes the row of this key, and gives it back. It takes no memory.
    pub fn remove(&mut self, key: &R::Key) -> Option<R>
        ensures removed { self.new ≡ filter (λ row. not (R.has_key key.now row)) self.old }
        ensures value { result ≡ find (R.has_key key.now) self.old }
    {
        self.rows.remove(key)
    }

    /// How many rows there are.
    pub fn len(&self) -> usize
        ensures count { result ≡ length self.now }
        ensures rising { IsStrictlySortedBy R.Key.cmp (map R.key self.now) }
    {
        self.rows.len()
    }

    /// The rows, in rising order of their keys.
    pub fn iter(&self) -> Values<'_, R::Key, R>
        ensures rest { result ≡ self.now }
        ensures runs { ShowsInOrder (deref {X = R}) }
        ensures rising { IsStrictlySortedBy R.Key.cmp (map R.key self.now) }
    {
        self.rows.values()
    }
}

impl<R: Row + Clone> Table<R> {
    /// Returns an equal table, if clones of keys and of rows are equal to them. `OutOfMemory` if memory was refused.
    pub fn again(&self) -> Result<Table<R>, OutOfMemory>
        requires keys { (key other : R.Key) → R.Key.is_clone key other → other ≡ key }
        requires rows { (row other : R) → R.is_clone row other → other ≡ row }
        ensures { IfOk result (λ table. table ≡ self.now) }
    {
        Ok(Table {
            rows: self.rows.clone()?,
        })
    }
}
