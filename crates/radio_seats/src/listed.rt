//! Who sits at a mount.

ghost use Rattle.std.specs.Prelude.{◌≡◌, map, filter_map, IfOk};
ghost use Rattle.std.specs.Option.{option_map};
ghost use Rattle.radio_seats.specs.Listed.{lent_guest, guests_at, row_guest};

use crate::Seats;
use radio_seats_rows::{Guest, ListenerRow, OutOfMemory, RowState};
use radio_tables::Table;
use radio_values::MountName;
use std::alloc::Global;

/// A listener who sits, as the table lends it.
#[derive(Clone, Copy)]
pub struct LentListener<'a> {
    /// Its number.
    pub id: u64,
    /// What stays as it is of it wherever it sits.
    pub guest: &'a Guest,
}

impl Seats {
    /// Who sits at the mount, in the order of their numbers. The time grows as the number of
    /// listeners. `OutOfMemory` if memory was refused.
    pub fn guests_at(
        &self,
        alloc: Global,
        mount: &MountName,
    ) -> Result<Vec<LentListener<'_>>, OutOfMemory>
        ensures { IfOk result (λ found. map lent_guest found.items ≡ guests_at self.now.seats mount.now) }
    {
        match self.mounts.number(mount) {
            Some(number) => guests_in(alloc, &self.rows, number),
            None => Ok(Vec::new(alloc)),
        }
    }
}

/// Who sits at the mount of this number.
fn guests_in(
    alloc: Global,
    rows: &Table<ListenerRow>,
    number: u64,
) -> Result<Vec<LentListener<'_>>, OutOfMemory>
    ensures { IfOk result (λ found. map lent_guest found.items ≡ filter_map (row_guest number) rows.now) }
{
    let mut found = Vec::new(alloc);
    for row in rows.iter() {
        if let Some(guest) = guest_by(row, number) {
            found.push(guest)?;
        }
    }
    Ok(found)
}

/// The listener, if it sits at the mount of this number.
fn guest_by(row: &ListenerRow, number: u64) -> Option<LentListener<'_>>
    ensures { option_map lent_guest result ≡ row_guest number row.now }
{
    match &row.state {
        RowState::Seated(seat) if seat.mount == number => Some(LentListener {
            id: row.id,
            guest: &seat.guest,
        }),
        RowState::Seated(_) | RowState::Ended { .. } => None,
    }
}
