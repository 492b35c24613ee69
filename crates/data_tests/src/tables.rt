//! Tables by number, with ample memory. Those by name are the server's.

ghost use Rattle.std.specs.Prelude.{◌≡◌, ◌==◌, List, ℕ, find};
ghost use Rattle.std.specs.Option.{option_copied};
ghost use Rattle.radio_tables.specs.Lists.{update_first};

use radio_tables::{OutOfMemory, Row, RowChange, Table};

#[derive(Clone, Copy)]
struct Listener {
    id: u64,
    seconds: u32,
}

impl Row for Listener {
    type Key = u64;

    ghost use Rattle.std.specs.Prelude.{◌==◌};
    ghost use Rattle.radio_tables.proofs.KeyLaws.{number_is};

    ghost key = { λ listener. listener.id };

    ghost has_key = { λ id listener. listener.id == id };

    ghost has_key_is = { λ id listener. number_is id listener.id };

    fn key(&self) -> u64 {
        self.id
    }
}

#[derive(Drop)]
struct Seconds(u32);

impl RowChange<Listener> for Seconds {
    ghost use Rattle.std.specs.Prelude.{refl};

    ghost gives = { λ change listener. record listener { seconds = change.0 } };

    ghost keeps_key = { λ change listener. refl };

    fn apply(&self, row: &mut Listener) {
        row.seconds = self.0;
    }
}

// A user of a table needs no proof: its contract is the table's.
fn set_seconds(listeners: &mut Table<Listener>, id: u64, seconds: u32)
    ensures { listeners.new ≡ update_first (λ listener. listener.id == id) (λ listener. record listener { seconds = seconds }) listeners.old }
{
    listeners.change(&id, &Seconds(seconds));
}

fn listener_of(listeners: &Table<Listener>, id: u64) -> Option<&Listener>
    ensures { option_copied result ≡ find (λ listener. listener.id == id) listeners.now }
{
    listeners.get(&id)
}

/// How many rows are inserted where memory is ample, in no order.
const MANY: u64 = 10_000;

const ARRIVING: [u64; 7] = [5, 2, 9, 2, 7, 1, 5];

fn insert_all(listeners: &mut Table<Listener>, ids: &[u64]) -> Result<(), OutOfMemory> {
    for id in ids {
        listeners.insert(Listener {
            id: *id,
            seconds: 0,
        })?;
    }
    Ok(())
}

fn has_ids(listeners: &Table<Listener>, ids: &[u64]) -> bool {
    listeners.len() == ids.len()
        && listeners
            .iter()
            .zip(ids)
            .all(|(listener, id)| listener.id == *id)
}

fn has_seconds(listeners: &Table<Listener>, id: u64, seconds: u32) -> bool {
    match listener_of(listeners, id) {
        Some(listener) => listener.seconds == seconds,
        None => false,
    }
}

fn are_changed(listeners: &mut Table<Listener>) -> bool {
    set_seconds(listeners, 2, 4);
    let one = has_seconds(listeners, 2, 4) && has_seconds(listeners, 5, 0);
    listeners.change_all(&Seconds(8));
    one && has_seconds(listeners, 1, 8) && has_seconds(listeners, 9, 8)
}

fn are_removed(listeners: &mut Table<Listener>, id: u64) -> bool {
    listeners.remove(&id).is_some()
        && listeners.remove(&id).is_none()
        && listeners.get(&id).is_none()
}

fn are_kept(listeners: &mut Table<Listener>) -> bool {
    insert_all(listeners, &ARRIVING).is_ok()
        && has_ids(listeners, &[1, 2, 5, 7, 9])
        && are_changed(listeners)
        && are_removed(listeners, 5)
}

#[test]
fn rows_stand_in_order_and_are_found(rt: HostRuntime) {
    let mut listeners = Table::new(rt.alloc());
    assert!(rt; are_kept(&mut listeners));
}

fn insert_many(listeners: &mut Table<Listener>) -> Result<(), OutOfMemory> {
    for n in 0..MANY {
        let id = n * 389 % MANY;
        listeners.insert(Listener { id, seconds: 0 })?;
    }
    Ok(())
}

fn remove_many(listeners: &mut Table<Listener>) -> bool {
    for id in 0..MANY {
        if listeners.len() as u64 != MANY - id || !are_removed(listeners, id) {
            return false;
        }
    }
    listeners.len() == 0
}

#[test]
fn many_rows_come_and_go(rt: HostRuntime) {
    let mut listeners = Table::new(rt.alloc());
    assert!(rt; insert_many(&mut listeners).is_ok() && remove_many(&mut listeners));
}
