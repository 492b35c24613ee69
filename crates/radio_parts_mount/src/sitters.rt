//! Which of those who are attached sit at the mount.

ghost use Rattle.std.specs.Prelude.{◌≡◌, filter, not};
ghost use Rattle.radio_seats_rows.specs.Seats.{sits_at};

use radio_attachments::{Attachment, AttachmentTest, AttachmentTree};
use radio_seats::Seats;
use radio_values::MountName;

/// The listener does not sit at the mount.
#[derive(Drop)]
struct SitsElsewhere<'a> {
    seats: &'a Seats,
    mount: &'a MountName,
}

impl AttachmentTest for SitsElsewhere<'_> {
    ghost use Rattle.std.specs.Prelude.{not};
    ghost use Rattle.radio_seats_rows.specs.Seats.{sits_at};

    ghost passes = { λ test row. not (sits_at test.seats.now.seats row.id test.mount.now) };

    fn passes(&self, row: &Attachment) -> bool {
        !sits_at(self.seats, row.id, self.mount)
    }
}

/// Returns whether the listener sits at the mount.
fn sits_at(seats: &Seats, id: u64, mount: &MountName) -> bool
    ensures { result ≡ sits_at seats.now.seats id mount.now }
{
    match seats.seat(id) {
        Some(seat) => *seat.mount == *mount,
        None => false,
    }
}

/// Takes out those who do not sit at the mount.
pub(crate) fn split_others(
    attachments: &mut AttachmentTree,
    seats: &Seats,
    mount: &MountName,
) -> AttachmentTree
    ensures rest { attachments.new ≡ filter (λ row. not (not (sits_at seats.now.seats row.id mount.now))) attachments.old }
    ensures others { result ≡ filter (λ row. not (sits_at seats.now.seats row.id mount.now)) attachments.old }
{
    attachments.split(&SitsElsewhere { seats, mount })
}

/// Returns those of the listeners that were attached to the mount who sit there. It takes no memory.
pub fn sitters_among(
    attachments: AttachmentTree,
    mount: &MountName,
    seats: &Seats,
) -> AttachmentTree
    ensures { result ≡ filter (λ row. not (not (sits_at seats.now.seats row.id mount.now))) attachments }
{
    let mut attachments = attachments;
    drop(split_others(&mut attachments, seats, mount));
    attachments
}
