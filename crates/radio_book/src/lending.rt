//! Mounts' parts that are lent to the control, one after another.

ghost use Rattle.std.specs.Prelude.{◌≡◌, ◌+◌, ◌≤◌, ◌∷◌, [], ◌++◌, List, length, true, false, is_some, IsOk, IfOk, OnErr, All};
ghost use Rattle.radio_chronicle.specs.declared.line.ControlLine.{ControlLine as LineOf};
ghost use Rattle.radio_parts.specs.ControlSteps.{three_of};
ghost use Rattle.radio_events.specs.Events.{EventTakesNoMemory};
ghost use Rattle.radio_events.specs.declared.reply.Reply.{Reply as ReplyOf};
ghost use Rattle.radio_parts_mount.specs.Due.{last_moment, seat_due};
ghost use Rattle.radio_seats_rows.specs.declared.seat.Seat.{Seat as SeatOf};
ghost use Rattle.radio_book.specs.Clocks.{IsNotDue, LeavesParts};
ghost use Rattle.radio_book.specs.LentParts.{AreBack, AreLent, IsControlAsBefore, IsControlStep};
ghost use Rattle.radio_book.specs.MountBooks.{AreCuts};

use crate::{Chronicle, MountBook, OutOfMemory};
use radio_chronicle::{ControlLine, Notes};
use radio_core::Control;
use radio_events::{Event, Reply};
use radio_settings_values::{MountOptions, Settings};

/// Returns whether the event can reach what is in these parts. A clock can't if no mount limits how long its listeners hear, and no
/// session is due, by the parts and as far as the control knows.
// rule: The clock
pub(crate) fn reaches_parts<C: Chronicle>(
    control: &Control,
    lent: &[MountBook<C>],
    event: &Event,
) -> bool
    // nothing is due in the parts then
    ensures { result ≡ false → LeavesParts control.now.station.settings lent.now event.now }
{
    let Event::Clock { ms } = event else {
        return true;
    };
    let settings = control.settings();
    has_time_limit(settings) || is_any_due(lent, settings.limits.source_timeout.get(), *ms)
}

/// Returns whether a mount limits how long its listeners hear.
fn has_time_limit(settings: &Settings) -> bool
    ensures { result ≡ false → (seat : SeatOf) → seat_due settings.now seat ≡ last_moment }
{
    let mounts = settings.mounts.as_slice();
    limits_time(&settings.other_mounts) || mounts.iter().any(|mount| limits_time(&mount.options))
}

/// Returns whether these options limit how long listeners hear.
fn limits_time(options: &MountOptions) -> bool
    ensures { result ≡ is_some options.now.listeners.max_listener_duration }
{
    options.listeners.max_listener_duration.is_some()
}

/// Returns whether a session of these parts may be due at this moment, in milliseconds. Sources have so many seconds.
fn is_any_due<C: Chronicle>(lent: &[MountBook<C>], timeout: u32, ms: u64) -> bool
    ensures { result ≡ false → All (IsNotDue timeout ms) lent.now }
{
    lent.iter().any(|book| book.may_be_due(timeout, ms))
}

/// Puts each part, if it is with its book and the event reaches it, in the place of that which the control has.
pub(crate) fn lend_each<C: Chronicle>(
    control: &mut Control,
    lent: &mut [MountBook<C>],
    is_reached: bool,
)
    ensures { AreLent is_reached lent.old lent.new control.old control.new }
{
    for book in lent.iter_mut() {
        book.lend(control, is_reached);
    }
}

/// Takes each part out of the control.
pub(crate) fn take_back_each<C: Chronicle>(control: &mut Control, lent: &mut [MountBook<C>])
    ensures { AreBack lent.old lent.new control.old control.new }
{
    for book in lent.iter_mut() {
        book.take_back(control);
    }
}

/// The control's step over the parts that are lent, with the reply three times. `OutOfMemory` if memory was refused; the parts were
/// lent and taken back then.
// rule: Legal history
pub(crate) fn step3_over<C: Chronicle>(
    control: &mut Control,
    lent: &mut [MountBook<C>],
    event: Event,
) -> Result<[Reply; 3], OutOfMemory>
    ensures step { IfOk result (λ replies. (reply : ReplyOf) × (replies ≡ three_of reply)
        × IsControlStep lent.old control.old event reply lent.new control.new) }
    ensures err { OnErr result (IsControlAsBefore lent.old control.old lent.new control.new) }
    ensures frees { EventTakesNoMemory event → IsOk result }
{
    let is_reached = reaches_parts(control, lent, &event);
    lend_each(control, lent, is_reached);
    let stepped = control.step3(event);
    take_back_each(control, lent);
    stepped
}

/// Returns three replies, each by itself.
pub(crate) fn apart(replies: [Reply; 3]) -> (Reply, Reply, Reply)
    ensures { replies ≡ result.0 ∷ result.1 ∷ result.2 ∷ [] }
{
    let [first, second, third] = replies;
    (first, second, third)
}

/// Notes where each list was cut.
pub(crate) fn note_cuts<C: Chronicle>(lines: &mut Notes<ControlLine>, lent: &[MountBook<C>])
    requires room { length lent.now ≤ lines.old.room }
    ensures kept { lines.old.keeps ≡ true → (cuts : List LineOf) × AreCuts lent.now cuts × (lines.new.items ≡ lines.old.items ++ cuts) }
    ensures unkept { lines.old.keeps ≡ false → lines.new.items ≡ lines.old.items }
    ensures room { lines.old.room ≤ lines.new.room + length lent.now }
    ensures keeps { lines.new.keeps ≡ lines.old.keeps }
{
    for book in lent {
        lines.note(book.cut());
    }
}
