//! Whose parts an event of the control is lent.

ghost use Rattle.std.specs.Prelude.{◌≡◌, None};
ghost use Rattle.radio_events.specs.Events.{EventTakesNoMemory};

use crate::list_numbers::ListNumbers;
use radio_events::Event;
use radio_values::MountName;

/// The mounts whose parts an event of the control is lent.
#[derive(Drop)]
pub(crate) enum Concerned {
    /// None.
    Nobody,
    /// The mount of this list.
    One(u64),
    /// The mounts of these lists.
    Few(ListNumbers),
    /// Each.
    All,
}

/// Returns the client of a block, a title or a draw.
pub(crate) fn own_client(event: &Event) -> Option<u64>
    ensures { EventTakesNoMemory event.now → result ≡ None }
{
    match event {
        Event::Push { id, .. } | Event::Title { id, .. } | Event::Draw { id, .. } => Some(*id),
        Event::Arrive { .. }
        | Event::Source(_)
        | Event::SourceEnd { .. }
        | Event::Listen(_)
        | Event::Command(_)
        | Event::Leave { .. }
        | Event::RelayUp { .. }
        | Event::RelayDown { .. }
        | Event::Clock { .. } => None,
    }
}

/// Returns the mount that the event names, if a session or a listener may begin there.
pub(crate) fn mount_in(event: &Event) -> Option<MountName>
    ensures { EventTakesNoMemory event.now → result ≡ None }
{
    match event {
        Event::Source(asked) => MountName::read(asked.mount.as_slice()),
        Event::Listen(asked) => MountName::read(asked.mount.as_slice()),
        Event::RelayUp { mount, .. } => MountName::read(mount.as_slice()),
        Event::Arrive { .. }
        | Event::Push { .. }
        | Event::SourceEnd { .. }
        | Event::Title { .. }
        | Event::Draw { .. }
        | Event::Command(_)
        | Event::Leave { .. }
        | Event::RelayDown { .. }
        | Event::Clock { .. } => None,
    }
}
