//! The server: its state, and what an event does to it. The outcome of an event is worked out
//! first, which may be refused memory. It is then committed, whole or not at all.

ghost use Rattle.std.specs.Prelude.{◌≡◌, [], ◌∷◌, IsOk, IfOk, OnOk, OnErr};
ghost use Rattle.radio_events.specs.declared.reply.Reply.{Reply as ReplyOf};
ghost use Rattle.std.specs.Option.{option_copied};
ghost use Rattle.radio_seats_rows.specs.Seats.{last_mount_of};
ghost use Rattle.radio_parts_facts.specs.Wanted.{wanted};
ghost use Rattle.radio_parts_station.specs.World.{World, opening};
ghost use Rattle.radio_parts.specs.Step.{Step};
ghost use Rattle.radio_core.specs.Represents.{Represents, StandsForSome};
ghost use Rattle.radio_events.specs.Events.{EventTakesNoMemory};

use crate::OutOfMemory;
use radio_access::Lists;
use radio_events::{Event, Reply, Server};
use radio_parts::Control;
use radio_settings_values::Settings;
use radio_values::MountName;
use std::alloc::Global;
use std::marker::Model;

/// The server's state. Contracts see a `World` that has only the last blocks of each stream; a core always represents
/// some state that has whole streams.
pub struct Core {
    control: Control,
}

impl Drop for Core {
    fn drop(self) {
        let Core { control } = self;
        drop(control);
    }
}

impl Model for Core {
    ghost use Rattle.radio_parts_station.specs.World.{World};
    ghost use Rattle.radio_core.specs.Represents.{StandsForSome};
    ghost use Rattle.std.specs.Coded.{codes};
    ghost use Rattle.radio_creds.specs.contracts.user_list.Users as creds_users;

    ghost Value = { World };

    ghost coded = { Prim.hlevel (codes, creds_users.the_row.coded) };

    ghost view = { λ c. c.control };

    ghost invariant = { λ c. StandsForSome c.control };
}

impl Core {
    /// Returns a server to which nothing has happened yet. It takes no memory.
    #[tactic(auto, using(crate::proofs::Kept::StepLemmas::opening_represents))]
    pub fn new(alloc: Global, settings: Settings, lists: Lists) -> Core
        // it represents the opening state of these settings and lists
        ensures { Represents result (opening settings lists) }
    {
        Core {
            control: Control::new(alloc, settings, lists),
        }
    }

    /// A core represents some state, whatever has happened. Runs no code.
    // rule: Kept stream
    pub fn stands(&self)
        ensures { StandsForSome self.now }
    {
        let _ = &self.control;
    }

    /// Returns the settings that it was given.
    pub fn settings(&self) -> &Settings
        // they are those of whatever state it represents
        ensures { (w : World) → Represents self.now w → result.now ≡ w.station.settings }
    {
        self.control.settings()
    }

    /// Returns the mounts where somebody sits and that relays feed on demand, in the order of their bytes.
    /// `OutOfMemory` if memory was refused.
    // rule: Pulls on demand
    pub fn wanted(&self) -> Result<Vec<MountName>, OutOfMemory>
        // they are those of whatever state it represents
        ensures { (w : World) → Represents self.now w → IfOk result (λ mounts. mounts.items ≡ wanted w) }
    {
        self.control.wanted()
    }

    /// Returns the mount where the listener of this number sits, or sat last if it was finished; `None` if there is no
    /// such listener.
    // rule: Last mount
    pub fn last_mount(&self, id: u64) -> Option<&MountName>
        // it is that of whatever state it represents
        ensures { (w : World) → Represents self.now w → option_copied result ≡ last_mount_of w.seats id }
    {
        self.control.last_mount(id)
    }

    /// Applies one event and returns its reply. `OutOfMemory` if memory was refused; nothing has changed then.
    // rule: Client numbers; Out of place; Leaving; Refused memory; Lagged; The clock; One moment; Blocks of a source
    // rule: Draws; Kept stream; Relay comes up; Relay goes down
    pub fn step(&mut self, event: Event) -> Result<Reply, OutOfMemory>
        // whatever state the core represents, the reply is that of a step from it, and the core represents the state
        // after it
        ensures step { (w : World) → Represents self.old w → IfOk result (λ reply. (w' : World) × Step w event reply w' × Represents self.new w') }
        // the end of a session, of a connection and of a relay, and the clock, are never refused
        ensures frees { EventTakesNoMemory event → IsOk result }
        ensures err { OnErr result (self.new ≡ self.old) }
    {
        self.control.step(event)
    }

    /// Applies one event and returns its reply three times: for the record, for the client and for the caller.
    /// `OutOfMemory` if memory was refused; nothing has changed then.
    pub fn step3(&mut self, event: Event) -> Result<[Reply; 3], OutOfMemory>
        // whatever state the core represents, the replies are that of a step from it, and the core represents the state
        // after it
        ensures step { (w : World) → Represents self.old w
            → IfOk result (λ replies. (reply : ReplyOf) × (w' : World) × Step w event reply w' × (replies ≡ reply ∷ reply ∷ reply ∷ [])
            × Represents self.new w') }
        // the end of a session, of a connection and of a relay, and the clock, are never refused
        ensures frees { EventTakesNoMemory event → IsOk result }
        ensures err { OnErr result (self.new ≡ self.old) }
    {
        self.control.step3(event)
    }
}

impl Server for Core {
    ghost use Rattle.radio_events.specs.Events.{EventTakesNoMemory};
    ghost use Rattle.radio_core.specs.Represents.{core_steps};

    ghost steps = { core_steps };

    ghost refuses = { λ core event. EventTakesNoMemory event → ⊥ };

    fn apply(&mut self, event: Event) -> Result<Reply, OutOfMemory> {
        self.stands();
        self.step(event)
    }

    fn last_mount(&self, id: u64) -> Option<MountName> {
        Core::last_mount(self, id).copied()
    }
}
