//! Who sits at a mount whose users do not let it in, since they have changed.

ghost use Rattle.std.specs.Prelude.{◌≡◌};
ghost use Rattle.radio_policy.specs.declared.rule.Rule.{Rule as RuleOf};
ghost use Rattle.radio_seats_rows.specs.Seats.{with_ended};
ghost use Rattle.radio_seats_rows.specs.Rests.{how_many};
ghost use Rattle.radio_parts_station.specs.Outsiders.{is_shut_out};

use crate::registry::Registry;
use radio_access::Lists;
use radio_parts_table::Listeners;
use radio_policy::Rule;
use radio_seats_rows::{Guest, SeatTest};
use radio_values::MountName;

/// The users of the mount do not let the guest in.
#[derive(Drop)]
struct IsShutOut<'a> {
    lists: &'a Lists,
    mount: &'a MountName,
}

impl SeatTest for IsShutOut<'_> {
    ghost use Rattle.std.specs.Prelude.{not};
    ghost use Rattle.radio_access.specs.Lists.{lets_in};

    ghost passes = { λ test guest. not (lets_in test.lists.now test.mount.now guest.pair) };

    fn passes(&self, guest: &Guest) -> bool {
        !self.lists.lets_in(self.mount, guest.pair.as_ref())
    }
}

impl Registry {
    /// Those lose their seats at the mount whom its users do not let in; how many they are. It takes
    /// no memory.
    // rule: Users shut out
    pub fn end_outsiders(&self, seats: &mut Listeners, mount: &MountName) -> u64
        ensures seats { seats.new ≡ record seats.old { seats = with_ended seats.old.seats (is_shut_out self.now.lists mount.now) RuleOf.ListenerPassword } }
        ensures count { result ≡ how_many (is_shut_out self.now.lists mount.now) seats.old.seats }
    {
        let test = IsShutOut {
            lists: &self.lists,
            mount,
        };
        seats.finish_at_if(mount, &test, Rule::ListenerPassword)
    }
}
