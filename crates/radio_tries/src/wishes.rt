//! Which relays are to stop, and which to start.

ghost use Rattle.std.specs.Prelude.{◌≡◌, ◌++◌, filter, map, not, IfOk, OnOk};
ghost use Rattle.std.specs.Arc.{arc_value};
ghost use Rattle.radio_tries.specs.Wishes.{Sorts, in_order, own_of, other_started_relays, started_by, stopped_by, is_settings_relay};

use crate::OutOfMemory;
use radio_relay::RelayOrder;
use radio_settings_values::{RelaySetting, Settings};
use radio_values::MountName;
use std::alloc::Global;
use std::sync::Arc;

/// Which relays are to stop, and which to start, in the order in which they start.
#[derive(Drop)]
pub struct Wishes {
    /// The mounts whose relays are to stop.
    pub stops: Vec<MountName>,
    /// The relays that are to start: those of the settings, and then those of the slave's list.
    pub starts: Vec<Arc<RelaySetting>>,
}

/// What some orders say, sorted.
#[derive(Drop)]
struct Sorted {
    stops: Vec<MountName>,
    own: Vec<Arc<RelaySetting>>,
    listed: Vec<Arc<RelaySetting>>,
}

/// Returns what these orders say. Those of a kind stay in their order.
///
/// `OutOfMemory` if memory was refused.
// rule: Relay places
pub fn wishes_of(
    alloc: Global,
    settings: &Settings,
    orders: Vec<RelayOrder>,
) -> Result<Wishes, OutOfMemory>
    ensures stops { IfOk result (λ wishes. wishes.stops.items ≡ stopped_by orders.items) }
    ensures starts { IfOk result (λ wishes. map arc_value wishes.starts.items ≡ in_order settings.now (started_by orders.items)) }
{
    let sorted = sorted_by(alloc, settings, orders)?;
    let Sorted {
        stops,
        own,
        mut listed,
    } = sorted;
    let mut starts = own;
    starts.append(&mut listed)?;
    Ok(Wishes { stops, starts })
}

/// Sorts orders. `OutOfMemory` if memory was refused.
fn sorted_by(
    alloc: Global,
    settings: &Settings,
    orders: Vec<RelayOrder>,
) -> Result<Sorted, OutOfMemory>
    ensures { IfOk result (λ sorted. Sorts settings.now orders.items sorted) }
{
    let mut sorted = Sorted {
        stops: Vec::new(alloc),
        own: Vec::new(alloc),
        listed: Vec::new(alloc),
    };
    'orders: for order in orders {
        sorted.add(alloc, settings, order)?;
    }
    Ok(sorted)
}

impl Sorted {
    ghost use Rattle.std.specs.Prelude.{[], ◌∷◌};
    ghost use Rattle.radio_relay.specs.declared.orders.RelayOrder.TheVariants.{Start};

    /// Adds an order behind the others of its kind. `OutOfMemory` if memory was refused.
    fn add(
        &mut self,
        alloc: Global,
        settings: &Settings,
        order: RelayOrder,
    ) -> Result<(), OutOfMemory>
        ensures stops { OnOk result (self.new.stops.items ≡ self.old.stops.items ++ stopped_by (order ∷ [])) }
        ensures own { OnOk result (map arc_value self.new.own.items ≡ map arc_value self.old.own.items ++ own_of settings.now (order ∷ [])) }
        ensures listed { OnOk result (map arc_value self.new.listed.items ≡ map arc_value self.old.listed.items ++ other_started_relays settings.now (order ∷ [])) }
    {
        match order {
            RelayOrder::Stop(mount) => self.stops.push(mount)?,
            RelayOrder::Start(relay) => self.start(alloc, settings, relay)?,
        }
        Ok(())
    }

    /// Adds a relay that is to start. `OutOfMemory` if memory was refused.
    fn start(
        &mut self,
        alloc: Global,
        settings: &Settings,
        relay: RelaySetting,
    ) -> Result<(), OutOfMemory>
        ensures stops { OnOk result (self.new.stops.items ≡ self.old.stops.items) }
        ensures own { OnOk result (map arc_value self.new.own.items ≡ map arc_value self.old.own.items ++ own_of settings.now (Start relay ∷ [])) }
        ensures listed { OnOk result (map arc_value self.new.listed.items ≡ map arc_value self.old.listed.items ++ other_started_relays settings.now (Start relay ∷ [])) }
    {
        let is_own = settings.relays.get(&relay.local_mount).is_some();
        let relay = Arc::new(alloc, relay)?;
        if is_own {
            self.own.push(relay)?;
            return Ok(());
        }
        self.listed.push(relay)?;
        Ok(())
    }
}
