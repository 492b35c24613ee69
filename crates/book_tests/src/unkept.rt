//! A hall that stores nothing answers what a core answers: with receipts, and as workers call it.

ghost use Rattle.std.specs.Prelude.{◌≡◌, ◌^◌};
ghost use Rattle.radio_access.specs.Lists.{no_lists};
ghost use Rattle.radio_parts_station.specs.World.{opening};

use crate::mount_books::{Play, plays};
use radio_access::Lists;
use radio_book::{Origin, PASSES, Pass, Receipt, Unkept};
use radio_core::Core;
use radio_events::{Event, OutOfMemory, Reply, SharedServer};
use radio_locks::Hall;
use radio_merge::is_same_reply;
use radio_settings::SettingsFault;
use radio_settings_values::Settings;
use std::alloc::Global;
use std::marker::Brand;
use std::sync::Wait;
use std::sync::ledger::Blank;
use test_calls::{Callee, core, number_given, settings, step_copy};

/// A hall that stores nothing, and a core that is called alike.
#[derive(Drop)]
struct Beside<'a, R: Wait, H: Origin> {
    rt: &'a R,
    hall: &'a Hall<Unkept, H>,
    pass: &'a mut Pass<Unkept, H>,
    core: &'a mut Core,
    /// Whether the hall is called as workers call it.
    as_worker: bool,
    /// How many calls were answered alike.
    alike: usize,
}

impl<'a, R: Wait, H: Origin> Beside<'a, R, H> {
    /// Calls the hall; the reply is counted, if it is as was wanted and nothing is noted.
    fn call_hall(&mut self, event: Event, want: &Reply) -> Option<u64> {
        let reply = if self.as_worker {
            self.reply(event)
        } else {
            self.reply_of_receipt(event)
        };
        match reply {
            Ok(reply) => {
                if is_same_reply(&reply, want) {
                    self.alike = self.alike.saturating_add(1);
                }
                drop(reply);
                Some(number_given(want))
            }
            Err(_) => None,
        }
    }

    /// Returns the hall's reply, as workers call it.
    fn reply(&mut self, event: Event) -> Result<Reply, OutOfMemory> {
        match event {
            Event::Draw { id, room } => {
                SharedServer::draw(self.hall, self.rt, self.pass, id, room)
            }
            event => SharedServer::apply(self.hall, self.rt, self.pass, event),
        }
    }

    /// Returns the reply of the hall's receipt; `Stray` if the receipt has a place, which it must not have.
    fn reply_of_receipt(&mut self, event: Event) -> Result<Reply, OutOfMemory> {
        let receipt = self.hall.apply(self.rt, self.pass, event)?;
        let serial = receipt.stamp().serial;
        let reply = receipt.into_reply();
        if serial == 0 {
            return Ok(reply);
        }
        drop(reply);
        Ok(Reply::Stray)
    }
}

impl<'a, R: Wait, H: Origin> Callee for Beside<'a, R, H> {
    fn call(&mut self, event: Event) -> Option<u64> {
        match step_copy(self.core, &event) {
            Ok(want) => {
                let number = self.call_hall(event, &want);
                drop(want);
                number
            }
            Err(_) => {
                drop(event);
                None
            }
        }
    }
}

/// Whether all calls are answered alike.
fn are_alike_by<H: Origin, R: Wait>(
    rt: &R,
    alloc: Global,
    core: &mut Core,
    settings: Settings,
    blank: Blank,
    play: Play,
    as_worker: bool,
) -> bool
    requires opening { H.opening ≡ opening settings no_lists }
    requires ledger { (blank.name ≡ H.name) × (blank.parts ≡ H.parts) × (blank.parts ≡ 2 ^ 32) }
{
    let Ok(hall) = Hall::<Unkept, H>::new(alloc, settings, Lists::new(alloc), blank) else {
        return false;
    };
    match hall.pass(rt) {
        Some(mut pass) => are_alike_through(rt, alloc, core, &hall, &mut pass, play, as_worker),
        None => false,
    }
}

fn are_alike_through<H: Origin, R: Wait>(
    rt: &R,
    alloc: Global,
    core: &mut Core,
    hall: &Hall<Unkept, H>,
    pass: &mut Pass<Unkept, H>,
    play: Play,
    as_worker: bool,
) -> bool {
    let mut beside = Beside {
        rt,
        hall,
        pass,
        core,
        as_worker,
        alike: 0,
    };
    plays(alloc, &mut beside, play) && beside.alike == play.calls()
}

fn alike_beside<R: Wait>(
    rt: &R,
    alloc: Global,
    core: &mut Core,
    play: Play,
    as_worker: bool,
) -> Result<bool, SettingsFault> {
    let (more, _) = play.settings();
    let settings = settings(alloc, more)?;
    let blank = Blank::new(PASSES);
    Ok(are_alike_by::<Brand, R>(rt, alloc, core, settings, blank, play, as_worker))
}

fn alike(
    rt: &impl Wait,
    alloc: Global,
    play: Play,
    as_worker: bool,
) -> Result<bool, SettingsFault> {
    let (more, _) = play.settings();
    let mut core = core(alloc, more)?;
    let alike = alike_beside(rt, alloc, &mut core, play, as_worker);
    drop(core);
    alike
}

/// Whether all calls are answered alike, with receipts and as workers call.
fn are_alike(rt: &impl Wait, alloc: Global, play: Play) -> bool {
    matches!(alike(rt, alloc, play, false), Ok(true))
        && matches!(alike(rt, alloc, play, true), Ok(true))
}

// rule: Legal history; Reserved ends
#[test]
fn the_same_calls_unkept(rt: HostRuntime) {
    let alloc = rt.alloc();
    assert!(rt; are_alike(&rt, alloc, Play::TwoCallers));
    assert!(rt; are_alike(&rt, alloc, Play::Moved));
    assert!(rt; are_alike(&rt, alloc, Play::MovedTogether));
    assert!(rt; are_alike(&rt, alloc, Play::Scattered));
}
