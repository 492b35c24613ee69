//! The books of mounts and of the control, each under a lock of its own: the replies are those of a core, and all passes settle.

ghost use Rattle.radio_access.specs.Lists.{no_lists};
ghost use Rattle.radio_parts_station.specs.World.{opening};
ghost use Rattle.std.specs.Prelude.{◌≡◌, ◌^◌};

use crate::mount_books::{Play, plays};
use radio_access::Lists;
use radio_book::{Kept, Origin, PASSES, Pass, Receipt};
use radio_core::Core;
use radio_events::{Event, Reply};
use radio_hall::settle;
use radio_locks::Hall;
use radio_merge::is_same_reply;
use radio_settings::SettingsFault;
use radio_settings_values::Settings;
use std::alloc::{AllocGlobal, Global};
use std::marker::Brand;
use std::sync::Wait;
use std::sync::ledger::Blank;
use test_calls::{Callee, core, number_given, settings, step_copy};

/// A caller of a hall, and a core that is called alike.
#[derive(Drop)]
struct Locked<'a, R: Wait, H: Origin> {
    rt: &'a R,
    hall: &'a Hall<Kept, H>,
    pass: &'a mut Pass<Kept, H>,
    core: &'a mut Core,
    /// How many calls a mount's part did by itself.
    own: usize,
    /// How many calls were answered alike.
    alike: usize,
}

impl<R: Wait, H: Origin> Locked<'_, R, H> {
    /// Makes the call; the reply is counted, if it is as was wanted.
    fn call_hall(&mut self, event: Event, want: &Reply) -> Option<u64> {
        match self.hall.apply(self.rt, self.pass, event) {
            Ok(receipt) => {
                self.count(&receipt, want);
                drop(receipt);
                Some(number_given(want))
            }
            Err(_) => None,
        }
    }

    fn count(&mut self, receipt: &Receipt, want: &Reply) {
        if receipt.stamp().list > 0 {
            self.own = self.own.saturating_add(1);
        }
        if is_same_reply(receipt.reply(), want) {
            self.alike = self.alike.saturating_add(1);
        }
    }
}

impl<R: Wait, H: Origin> Callee for Locked<'_, R, H> {
    fn call(&mut self, event: Event) -> Option<u64> {
        match step_copy(self.core, &event) {
            Ok(want) => {
                let number = self.call_hall(event, &want);
                drop(want);
                number
            }
            Err(_) => {
                drop(event);
                None
            }
        }
    }
}

/// Makes the calls. Whether all are answered alike, and so many by a mount's part.
fn goes_well<R: Wait, H: Origin>(
    rt: &R,
    alloc: Global,
    hall: &Hall<Kept, H>,
    pass: &mut Pass<Kept, H>,
    core: &mut Core,
    play: Play,
) -> bool {
    let mut locked = Locked {
        rt,
        hall,
        pass,
        core,
        own: 0,
        alike: 0,
    };
    plays(alloc, &mut locked, play) && locked.alike == play.calls() && play.are_own(locked.own)
}

/// Whether the pass settles with the hall.
fn settles<H: Origin>(alloc: Global, hall: Hall<Kept, H>, pass: Pass<Kept, H>, play: Play) -> bool {
    let mut passes = Vec::new(alloc);
    if passes.push(pass).is_err() {
        drop(hall);
        return false;
    }
    match settle(alloc, hall, passes) {
        Ok(history) => history.len() == play.calls(),
        Err(_) => false,
    }
}

/// Whether the calls are answered as a core answers them, and the pass settles.
fn are_settled<R: Wait, H: Origin>(
    rt: &R,
    alloc: Global,
    core: &mut Core,
    play: Play,
    settings: Settings,
    blank: Blank,
) -> bool
    requires opening { H.opening ≡ opening settings no_lists }
    requires ledger { (blank.name ≡ H.name) × (blank.parts ≡ H.parts) × (blank.parts ≡ 2 ^ 32) }
{
    let Ok(hall) = Hall::<Kept, H>::new(alloc, settings, Lists::new(alloc), blank) else {
        return false;
    };
    let Some(mut pass) = hall.pass(rt) else {
        drop(hall);
        return false;
    };
    let went = goes_well(rt, alloc, &hall, &mut pass, core, play);
    settles(alloc, hall, pass, play) && went
}

fn settled_beside<R: Wait>(
    rt: &R,
    alloc: Global,
    core: &mut Core,
    play: Play,
) -> Result<bool, SettingsFault> {
    let (more, _) = play.settings();
    let settings = settings(alloc, more)?;
    let blank = Blank::new(PASSES);
    Ok(are_settled::<R, Brand>(rt, alloc, core, play, settings, blank))
}

fn is_settled<R: Wait>(rt: &R, alloc: Global, play: Play) -> Result<bool, SettingsFault> {
    let (more, _) = play.settings();
    let mut core = core(alloc, more)?;
    let settled = settled_beside(rt, alloc, &mut core, play);
    drop(core);
    settled
}

/// Under locks, these calls are answered as by a core: those of two callers, those of a listener that is moved and lags, and
/// random calls at mounts that fall back to one another. Then all is one history.
#[test]
fn locks_of_two_mounts(rt: HostRuntime) {
    let alloc = rt.alloc();
    assert!(rt; matches!(is_settled(&rt, alloc, Play::TwoCallers), Ok(true)));
    assert!(rt; matches!(is_settled(&rt, alloc, Play::Moved), Ok(true)));
    assert!(rt; matches!(is_settled(&rt, alloc, Play::MovedTogether), Ok(true)));
    assert!(rt; matches!(is_settled(&rt, alloc, Play::Scattered), Ok(true)));
}
