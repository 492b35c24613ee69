//! A mount's part that is kept apart, as under a lock of its own: it does what it can by itself, and is
//! lent to the control for all else. The replies are those of a core, and the part keeps a list of what happens to it.

use radio_access::Lists;
use radio_core::Core;
use radio_events::{Event, Reply};
use radio_merge::is_same_reply;
use radio_parts::Control;
use radio_parts_mount::{ListedPart, MountItem, PartAnswer};
use radio_seats_rows::OutOfMemory;
use radio_settings::SettingsFault;
use radio_values::MountName;
use std::alloc::{AllocGlobal, Global};
use test_calls::{CALLS, Callee, core, number_given, serve, settings, step_copy};

/// As many bytes of a stream are kept as the settings say.
const QUEUE: u64 = 524_288;

/// The control and a mount's part, and a core that is called alike.
#[derive(Drop)]
struct Apart<'a> {
    alloc: Global,
    mount: MountName,
    control: &'a mut Control,
    part: Option<ListedPart>,
    core: &'a mut Core,
    /// How many calls the part did by itself.
    own: usize,
    /// How many calls were answered alike.
    alike: usize,
}

impl Apart<'_> {
    /// The reply to the event, by the part if it can, else by the control.
    fn reply(&mut self, event: Event) -> Result<Reply, OutOfMemory> {
        let Some(part) = self.part.take() else {
            return self.reply_lent(event);
        };
        self.reply_by(part, event)
    }

    /// The reply to the event by this part, if it can; else it is lent.
    fn reply_by(&mut self, part: ListedPart, event: Event) -> Result<Reply, OutOfMemory> {
        let mut part = part;
        match part.step(self.alloc, 0, QUEUE, event)? {
            PartAnswer::Replied(reply) => {
                self.own = self.own.saturating_add(1);
                self.part = Some(part);
                Ok(reply)
            }
            PartAnswer::Elsewhere(event) => {
                drop(self.control.exchange(part));
                self.reply_lent(event)
            }
        }
    }

    /// The control's reply, which has the part; it is taken out again.
    fn reply_lent(&mut self, event: Event) -> Result<Reply, OutOfMemory> {
        let reply = self.control.step(event)?;
        match self.control.take_out(&self.mount) {
            Ok(part) => {
                self.part = part;
                Ok(reply)
            }
            Err(refused) => {
                drop(reply);
                Err(refused)
            }
        }
    }

    fn count(&mut self, reply: &Reply, want: &Reply) {
        if is_same_reply(reply, want) {
            self.alike = self.alike.saturating_add(1);
        }
    }

    /// Makes the call; the reply is counted, if it is as was wanted.
    fn call_apart(&mut self, event: Event, want: &Reply) -> Option<u64> {
        match self.reply(event) {
            Ok(reply) => {
                self.count(&reply, want);
                drop(reply);
                Some(number_given(want))
            }
            Err(_) => None,
        }
    }
}

impl Callee for Apart<'_> {
    fn call(&mut self, event: Event) -> Option<u64> {
        match step_copy(self.core, &event) {
            Ok(want) => {
                let number = self.call_apart(event, &want);
                drop(want);
                number
            }
            Err(_) => {
                drop(event);
                None
            }
        }
    }
}

/// Whether all 100 calls are answered alike, and more than 40 of them by the part.
fn all_alike(alloc: Global, control: &mut Control, core: &mut Core, mount: MountName) -> bool {
    let mut apart = Apart {
        alloc,
        mount,
        control,
        part: None,
        core,
        own: 0,
        alike: 0,
    };
    serve(alloc, &mut apart, "/a");
    let Apart {
        part,
        own,
        alike,
        ..
    } = apart;
    alike == CALLS && own > 40 && is_listed(part, own)
}

/// Whether a list was kept of all that happened to the part, with so many own entries.
fn is_listed(part: Option<ListedPart>, own: usize) -> bool {
    let Some(part) = part else {
        return false;
    };
    match part.into_items() {
        Some(kept) => count_own(kept.items.as_slice()) == own && kept.items.len() > own,
        None => false,
    }
}

/// How many of the items are own entries.
fn count_own(items: &[MountItem]) -> usize {
    let mut count = 0usize;
    for item in items {
        if item.own_entry().is_some() {
            count = count.saturating_add(1);
        }
    }
    count
}

fn alike_beside(alloc: Global, core: &mut Core, mount: MountName) -> Result<bool, SettingsFault> {
    let mut control = Control::new(alloc, settings(alloc, "")?, Lists::new(alloc));
    control.keep_lists();
    let alike = all_alike(alloc, &mut control, core, mount);
    drop(control);
    Ok(alike)
}

fn are_alike(alloc: Global, mount: MountName) -> Result<bool, SettingsFault> {
    let mut core = core(alloc, "")?;
    let alike = alike_beside(alloc, &mut core, mount);
    drop(core);
    alike
}

#[test]
fn a_part_that_is_lent(rt: HostRuntime) {
    let Some(mount) = MountName::read(b"/a".as_slice()) else {
        assert!(rt; false);
        return;
    };
    let alike = are_alike(rt.alloc(), mount);
    assert!(rt; matches!(alike, Ok(true)));
}
