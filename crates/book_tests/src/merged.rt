//! Lists of two mounts and of the control, made by hand from what a core replied, and merged. A listener moves from one
//! mount to the other. There a block that is too long for the queue finishes it, right before a control entry that is
//! lent both mounts. Then the same lists with one fault each.

use radio_access::Lists;
use radio_core::Core;
use radio_events::{Asked, Command, Entry, Event, Reply};
use radio_merge::{ControlLine, Family, MergeFault, MountItem, MountList, Stamp, merge};
use radio_policy::Rule;
use radio_settings::SettingsFault;
use radio_values::MountName;
use std::alloc::{AllocGlobal, Global};
use test_calls::{
    SHORT_QUEUE, arrival, command_event, core, draw, listen_event, moving, push_event, settings,
    source_event, step_copy,
};

/// How many entries are in all lists.
const ENTRIES: usize = 20;

/// How many bytes the draws give that give any: all of the first block, and behind the move what `/b` pushed since.
const DRAWN: [usize; 2] = [4, 3];

/// What is wrong with the lists or the passes.
#[derive(Clone, Copy)]
enum Spoilt {
    Nothing,
    /// The second pass is not there, so its entries are free.
    OnePassAlone,
    /// Two receipts of the second pass are exchanged.
    PassExchanged,
    /// The entries of `/a` have another reply.
    OtherReply,
    /// A control entry has a cut that is too late.
    LateCut,
}

/// What a merge answers.
#[derive(Clone, Copy)]
enum Wanted {
    History,
    OutOfOrder,
    Unlike,
}

/// Lists and passes that grow with each call of a core.
#[derive(Drop)]
struct Maker {
    core: Core,
    control: Vec<ControlLine>,
    mounts: [Vec<MountItem>; 2],
    passes: [Vec<Stamp>; 2],
}

/// What a call is refused for: memory, or settings.
type Made = Result<(), SettingsFault>;

impl Maker {
    fn new(alloc: Global) -> Result<Maker, SettingsFault> {
        Ok(Maker {
            core: core(alloc, SHORT_QUEUE)?,
            control: Vec::new(alloc),
            mounts: [Vec::new(alloc), Vec::new(alloc)],
            passes: [Vec::new(alloc), Vec::new(alloc)],
        })
    }

    fn step(&mut self, event: Event) -> Result<Entry, SettingsFault> {
        let reply = step_copy(&mut self.core, &event)?;
        Ok(Entry { event, reply })
    }

    /// A control entry is lent a mount, and makes so many items in its list.
    fn cut(&mut self, mount: usize, made: usize) -> Made {
        let items = &mut self.mounts[mount.min(1)];
        let from = items.len() as u64;
        'made: for _ in 0..made {
            items.push(ended(None))?;
        }
        let to = items.len() as u64;
        let list = if mount == 0 { 1 } else { 2 };
        self.control.push(ControlLine::Cut { list, from, to })?;
        Ok(())
    }

    /// A control entry of a pass, which was lent these mounts and made so many items in each.
    fn control(&mut self, pass: usize, event: Event, cuts: &[(usize, usize)]) -> Made {
        'cuts: for (mount, made) in cuts {
            self.cut(*mount, *made)?;
        }
        let entry = self.step(event)?;
        self.control.push(ControlLine::Made(entry))?;
        let serial = self.control.len() as u64;
        self.note(pass, Stamp { list: 0, serial })
    }

    /// An own entry of a pass in a mount's list, which finished so many listeners.
    fn own(&mut self, pass: usize, mount: usize, event: Event, lagged: usize) -> Made {
        let entry = self.step(event)?;
        let items = &mut self.mounts[mount.min(1)];
        items.push(MountItem::Own {
            grant: 0,
            moment: 0,
            entry,
        })?;
        let serial = items.len() as u64;
        'lagged: for _ in 0..lagged {
            items.push(ended(Some(Rule::Lagged)))?;
        }
        let list = if mount == 0 { 1 } else { 2 };
        self.note(pass, Stamp { list, serial })
    }

    fn note(&mut self, pass: usize, stamp: Stamp) -> Made {
        self.passes[pass.min(1)].push(stamp)?;
        Ok(())
    }
}

/// An item that a merge passes over or finds in the range of a cut.
fn ended(rule: Option<Rule>) -> MountItem {
    MountItem::Detach {
        id: 0,
        grant: 0,
        rule,
    }
}

/// Two sources, a listener and an admin arrive, and the listener hears `/a`.
fn begin(alloc: Global, maker: &mut Maker) -> Made {
    maker.control(0, arrival(), &[])?;
    maker.control(1, arrival(), &[])?;
    maker.control(1, arrival(), &[])?;
    maker.control(0, arrival(), &[])?;
    maker.control(0, source_event(alloc, 1, "/a")?, &[(0, 1)])?;
    maker.control(1, source_event(alloc, 2, "/b")?, &[(1, 1)])?;
    maker.control(1, listen_event(alloc, 3, "/a")?, &[(0, 1)])?;
    maker.own(0, 0, push_event(alloc, 1, b"abcd")?, 0)?;
    maker.own(1, 0, draw(3), 0)?;
    maker.own(1, 1, push_event(alloc, 2, b"xyz")?, 0)?;
    maker.own(1, 0, draw(3), 0)
}

/// The listener is moved to `/b`, draws there, and is finished by a long block; the clock goes on, and it leaves.
fn go_on(alloc: Global, maker: &mut Maker) -> Made {
    maker.control(
        0,
        command_event(alloc, 4, moving("/a", "/b"))?,
        &[(0, 1), (1, 1)],
    )?;
    maker.own(0, 0, push_event(alloc, 1, b"efgh")?, 0)?;
    maker.own(1, 1, push_event(alloc, 2, b"uvw")?, 0)?;
    maker.own(1, 1, draw(3), 0)?;
    maker.own(1, 1, push_event(alloc, 2, b"0123456789a")?, 1)?;
    maker.control(0, Event::Clock { ms: 5 }, &[(0, 0), (1, 0)])?;
    maker.control(1, draw(3), &[(1, 0)])?;
    maker.own(0, 0, push_event(alloc, 1, b"ijkl")?, 0)?;
    maker.control(1, Event::Leave { id: 3 }, &[(1, 0)])
}

fn spoil(maker: &mut Maker, spoilt: Spoilt) {
    match spoilt {
        Spoilt::Nothing => (),
        Spoilt::OnePassAlone => maker.passes[1].clear(),
        Spoilt::PassExchanged => {
            if maker.passes[1].len() > 6 {
                maker.passes[1].swap(3, 6);
            }
        }
        Spoilt::OtherReply => set_stray(&mut maker.mounts[0]),
        Spoilt::LateCut => set_late(&mut maker.control),
    }
}

fn set_stray(items: &mut Vec<MountItem>) {
    for item in items.iter_mut() {
        if let MountItem::Own { entry, .. } = item {
            entry.reply = Reply::Stray;
        }
    }
}

/// The cut of the move in the list of `/b` is one later.
fn set_late(control: &mut Vec<ControlLine>) {
    for line in control.iter_mut() {
        if let ControlLine::Cut { list: 2, from, .. } = line {
            if *from == 2 {
                *from = 3;
            }
        }
    }
}

/// What a merge of the lists answers.
fn merged(alloc: Global, spoilt: Spoilt) -> Result<Result<Vec<Entry>, MergeFault>, SettingsFault> {
    let mut maker = Maker::new(alloc)?;
    begin(alloc, &mut maker)?;
    go_on(alloc, &mut maker)?;
    spoil(&mut maker, spoilt);
    let Maker {
        core,
        control,
        mounts: [first, second],
        passes: [one, other],
    } = maker;
    drop(core);
    let mut mounts = Vec::new(alloc);
    mounts.push(MountList::new(first))?;
    mounts.push(MountList::new(second))?;
    let mut passes = Vec::new(alloc);
    passes.push(one)?;
    passes.push(other)?;
    let family = Family { control, mounts };
    let settings = settings(alloc, SHORT_QUEUE)?;
    Ok(merge(
        alloc,
        settings,
        Lists::new(alloc),
        &family,
        passes.as_slice(),
    ))
}

/// Whether a history has all entries, its draws give so many bytes, and the last one says that the listener lags.
fn is_history(history: &[Entry]) -> bool {
    let mut draws = 0usize;
    let mut is_right = history.len() == ENTRIES;
    let mut is_finished = false;
    for entry in history {
        let length = drawn_by(&entry.reply);
        if length > 0 {
            is_right = is_right && DRAWN.get(draws).copied() == Some(length);
            draws = draws.saturating_add(1);
        }
        is_finished = is_finished || matches!(entry.reply, Reply::Finished(Rule::Lagged));
    }
    is_right && is_finished && draws == DRAWN.len()
}

/// How many bytes a reply gives to a listener.
fn drawn_by(reply: &Reply) -> usize {
    match reply {
        Reply::Drawn { pieces, .. } => length_of(pieces.slices()),
        _ => 0,
    }
}

fn length_of(slices: &[bytes::Bytes]) -> usize {
    let mut length = 0usize;
    for slice in slices {
        length = length.saturating_add(slice.len());
    }
    length
}

fn is_as_wanted(alloc: Global, spoilt: Spoilt, wanted: Wanted) -> bool {
    match (merged(alloc, spoilt), wanted) {
        (Ok(Ok(history)), Wanted::History) => is_history(history.as_slice()),
        (Ok(Err(MergeFault::OutOfOrder { .. })), Wanted::OutOfOrder) => true,
        (Ok(Err(MergeFault::Unlike(stamp))), Wanted::Unlike) => stamp.list == 1,
        _ => false,
    }
}

/// Lists that a core's calls make are merged; with a fault in them, the merge names it.
#[test]
fn lists_are_merged(rt: HostRuntime) {
    let alloc = rt.alloc();
    assert!(rt; is_as_wanted(alloc, Spoilt::Nothing, Wanted::History));
    assert!(rt; is_as_wanted(alloc, Spoilt::OnePassAlone, Wanted::History));
    assert!(rt; is_as_wanted(alloc, Spoilt::PassExchanged, Wanted::OutOfOrder));
    assert!(rt; is_as_wanted(alloc, Spoilt::OtherReply, Wanted::Unlike));
    assert!(rt; is_as_wanted(alloc, Spoilt::LateCut, Wanted::OutOfOrder));
}
