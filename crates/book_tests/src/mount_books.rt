//! Two mounts whose parts are kept apart, each in a book of its own, as under locks of their own. The book of the control
//! is lent both for each event that is not one mount's. The replies are those of a core, and all passes settle.

ghost use Rattle.radio_access.specs.Lists.{no_lists};
ghost use Rattle.radio_parts_station.specs.World.{opening};
ghost use Rattle.std.specs.Prelude.{◌≡◌, ◌^◌};

use radio_access::Lists;
use radio_book::{Book, Kept, MountBook, Origin, Own, PASSES, Pass};
use radio_core::Core;
use radio_events::{Event, Reply};
use radio_hall::settle_books;
use radio_merge::is_same_reply;
use radio_seats_rows::OutOfMemory;
use radio_settings::SettingsFault;
use radio_settings_values::Settings;
use radio_values::MountName;
use std::alloc::{AllocGlobal, Global};
use std::marker::Brand;
use std::sync::ledger::Blank;
use test_calls::{
    CALLS, Callee, RING, SHORT_QUEUE, arrival, command_event, core, draw, listen_event, moving,
    number_given, push_event, scatter, serve, settings, source_event, step_copy,
};

/// How many calls are made as dice have them.
const SCATTERED: u64 = 2000;

/// What is done at the books.
#[derive(Clone, Copy)]
pub enum Play {
    /// Two callers make a hundred calls each, at a mount of their own.
    TwoCallers,
    /// A listener moves from one mount to the other. A block that is too long for the queue finishes it there, right before a
    /// `Clock` event.
    Moved,
    /// Three listeners move together from one mount to the other and back, and draw at each. Then one comes to the other.
    MovedTogether,
    /// Calls as dice have them, at four mounts.
    Scattered,
}

impl Play {
    /// The settings, and how many bytes of a stream are kept by them.
    pub fn settings(self) -> (&'static str, u64) {
        match self {
            Play::TwoCallers | Play::MovedTogether => ("", 524_288),
            Play::Moved => (SHORT_QUEUE, 10),
            Play::Scattered => (RING, 12),
        }
    }

    /// How many calls are made in all.
    pub fn calls(self) -> usize {
        match self {
            Play::TwoCallers => 2 * CALLS,
            Play::Moved => 22,
            Play::MovedTogether => 38,
            Play::Scattered => SCATTERED as usize,
        }
    }

    /// Whether a mount's part does so many of them by itself.
    pub fn are_own(self, own: usize) -> bool {
        match self {
            Play::TwoCallers => own == 180,
            Play::Moved => own == 9,
            Play::MovedTogether => own == 18,
            Play::Scattered => own > 300,
        }
    }
}

/// The books, and a core that is called alike.
#[derive(Drop)]
struct Books<'a, H: Origin> {
    control: &'a mut Book<Kept, H>,
    mounts: &'a mut Vec<MountBook<Kept>>,
    pass: &'a mut Pass<Kept, H>,
    core: &'a mut Core,
    /// How many calls a mount's part did by itself.
    own: usize,
    /// How many calls were answered alike.
    alike: usize,
}

impl<H: Origin> Books<'_, H> {
    /// The reply to the event, by the first mount's part that can, else by the control.
    fn apply(&mut self, event: Event) -> Result<Reply, OutOfMemory> {
        let mut event = event;
        for book in self.mounts.iter_mut() {
            match book.apply(self.pass, event)? {
                Own::Made(reply) => {
                    self.own = self.own.saturating_add(1);
                    return Ok(reply);
                }
                Own::Elsewhere(same) => event = same,
            }
        }
        self.control
            .apply(self.pass, self.mounts.as_mut_slice(), event)
    }

    /// Makes the call; the reply is counted, if it is as was wanted.
    fn call_books(&mut self, event: Event, want: &Reply) -> Option<u64> {
        match self.apply(event) {
            Ok(reply) => {
                if is_same_reply(&reply, want) {
                    self.alike = self.alike.saturating_add(1);
                }
                drop(reply);
                Some(number_given(want))
            }
            Err(_) => None,
        }
    }
}

impl<H: Origin> Callee for Books<'_, H> {
    fn call(&mut self, event: Event) -> Option<u64> {
        match step_copy(self.core, &event) {
            Ok(want) => {
                let number = self.call_books(event, &want);
                drop(want);
                number
            }
            Err(_) => {
                drop(event);
                None
            }
        }
    }
}

/// Calls one after another, if there was memory for the events. Whether each was replied to.
fn calls_each<C: Callee>(callee: &mut C, events: Result<Vec<Event>, OutOfMemory>) -> bool {
    let Ok(events) = events else {
        return false;
    };
    let mut all = true;
    'events: for event in events {
        all = callee.call(event).is_some() && all;
    }
    all
}

/// Two sources, a listener and an admin arrive. The listener hears `/a`, is moved to `/b`, and is finished there.
fn moved_events(alloc: Global) -> Result<Vec<Event>, OutOfMemory> {
    let mut events = Vec::new(alloc);
    'arrivals: for _ in 0..4 {
        events.push(arrival())?;
    }
    events.push(source_event(alloc, 1, "/a")?)?;
    events.push(source_event(alloc, 2, "/b")?)?;
    events.push(listen_event(alloc, 3, "/a")?)?;
    events.push(push_event(alloc, 1, b"abcd")?)?;
    events.push(draw(3))?;
    events.push(push_event(alloc, 2, b"xyz")?)?;
    events.push(draw(3))?;
    events.push(command_event(alloc, 4, moving("/a", "/b"))?)?;
    events.push(push_event(alloc, 1, b"efgh")?)?;
    events.push(push_event(alloc, 2, b"uvw")?)?;
    events.push(draw(3))?;
    events.push(push_event(alloc, 2, b"0123456789a")?)?;
    events.push(Event::Clock { ms: 5 })?;
    events.push(draw(3))?;
    events.push(push_event(alloc, 1, b"ijkl")?)?;
    'leavers: for id in 1..4 {
        events.push(Event::Leave { id })?;
    }
    Ok(events)
}

/// Two sources, three listeners and an admin arrive. The listeners hear `/a`, are moved to `/b` and back, and another one comes to
/// `/b`. All draw at each place.
fn moved_together_events(alloc: Global) -> Result<Vec<Event>, OutOfMemory> {
    let mut events = Vec::new(alloc);
    'arrivals: for _ in 0..7 {
        events.push(arrival())?;
    }
    events.push(source_event(alloc, 1, "/a")?)?;
    events.push(source_event(alloc, 2, "/b")?)?;
    'listeners: for id in 3..6 {
        events.push(listen_event(alloc, id, "/a")?)?;
    }
    events.push(push_event(alloc, 1, b"abcd")?)?;
    push_draws(&mut events)?;
    events.push(command_event(alloc, 6, moving("/a", "/b"))?)?;
    events.push(push_event(alloc, 1, b"efgh")?)?;
    events.push(push_event(alloc, 2, b"uvw")?)?;
    push_draws(&mut events)?;
    events.push(command_event(alloc, 6, moving("/b", "/a"))?)?;
    events.push(push_event(alloc, 1, b"ijkl")?)?;
    push_draws(&mut events)?;
    events.push(listen_event(alloc, 7, "/b")?)?;
    events.push(push_event(alloc, 2, b"xyz")?)?;
    events.push(draw(7))?;
    push_draws(&mut events)?;
    'leavers: for id in 1..6 {
        events.push(Event::Leave { id })?;
    }
    Ok(events)
}

/// Adds a draw of each of the three listeners.
fn push_draws(events: &mut Vec<Event>) -> Result<(), OutOfMemory> {
    'listeners: for id in 3..6 {
        events.push(draw(id))?;
    }
    Ok(())
}

/// Makes the calls through this caller. Whether each was replied to.
pub fn plays<C: Callee>(alloc: Global, callee: &mut C, play: Play) -> bool {
    match play {
        Play::TwoCallers => serve(alloc, callee, "/a") && serve(alloc, callee, "/b"),
        Play::Moved => calls_each(callee, moved_events(alloc)),
        Play::MovedTogether => calls_each(callee, moved_together_events(alloc)),
        Play::Scattered => scatter(alloc, callee, 2, SCATTERED),
    }
}

/// Makes the calls, through a pass that is added. Whether all are answered alike, and so many by a mount's part.
fn goes_well<H: Origin>(
    alloc: Global,
    control: &mut Book<Kept, H>,
    mounts: &mut Vec<MountBook<Kept>>,
    passes: &mut Vec<Pass<Kept, H>>,
    core: &mut Core,
    play: Play,
) -> bool {
    let Some(mut pass) = control.pass() else {
        return false;
    };
    let mut books = Books {
        control,
        mounts,
        pass: &mut pass,
        core,
        own: 0,
        alike: 0,
    };
    let went = plays(alloc, &mut books, play)
        && books.alike == play.calls()
        && play.are_own(books.own);
    passes.push(pass).is_ok() && went
}

/// Adds the book of the mount of this path. Whether there was memory for it.
fn adds_book(
    alloc: Global,
    mounts: &mut Vec<MountBook<Kept>>,
    path: &str,
    list: u64,
    queue: u64,
) -> bool {
    let Some(mount) = MountName::read(path.as_bytes()) else {
        return false;
    };
    match MountBook::new(alloc, mount, queue) {
        Ok(book) => {
            let mut book = book;
            book.set_list(list);
            mounts.push(book).is_ok()
        }
        Err(_) => false,
    }
}

/// Whether the calls are answered as a core answers them, and the pass settles.
fn are_settled<H: Origin>(
    alloc: Global,
    core: &mut Core,
    play: Play,
    settings: Settings,
    again: Settings,
    blank: Blank,
) -> bool
    requires opening { H.opening ≡ opening settings no_lists }
    requires ledger { (blank.name ≡ H.name) × (blank.parts ≡ H.parts) × (blank.parts ≡ 2 ^ 32) }
{
    let mut control: Book<Kept, H> = Book::new(alloc, settings, Lists::new(alloc), blank);
    let mut mounts = Vec::new(alloc);
    let mut passes = Vec::new(alloc);
    let (_, queue) = play.settings();
    let went = adds_book(alloc, &mut mounts, "/a", 1, queue)
        && adds_book(alloc, &mut mounts, "/b", 2, queue)
        && goes_well(alloc, &mut control, &mut mounts, &mut passes, core, play);
    let Ok(mounts) = all_there(alloc, mounts) else {
        drop(control);
        drop(passes);
        drop(again);
        return false;
    };
    match settle_books(alloc, control, mounts, passes, again, Lists::new(alloc)) {
        Ok(history) => went && history.len() == play.calls(),
        Err(_) => false,
    }
}

/// The books, each of which is there.
fn all_there(
    alloc: Global,
    mounts: Vec<MountBook<Kept>>,
) -> Result<Vec<Option<MountBook<Kept>>>, OutOfMemory> {
    let mut books = Vec::new(alloc);
    for book in mounts {
        books.push(Some(book))?;
    }
    Ok(books)
}

fn settled_beside(alloc: Global, core: &mut Core, play: Play) -> Result<bool, SettingsFault> {
    let (more, _) = play.settings();
    let again = settings(alloc, more)?;
    match settings(alloc, more) {
        Ok(settings) => {
            let blank = Blank::new(PASSES);
            Ok(are_settled::<Brand>(alloc, core, play, settings, again, blank))
        }
        Err(fault) => {
            drop(again);
            Err(fault)
        }
    }
}

fn is_settled(alloc: Global, play: Play) -> Result<bool, SettingsFault> {
    let (more, _) = play.settings();
    let mut core = core(alloc, more)?;
    let settled = settled_beside(alloc, &mut core, play);
    drop(core);
    settled
}

/// The calls of two callers, and those of a listener that is moved and lags, are answered by the books of two mounts and of the
/// control as by a core; then all is one history.
#[test]
fn books_of_two_mounts(rt: HostRuntime) {
    let alloc = rt.alloc();
    assert!(rt; matches!(is_settled(alloc, Play::TwoCallers), Ok(true)));
    assert!(rt; matches!(is_settled(alloc, Play::Moved), Ok(true)));
}
