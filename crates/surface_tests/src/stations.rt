//! A core, a book and a hall. A listener asks each for a mount that a relay feeds on demand. Each replies alike, and the mount
//! is wanted for as long as the listener sits there.

ghost use Rattle.std.specs.Prelude.{◌≡◌, ◌^◌};
ghost use Rattle.radio_hall.specs.Words.{no_lists, opening};

use bytes::Bytes;
use radio_addr::Peer;
use radio_book::{Book, Kept, MountBook, Origin, PASSES, Pass, Unkept};
use radio_core::{Boxed, Core, Event, ListenRequest, Lists, OutOfMemory, PageVisit, Reply};
use radio_hall::Hall;
use radio_settings::{MountName, Settings, SettingsFault, read_settings};
use std::alloc::{AllocGlobal, Global};
use std::marker::Brand;
use std::sync::Wait;
use std::sync::ledger::Blank;

/// A relay that is pulled on demand.
const ON_DEMAND: &str = "source-password = 'a'\nadmin-password = 'b'\n\
[[relay]]\nserver = 's'\nmount = '/far'\nlocal-mount = '/a'\non-demand = true\n";

/// The settings of these stations.
pub fn settings(alloc: Global) -> Result<Settings, SettingsFault> {
    read_settings(alloc, ON_DEMAND)
}

/// A connection comes.
pub fn arrival() -> Event {
    Event::Arrive {
        peer: Peer::of_v4(0x0a00_0001),
    }
}

/// The first client asks for the mount.
fn listening(alloc: Global) -> Result<Event, OutOfMemory> {
    let request = ListenRequest {
        id: 1,
        mount: Bytes::from_static(b"/a"),
        pair: None,
        wants_metadata: false,
        visit: PageVisit {
            host: Bytes::from_static(b""),
            server_start: None,
        },
    };
    Ok(Event::Listen(Boxed::new(alloc, request)?))
}

/// Whoever can be asked.
trait Asked {
    /// Applies an event. Whether the reply is that of a step in the order of this story.
    fn applies(&mut self, event: Event, want: Want) -> Result<bool, OutOfMemory>;

    /// The mounts that are wanted.
    fn wanted(&mut self) -> Result<Vec<MountName>, OutOfMemory>;
}

/// What a reply should be.
#[derive(Clone, Copy)]
enum Want {
    /// The first client has arrived.
    First,
    /// It has its seat.
    Seat,
    /// It was noted.
    Noted,
}

impl Want {
    fn is(self, reply: &Reply) -> bool {
        match self {
            Want::First => matches!(reply, Reply::Arrived(1)),
            Want::Seat => matches!(reply, Reply::Seated { .. }),
            Want::Noted => matches!(reply, Reply::Noted),
        }
    }

    /// The same of a reply that is gone then.
    fn takes(self, reply: Reply) -> bool {
        let is_wanted = self.is(&reply);
        drop(reply);
        is_wanted
    }

    /// The same of three.
    fn takes_all(self, replies: [Reply; 3]) -> bool {
        let [first, second, third] = replies;
        let is_first = self.takes(first);
        let is_second = self.takes(second);
        self.takes(third) && is_first && is_second
    }
}

/// Whether just this mount is wanted.
fn is_one(mounts: &[MountName]) -> bool {
    match mounts {
        [mount] => mount.as_bytes() == b"/a".as_slice(),
        _ => false,
    }
}

/// Whether the listener is seated, and the mount is wanted then.
fn is_seated<A: Asked>(alloc: Global, asked: &mut A) -> Result<bool, OutOfMemory> {
    let is_first = asked.applies(arrival(), Want::First)?;
    let is_seated = asked.applies(listening(alloc)?, Want::Seat)?;
    let wanted = asked.wanted()?;
    Ok(is_first && is_seated && is_one(wanted.as_slice()))
}

/// Whether it leaves, and no mount is wanted then.
fn has_left<A: Asked>(asked: &mut A) -> Result<bool, OutOfMemory> {
    let has_left = asked.applies(Event::Leave { id: 1 }, Want::Noted)?;
    let wanted = asked.wanted()?;
    Ok(has_left && wanted.is_empty())
}

/// Whether it is seated, and leaves.
fn goes_well<A: Asked>(alloc: Global, asked: &mut A) -> bool {
    is_seated(alloc, asked) == Ok(true) && has_left(asked) == Ok(true)
}

impl Asked for Core {
    fn applies(&mut self, event: Event, want: Want) -> Result<bool, OutOfMemory> {
        match self.step(event) {
            Ok(reply) => Ok(want.takes(reply)),
            Err(refused) => Err(refused),
        }
    }

    fn wanted(&mut self) -> Result<Vec<MountName>, OutOfMemory> {
        Core::wanted(self)
    }
}

/// A core that gives each reply three times.
#[derive(Drop)]
struct Thrice {
    core: Core,
}

impl Asked for Thrice {
    fn applies(&mut self, event: Event, want: Want) -> Result<bool, OutOfMemory> {
        match self.core.step3(event) {
            Ok(replies) => Ok(want.takes_all(replies)),
            Err(refused) => Err(refused),
        }
    }

    fn wanted(&mut self) -> Result<Vec<MountName>, OutOfMemory> {
        self.core.wanted()
    }
}

/// A book that is lent no part, and a pass of it.
#[derive(Drop)]
struct OfBook<'a, H: Origin> {
    book: &'a mut Book<Kept, H>,
    lent: &'a mut Vec<MountBook<Kept>>,
    pass: &'a mut Pass<Kept, H>,
}

impl<'a, H: Origin> Asked for OfBook<'a, H> {
    fn applies(&mut self, event: Event, want: Want) -> Result<bool, OutOfMemory> {
        match self.book.apply(self.pass, self.lent.as_mut_slice(), event) {
            Ok(reply) => Ok(want.takes(reply)),
            Err(refused) => Err(refused),
        }
    }

    fn wanted(&mut self) -> Result<Vec<MountName>, OutOfMemory> {
        self.book.wanted(self.lent.as_mut_slice())
    }
}

/// A hall, and a pass of it.
#[derive(Drop)]
struct OfHall<'a, R: Wait, H: Origin> {
    rt: &'a R,
    hall: &'a Hall<Unkept, H>,
    pass: &'a mut Pass<Unkept, H>,
}

impl<'a, R: Wait, H: Origin> Asked for OfHall<'a, R, H> {
    fn applies(&mut self, event: Event, want: Want) -> Result<bool, OutOfMemory> {
        match self.hall.apply(self.rt, self.pass, event) {
            Ok(receipt) => Ok(want.takes(receipt.into_reply())),
            Err(refused) => Err(refused),
        }
    }

    fn wanted(&mut self) -> Result<Vec<MountName>, OutOfMemory> {
        self.hall.wanted(self.rt)
    }
}

fn is_asked_core(alloc: Global) -> Result<bool, SettingsFault> {
    let settings = settings(alloc)?;
    let mut core = Core::new(alloc, settings, Lists::new(alloc));
    Ok(goes_well(alloc, &mut core))
}

fn is_asked_thrice(alloc: Global) -> Result<bool, SettingsFault> {
    let settings = settings(alloc)?;
    let core = Core::new(alloc, settings, Lists::new(alloc));
    let mut thrice = Thrice { core };
    Ok(goes_well(alloc, &mut thrice))
}

#[test]
fn a_core_is_asked(rt: HostRuntime) {
    assert!(rt; is_asked_core(rt.alloc()) == Ok(true));
    assert!(rt; is_asked_thrice(rt.alloc()) == Ok(true));
}

/// Whether a book of these settings is asked well.
fn is_asked_book<H: Origin>(alloc: Global, settings: Settings, blank: Blank) -> bool
    requires opening { H.opening ≡ opening settings no_lists }
    requires ledger { (blank.name ≡ H.name) × (blank.parts ≡ H.parts) × (blank.parts ≡ 2 ^ 32) }
{
    let mut book: Book<Kept, H> = Book::new(alloc, settings, Lists::new(alloc), blank);
    let mut lent = Vec::new(alloc);
    match book.pass() {
        Some(mut pass) => {
            let mut asked = OfBook {
                book: &mut book,
                lent: &mut lent,
                pass: &mut pass,
            };
            goes_well(alloc, &mut asked)
        }
        None => false,
    }
}

/// Whether a hall of these settings is asked well.
fn is_asked_hall<H: Origin, R: Wait>(
    rt: &R,
    alloc: Global,
    settings: Settings,
    blank: Blank,
) -> bool
    requires opening { H.opening ≡ opening settings no_lists }
    requires ledger { (blank.name ≡ H.name) × (blank.parts ≡ H.parts) × (blank.parts ≡ 2 ^ 32) }
{
    let Ok(hall) = Hall::<Unkept, H>::new(alloc, settings, Lists::new(alloc), blank) else {
        return false;
    };
    match hall.pass(rt) {
        Some(mut pass) => {
            let mut asked = OfHall {
                rt,
                hall: &hall,
                pass: &mut pass,
            };
            goes_well(alloc, &mut asked)
        }
        None => false,
    }
}

fn book_is_asked(alloc: Global) -> Result<bool, SettingsFault> {
    let settings = settings(alloc)?;
    let blank = Blank::new(PASSES);
    Ok(is_asked_book::<Brand>(alloc, settings, blank))
}

fn hall_is_asked<R: Wait>(rt: &R, alloc: Global) -> Result<bool, SettingsFault> {
    let settings = settings(alloc)?;
    let blank = Blank::new(PASSES);
    Ok(is_asked_hall::<Brand, R>(rt, alloc, settings, blank))
}

#[test]
fn a_book_and_a_hall_are_asked(rt: HostRuntime) {
    assert!(rt; book_is_asked(rt.alloc()) == Ok(true));
    assert!(rt; hall_is_asked(&rt, rt.alloc()) == Ok(true));
}
