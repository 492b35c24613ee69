//! Calls as dice have them, at four mounts, of which three fall back to one another. Sources, relays and listeners come and go; listeners
//! are moved, called home and finished. Read [`scatter`] first.

use crate::callee::Callee;
use crate::events::{
    arrival, command_event, draw, killing, listen_event, moving, push_event, relay_event,
    source_event, title_event,
};
use radio_events::{Asked, Command, Event, Listing, OutOfMemory};
use radio_values::MountName;
use std::alloc::Global;

/// `/a` falls back to `/b`, this to `/c`, and that to `/b` again. `/b` calls its listeners home, and `/a` passes them on if two sit
/// there. A listener lags by four blocks.
pub const RING: &str =
    "[limits]\nqueue-size = 12\n[[mount]]\nmount-name = \"/a\"\nfallback-mount = \"/b\"\nfallback-when-full = true\nmax-listeners = 2\n[[mount]]\nmount-name = \"/b\"\nfallback-mount = \"/c\"\nfallback-override = true\n[[mount]]\nmount-name = \"/c\"\nfallback-mount = \"/b\"\n";

/// How many clients and relays a caller has at once.
const ACTORS: usize = 10;

/// Dice that fall alike each time.
#[derive(Drop)]
struct Dice {
    state: u64,
    /// Whether they have commands set fallbacks.
    sets_fallbacks: bool,
}

impl Dice {
    /// What they show: any number below 2 ^ 31 (a linear congruence, of which the upper bits are taken).
    fn throw(&mut self) -> u64 {
        self.state = self
            .state
            .wrapping_mul(6_364_136_223_846_793_005)
            .wrapping_add(1_442_695_040_888_963_407);
        self.state >> 33
    }

    fn path(&mut self) -> &'static str {
        match self.throw() % 4 {
            0 => "/a",
            1 => "/b",
            2 => "/c",
            _ => "/d",
        }
    }
}

/// What an actor has done last.
#[derive(Clone, Copy)]
enum Stage {
    /// It has not come yet, or has left.
    Away,
    /// It has come.
    There,
    /// It has asked to feed a mount.
    Feeding,
    /// It has asked to listen to one.
    Hearing,
    /// It is a relay.
    Relaying,
    /// It has given a command.
    Done,
}

/// A client or a relay, and its number.
#[derive(Clone, Copy)]
struct Actor {
    id: u64,
    stage: Stage,
}

/// No client has come yet.
const NOBODY: Actor = Actor {
    id: 0,
    stage: Stage::Away,
};

/// What an actor does.
#[derive(Clone, Copy)]
enum Act {
    Comes,
    /// It comes as a relay that is to feed this mount.
    ComesAsRelay(&'static str),
    Feeds(&'static str),
    Hears(&'static str),
    Delivers,
    Draws,
    Titles,
    /// It has the listeners of one mount go to another.
    Moves(&'static str, &'static str),
    /// It has this listener finished.
    Kills(&'static str, u64),
    /// It has the session of this mount ended.
    KillsSource(&'static str),
    /// It has the listeners of one mount fall back to another from now on.
    SetsFallback(&'static str, &'static str),
    /// It is shown the listeners of this mount.
    Lists(&'static str),
    /// It is shown all mounts.
    ListsAll,
    Ends,
    /// The clock shows this moment.
    Waits(u64),
    Leaves,
}

/// The next act of an actor at this stage, as the dice have it.
fn act_of(stage: Stage, dice: &mut Dice, ms: u64) -> Act {
    match stage {
        Stage::Away => coming_of(dice),
        Stage::There => asking_of(dice),
        Stage::Feeding | Stage::Relaying => feeding_of(dice, ms),
        Stage::Hearing => hearing_of(dice),
        Stage::Done => Act::Leaves,
    }
}

/// One of eight comes as a relay.
fn coming_of(dice: &mut Dice) -> Act {
    let path = dice.path();
    if dice.throw() % 8 == 0 {
        Act::ComesAsRelay(path)
    } else {
        Act::Comes
    }
}

fn asking_of(dice: &mut Dice) -> Act {
    let path = dice.path();
    match dice.throw() % 16 {
        0 | 1 | 2 | 3 => Act::Feeds(path),
        4 | 5 | 6 | 7 | 8 | 9 => Act::Hears(path),
        10 | 11 => Act::Moves(path, dice.path()),
        12 => Act::Kills(path, dice.throw() % 64),
        13 => Act::KillsSource(path),
        14 if dice.sets_fallbacks => Act::SetsFallback(path, dice.path()),
        14 => Act::Lists(path),
        _ => Act::ListsAll,
    }
}

fn feeding_of(dice: &mut Dice, ms: u64) -> Act {
    match dice.throw() % 24 {
        0 => Act::Titles,
        1 => Act::Ends,
        2 => Act::Waits(ms),
        3 => Act::Leaves,
        _ => Act::Delivers,
    }
}

fn hearing_of(dice: &mut Dice) -> Act {
    match dice.throw() % 24 {
        0 | 1 => Act::Leaves,
        2 => Act::Hears(dice.path()),
        3 => Act::Lists(dice.path()),
        _ => Act::Draws,
    }
}

/// The event by which the actor does so.
fn event_of(alloc: Global, actor: Actor, act: Act) -> Result<Event, OutOfMemory> {
    let id = actor.id;
    match act {
        Act::Comes => Ok(arrival()),
        Act::ComesAsRelay(path) => relay_event(alloc, path, "audio/aac"),
        Act::Feeds(path) => source_event(alloc, id, path),
        Act::Hears(path) => listen_event(alloc, id, path),
        Act::Delivers => push_event(alloc, id, b"abcd"),
        Act::Draws => Ok(draw(id)),
        Act::Titles => title_event(alloc, id, b"Night"),
        Act::Moves(from, to) => command_event(alloc, id, moving(from, to)),
        Act::Kills(path, listener) => command_event(alloc, id, killing(path, listener)),
        Act::KillsSource(path) => command_event(alloc, id, killing_source(path)),
        Act::SetsFallback(from, to) => command_event(alloc, id, setting_fallback(from, to)),
        Act::Lists(path) => command_event(alloc, id, listing(path)),
        Act::ListsAll => command_event(alloc, id, Asked::Listing(Listing::Mounts)),
        Act::Ends => Ok(Event::SourceEnd { id }),
        Act::Waits(ms) => Ok(Event::Clock { ms }),
        Act::Leaves => Ok(leaving_of(actor)),
    }
}

/// The end of the client's or relay's connection.
fn leaving_of(actor: Actor) -> Event {
    let id = actor.id;
    match actor.stage {
        Stage::Relaying => Event::RelayDown { id },
        Stage::Away | Stage::There | Stage::Feeding | Stage::Hearing | Stage::Done => Event::Leave {
            id,
        },
    }
}

/// The command that ends the session of the mount of this path.
fn killing_source(path: &str) -> Asked {
    match MountName::read(path.as_bytes()) {
        Some(mount) => Asked::Command(Command::KillSource { mount }),
        None => Asked::NoCommand,
    }
}

/// The command that has the listeners of the mount of one path fall back to that of another.
fn setting_fallback(from: &str, to: &str) -> Asked {
    match MountName::read(from.as_bytes()) {
        Some(mount) => Asked::Command(Command::SetFallback {
            mount,
            fallback: MountName::read(to.as_bytes()),
        }),
        None => Asked::NoCommand,
    }
}

/// The question which listeners sit at the mount of this path.
fn listing(path: &str) -> Asked {
    match MountName::read(path.as_bytes()) {
        Some(mount) => Asked::Listing(Listing::Clients(mount)),
        None => Asked::NoCommand,
    }
}

/// Returns the actor after it has done so. A newcomer has this number.
fn actor_after(actor: Actor, act: Act, number: u64) -> Actor {
    match act {
        Act::Comes => Actor {
            id: number,
            stage: Stage::There,
        },
        Act::ComesAsRelay(_) => Actor {
            id: number,
            stage: Stage::Relaying,
        },
        Act::Feeds(_) => Actor {
            stage: Stage::Feeding,
            ..actor
        },
        Act::Hears(_) => Actor {
            stage: Stage::Hearing,
            ..actor
        },
        Act::Moves(_, _)
        | Act::Kills(_, _)
        | Act::KillsSource(_)
        | Act::SetsFallback(_, _)
        | Act::ListsAll => Actor {
            stage: Stage::Done,
            ..actor
        },
        Act::Leaves => NOBODY,
        Act::Delivers | Act::Draws | Act::Titles | Act::Lists(_) | Act::Ends | Act::Waits(_) =>
            actor,
    }
}

/// Makes the call of an actor. Returns the actor after it; `None` if memory was refused.
fn do_act<C: Callee>(alloc: Global, callee: &mut C, actor: Actor, act: Act) -> Option<Actor> {
    let event = event_of(alloc, actor, act).ok()?;
    let number = callee.call(event)?;
    Some(actor_after(actor, act, number))
}

/// Makes so many calls, as dice have them that begin so; with an odd seed commands set fallbacks too. Returns whether each was replied
/// to.
pub fn scatter<C: Callee>(alloc: Global, callee: &mut C, seed: u64, calls: u64) -> bool {
    let mut dice = Dice {
        state: seed,
        sets_fallbacks: seed % 2 == 1,
    };
    let mut actors = [NOBODY; ACTORS];
    let mut all = true;
    for ms in 0..calls {
        let place = dice.throw() as usize % ACTORS;
        let act = act_of(actors[place].stage, &mut dice, ms);
        match do_act(alloc, callee, actors[place], act) {
            Some(actor) => actors[place] = actor,
            None => all = false,
        }
    }
    all
}
