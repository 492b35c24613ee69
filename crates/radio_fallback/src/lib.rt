//! Where a client that asks for a mount is seated, or which rule stops it.
//!
//! - [`View`]: what a walk asks of the server; [`walk_from`] goes over it, and over the table of those who sit.
//! - [`Walk`]: what it [`WalkFinding`] at the mount from which it began, and its [`Landing`]. [`asking::landing`] gives the landing alone.
//! - [`carry`]: a [`Move`] carries listeners along, and answers how many ([`Carried`]); contracts and laws speak of the [`MoveEffect`] of each.
//!   It moves the [`Attachments`] of listeners along with their seats.
//! - Laws of a carry, which run no code: `laws`.
#![tactic(auto)]

pub mod asking;
mod attachments;
mod carrying;
mod laws;
mod moves;
mod view;
mod walker;
mod walking;

pub use attachments::Attachments;
pub use carrying::carry;
pub use laws::{
    a_carry_asks_the_users, a_carry_keeps_limits, a_carry_keeps_numbers, a_carry_seats_users_once,
    each_fares_by_his_turn,
};
pub use moves::{Carried, Move, MoveEffect};
pub use view::View;
pub use walking::{Landing, Walk, WalkFinding, walk_from};
