//! Tests of a hall and of its callers, several at once, as they see it: what no clause says. All passes settle.
//!
//! - `halls`: a hall, what is done there, and all passes settled then.
//! - `two_callers`: two callers, with a pass each, over one hall; and what settles no history.
//! - `moving`: threads that feed, draw and move a listener at once. `freezing`: a lock that is held while a listener of another mount
//!   draws, or a client asks to listen to that mount.
//! - `scattered`: calls as dice have them, by several threads at once.
//! - `workers`: workers in threads of their own, which take lines from an intake.
//! - `over_a_hall`: a worker's turns over a hall, with another caller.
//! - `changed_users`: users that a command changes before all is settled.
//! - `kept_rows`: failing and slow connections over a hall, and which clients have left in its history.
#![tactic(auto)]

#[cfg(test)]
mod changed_users;
#[cfg(test)]
mod freezing;
#[cfg(test)]
mod halls;
#[cfg(test)]
mod kept_rows;
#[cfg(test)]
mod moving;
#[cfg(test)]
mod over_a_hall;
#[cfg(test)]
mod scattered;
#[cfg(test)]
mod two_callers;
#[cfg(test)]
mod workers;
