//! Tests of the core, of the parts of its state and of scripts, as their callers see them: what no clause says. Each call succeeds with
//! ample memory, and the definitions mean what the rules say, on rows that were worked out by hand. What a script can show else is a case
//! of `tests/run`.
//!
//! - `events`: events and replies of the core, in tables.
//! - `scripts`: lists of deliveries, among them large ones.
//! - `listeners`: where each listener sits and how far it has read, through the calls of `radio_parts_table`.
//! - `mounts`: sessions in the parts of the mounts, through the calls of `radio_parts_table`.
//! - `own_steps`: draws, blocks and titles by a mount's part alone.
#![tactic(auto)]

#[cfg(test)]
mod events;
#[cfg(test)]
mod listeners;
#[cfg(test)]
mod mounts;
#[cfg(test)]
mod own_steps;
#[cfg(test)]
mod scripts;
