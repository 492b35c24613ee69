//! Tests of data, texts, tables, settings and scripts, as callers see them: what no clause says and no program shows. Each call succeeds
//! with ample memory, and the definitions mean what the standards and the rules say, on examples from outside. More such
//! examples are rows and cases of the end-to-end scripts.
//!
//! - `tables`: rows by number; `blocks`: the memory of blocks; `queue`: the blocks that are kept; `packing`: small ones of them.
//! - `bodies`: feeds behind an end or a fault; `icy`: sound with titles woven into it and taken out.
//! - `addresses`: peers as texts; `credentials`: values that no head can hold, and secrets.
//! - `log_lines`: lines of the log, and the calendar; `outlet`: the thread that writes them.
//! - `intake`: connections that are put, taken and counted, also by two threads.
//! - `commands`: paths and queries as commands; `listings`: what is written of rows; `relays`: what masters answer, and which relays run.
//! - `heads`: queries, faults, and answers with a body.
//! - `verdicts`: what the policy says of numbers that are spent.
//! - `settings`: every key read back, and names; `scripts`: scripts over devices that fail.
#![tactic(auto)]

#[cfg(test)]
mod addresses;
#[cfg(test)]
mod blocks;
#[cfg(test)]
mod bodies;
#[cfg(test)]
mod commands;
#[cfg(test)]
mod credentials;
#[cfg(test)]
mod heads;
#[cfg(test)]
mod icy;
#[cfg(test)]
mod intake;
#[cfg(test)]
mod listings;
#[cfg(test)]
mod log_lines;
#[cfg(test)]
mod outlet;
#[cfg(test)]
mod packing;
#[cfg(test)]
mod queue;
#[cfg(test)]
mod relays;
#[cfg(test)]
mod scripts;
#[cfg(test)]
mod settings;
#[cfg(test)]
mod tables;
#[cfg(test)]
mod verdicts;
