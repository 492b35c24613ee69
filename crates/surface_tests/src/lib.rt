//! Each call by which a caller reaches a layer of the server, made by name with ample memory, and its answer compared. The
//! tests name the crates that callers use, and no other.
//! What the layers below read and cut is in `data_tests`; how the parts work together is in `core_tests`,
//! `turn_tests`, `book_tests` and `hall_tests`.
//!
//! - `texts`: users of a list, peers of texts, a body without an end.
//! - `heads`: heads of both sides. `streams`: blocks, and titles between bytes. `listings`: listings, and commands of targets.
//! - `relays`: what relays send and pull in, and which run.
//! - `access`: lists of users and of addresses. `rules`: what the policy says.
//! - `seats`: the listeners' seats. `walks`: where a walk lands, and which listeners a move carries.
//! - `sessions`: bytes as events, and replies as bytes. `plays`: scripts, over devices that fail.
//! - `stations`: a core, a book and a hall, with the same calls. `settling`: passes compared with entries, and each fault.
//! - `intakes`: connections that wait. `loopback`: a worker's turns over sockets. `workers`: workers in threads.
#![tactic(auto)]

#[cfg(test)]
mod access;
#[cfg(test)]
mod heads;
#[cfg(test)]
mod intakes;
#[cfg(test)]
mod listings;
#[cfg(test)]
mod loopback;
#[cfg(test)]
mod plays;
#[cfg(test)]
mod relays;
#[cfg(test)]
mod rules;
#[cfg(test)]
mod seats;
#[cfg(test)]
mod sessions;
#[cfg(test)]
mod settling;
#[cfg(test)]
mod stations;
#[cfg(test)]
mod streams;
#[cfg(test)]
mod texts;
#[cfg(test)]
mod walks;
#[cfg(test)]
mod workers;
