//! What was put into an intake and taken from it by one thread.

use crate::rule::Transfers;
use crossbeam_queue::Pass;
use std::marker::Model;

/// What was put into an intake and taken from it by one thread, in order, and how many parts of the
/// intake the thread has: at least one. It has no bytes; contracts see what it says. If one is
/// dropped its parts are gone: the intake serves on, and nobody tallies it any more.
#[derive(Drop)]
pub struct IntakePass<L> {
    pub(crate) transfers: Pass<L, Transfers<L>>,
}

impl<L> Model for IntakePass<L> {
    ghost use Rattle.std.specs.Prelude.{◌≡◌, ◌<◌, []};
    ghost use Rattle.crossbeam_queue.specs.Passes.{view as transfers_of};
    ghost use Rattle.radio_workers.specs.Passes.{PassRecord};

    ghost Value = { PassRecord L };

    ghost view = { λ p. record { intake = p.transfers.table_id; parts = (transfers_of p.transfers).parts; put = (transfers_of p.transfers).put; taken = (transfers_of p.transfers).taken } };

    ghost invariant = { λ p. (p.transfers.me.1 ≡ []) × (0 < (transfers_of p.transfers).parts) };
}
