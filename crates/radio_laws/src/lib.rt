//! What holds of every run of the server, in the words of settings, events and bytes.
//!
//! Each law is a function that runs no code: a proof that needs it calls it, and cites its clause.
//! They follow from what `radio_core` says that an event can do to one client, to one seat and to
//! the session of one mount.
#![tactic(auto)]

mod laws;

pub use laws::{
    access_is_kept, commands_are_done, denials_are_the_policys, events_go_by_their_mounts,
    finished_are_told, last_mounts_stay, lent_parts_are_enough, limits_are_kept,
    listeners_are_told_titles, listeners_begin_at_a_block, listeners_walk_on,
    mounts_wait_on_demand, nobody_outstays, own_steps_are_the_servers, parts_go_by_themselves,
    sight_is_kept, stretches_are_whole, users_change_one_by_one, who_left_is_gone,
    whoever_may_is_served,
};
