//! Theorems about worlds with scripts that grow during a run: a valid history stays valid if a script gets more steps.
//!
//! `grown` (specs/Grown.antt) is the world with more steps at the end of one script. Begin at `grown_is_legal` in law.rt.
//! Also proved: `until` or nothing can replace a step of which the history has no event.
#![tactic(auto)]

mod law;

pub use law::{
    calms_are_alike, deadlines_are_timed, finished_steps_stay, grown_is_legal, grown_is_timed,
    grown_is_world, nets_are_alike, next_events_stay, premises_are_needed, steps_behind_wait,
    unbegun_steps_can_go, unfinished_scripts_ask, waiting_is_timed,
};
