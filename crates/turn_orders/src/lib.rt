//! The orders of turns in which a world can run: definitions, and theorems about them.
//! `search` has the steps of a depth-first search, `list` what such a search reports.
#![tactic(auto)]

mod cases;
mod ending;
mod law;
mod list;
mod refusal;
mod search;

pub use cases::{a_refusal_is_the_result, the_clock_moves_last, two_steps_beside_one};
pub use ending::{ended_histories_end, nobody_goes_on_behind_an_end};
pub use law::{
    a_history_is_its_callers, callers_that_come, costs_are, entries_are_turns, histories_are_short,
    preemptions_grow, turns_are_ready, turns_follow,
};
pub use list::{
    histories_are_in_order, histories_are_listed, histories_come_pass_by_pass,
    outcomes_keep_their_numbers, what_is_told_is_complete, what_is_told_is_least,
    what_is_told_is_sound,
};
pub use refusal::{refusals_come, refusals_come_behind, refusals_tell_of_more};
pub use search::{
    lowest_callers_are_first, searches_begin, searches_end, searches_go_back, searches_go_on,
    searches_turn,
};
