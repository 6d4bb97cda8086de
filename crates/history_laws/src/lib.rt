//! Theorems about every valid (legal) history: facts that follow from the rules alone, before any code runs.
//! `rows` gives each actor's table row by row, `calm` says when the clock may move, `progress` that some pending duty is ready.
#![tactic(auto)]

mod calm;
mod law;
mod progress;
mod rows;

pub use calm::{
    calm_is_that_nobody_could, conversations_are_these, histories_are_their_callers,
    moves_are_timely, nobody_is_limited, somebody_is_limited, targets_are_least,
};
pub use law::{
    a_fault_is_not_legal, a_pair_is_given_once, callers_are_apart, callers_have_room,
    duties_cite_their_own, full_callers_limit, histories_grow, prefix_is_legal,
    same_actors_are_equal, state_is_fold, tasks_ask_in_order, what_is_ready_is_known,
};
pub use progress::some_duty_is_ready;
pub use rows::steps_are_rows;
