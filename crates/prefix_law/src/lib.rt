//! In-order delivery: what a program reads from an IL conversation is a prefix of what its peer wrote.
//! `imports` says the same through an imported network. Both hold for every valid history.
#![tactic(auto)]

mod imports;
mod law;

pub use imports::{
    import_law, importing_steps_read_whole, imports_are_answered, own_is_of_data, rounds_are_enough,
};
pub use law::{a_pair_has_one_holder, moments_rise, prefix_law, tasks_keep_prefixes};
