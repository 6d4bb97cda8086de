//! A history of a world followed entry by entry, and its summary.
#![tactic(auto)]

mod caller;
mod ending;
mod ghost_history;
mod law;
mod recording;
mod replay;
mod resting;
mod runner;
mod turn;

pub use caller::{Caller, Role};
pub use ghost_history::GhostHistory;
pub use law::{histories_are_short, resting_runs_grow};
pub use replay::summary_of;
pub use resting::{Resting, RestingCaller, RestingRole};
pub use runner::Runner;
pub use turn::Turn;
