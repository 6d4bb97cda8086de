//! Runs the scripts of a world, or tasks of one's own in their places, on any number of workers.
#![tactic(auto)]

mod deal;
mod outcome;
mod phases;
mod tasks;

pub use net_base::RunEnd;
pub use outcome::{BookedRun, Run, RunError, TaskRun};
pub use phases::{run, run_in_books};
pub use played_task::{EitherTask, OwnTask};
pub use tasks::run_tasks;
