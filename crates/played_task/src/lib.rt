//! What runs in the place of a script: its steps one after another, each as a task, or a custom task.
#![tactic(auto)]

mod either;
mod own;
mod place;
mod script;
mod step;
mod whole;

pub use either::EitherTask;
pub use own::OwnTask;
pub use place::PlaceTask;
pub use script::ScriptTask;
pub use step::{StepTask, ends_by, first_request};
pub use whole::WholeTask;
