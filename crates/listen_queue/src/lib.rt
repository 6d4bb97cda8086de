//! The calls that wait at a listener.
#![tactic(auto)]

mod queue;

pub use queue::{CallQueue, MOST_CALLS};
