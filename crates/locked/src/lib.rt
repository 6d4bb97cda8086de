//! Actors behind locks: each event is one step of one actor, at one place of one history.
#![tactic(auto)]

mod guarded;
mod lock;
mod machine;

pub use guarded::{Answer, Asked, Guarded, View};
pub use lock::Locked;
pub use machine::Machine;
