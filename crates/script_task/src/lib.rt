//! The steps of scripts as tasks: the requests that a step makes, one at a time, and the names that they bind.
#![tactic(auto)]

mod effect;
mod law;
mod names;
mod names_after;
mod paths;
mod planned;
mod reply;
mod task;

pub use effect::Effect;
pub use law::{effects_settle, replies_fit};
pub use names::Names;
pub use names_after::settle;
pub use net_base::Request;
pub use planned::{Planned, event_of, plan};
pub use reply::{bytes_in, is_accepted, is_granted, is_opening};
pub use task::Task;
