//! Importing over a call, as tasks: the files of another host are opened, read and written by messages of 9P.
#![tactic(auto)]

mod errand;
mod import;
mod messages;
mod remotes;
mod ropen;
mod talk;

pub use errand::{Errand, Rclose};
pub use import::Import;
pub use messages::is_open;
pub use remotes::is_remote;
pub use ropen::Ropen;
