//! 9P sessions: the files that a client has open after each message, and the script of steps that a session becomes.
#![tactic(auto)]

mod fault;
mod fids;
mod files;
mod law;
mod steps;
mod stream;
mod table;
mod world;

pub use fault::ExportError;
pub use fids::Fids;
pub use files::{can_open, is_cs, is_data, is_directory, step_to};
pub use law::{
    a_session_is_answered, answers_have_the_tag, scripts_can_be_said, short_replies_have_room,
};
pub use steps::{gives_nothing, step_of};
pub use stream::{first_message, script_of};
pub use table::Table;
pub use world::{Session, SessionWorld, Sessions};
