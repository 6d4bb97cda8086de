//! The network as files of 9P: the answers to the messages of a session, from a history, and exporting over a call.
#![tactic(auto)]

mod answering;
mod dotted;
mod export;
mod law;
mod open_fids;
mod owing;
mod past;
mod serving;
mod translated;

pub use answering::{answers, answers_by_caller};
pub use export::{Export, ExportPhase};
pub use law::{session_replies_are_told, sessions_are_played, what_is_owed_is_counted};
pub use session_script::{ExportError, script_of};
pub use translated::translate;
