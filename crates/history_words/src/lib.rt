//! Words for the events and replies of a history: a line for each entry, and short labels for pictures.
#![tactic(auto)]

mod entry;
mod event;
mod events;
mod header;
mod put;
mod replies;
mod reply;
mod shown;
mod text;
mod who;

pub use entry::words_of;
pub use events::put_event;
pub use replies::put_reply;
pub use words::put_actor;
