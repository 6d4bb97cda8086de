//! What an IL end keeps: its unacknowledged, early and unread messages, and its timer.
#![tactic(auto)]

mod early;
mod timer;
mod unacked;
mod unread;

pub use early::{Early, MOST_EARLY};
pub use net_base::Tick;
pub use timer::Timer;
pub use unacked::{MOST_UNACKED, Unacked};
pub use unread::{MOST_UNREAD, Unread};
