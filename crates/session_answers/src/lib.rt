//! The answers to the messages of a session of 9P, by the replies to its script's events.
#![tactic(auto)]

mod answers;
mod found;
mod printed;
mod replied;
mod replies;
mod said;
mod session;

pub use answers::answers_by;
pub use found::Found;
pub use replied::{is_told, replied_bytes};
pub use said::said_bytes;
pub use session::request_of;
