//! The byte formats that standards define, as relations: IPv4, UDP and IL packets, ndb(6) texts, DNS messages.
//! Only definitions and their theorems; the code that reads and writes them is in the crates above.
#![tactic(auto)]

mod dns_law;
mod law;

pub use dns_law::{a_question_is_spelled, what_is_spelled_is_a_question};
pub use law::packets_are_read;
