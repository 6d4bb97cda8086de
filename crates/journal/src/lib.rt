//! A journal: one word, the length of a history that threads share, and the tokens that know beginnings of it.
#![tactic(auto)]

mod closed;
mod closing;
mod law;
mod merging;
mod opening;
mod places;
mod tokens;
mod word;

pub use closed::ClosedBooks;
pub use law::{Adding, Handing, Law, Naming, Roster, View};
pub use opening::Opened;
pub use tokens::{Book, Pass, Sight, Stamped, Volume};
pub use word::Journal;
