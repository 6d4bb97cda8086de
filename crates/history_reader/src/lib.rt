//! The text of a history, as it is printed, read back.
#![tactic(auto)]

mod calls;
mod cursor;
mod entries;
mod events;
mod fault;
mod fields;
mod law;
mod reader;
mod replies;
mod summary;
mod texts;
mod wide;

pub use fault::LineError;
pub use law::{printed_histories_are_spelled, summaries_are_four_lines, texts_spell_one_history};
pub use reader::read_transcript;
pub use wide::histories_are_wide;
