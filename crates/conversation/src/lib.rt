//! A conversation: the files round an end.
#![tactic(auto)]

mod changes;
mod control;
mod conv;
mod ghost_end;
mod il;
mod parts;
mod reply_and_copy;
mod texts;

pub use conv::Conv;
