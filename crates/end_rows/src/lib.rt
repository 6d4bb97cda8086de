//! A row for each change of a conversation's end, counted by the entries of a history.
#![tactic(auto)]

mod arrivals;
mod count;
mod ends;
mod il;
mod rows;
mod text;

pub use rows::put_end_rows;
