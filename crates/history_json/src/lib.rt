//! A history as JSON: an object a line for each entry, then one with the sums, for scripts, notebooks and jq.
//!
//! Used by netview. Proved: the text is the one that `HistoryJson` defines, with all fields of each entry, each text as a text if all
//! of it can be shown, and always in hexadecimal. Begin at `json_of`.
#![tactic(auto)]

mod entry;
mod event;
mod member;
mod packet;
mod reply;
mod text;

pub use entry::json_of;
