//! Notes on likely mistakes in a network database, or in a world file and its database: a line each, with its number.
//!
//! Used by netview. Proved: the first bad line, and that each call is safe and returns. Tests cover the notes. Begin at `lint`.
#![tactic(auto)]

mod attribute;
mod bundle;
mod facts;
mod fault;
mod hosts;
mod keeper;
mod network;
mod notes;
mod pair;
mod word;
mod world;

pub use fault::LintError;
pub use keeper::lint;
