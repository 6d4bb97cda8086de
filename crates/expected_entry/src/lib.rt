//! What was expected in the place of the first entry of a history that breaks a rule, or in the place of its summary.
//!
//! Used by netsh and netview, which write it on standard error. Main type: `Expected`.
//! Proved: an expected entry can follow the entries before it, and the expected summary is that of the history. Not here: which rule
//! is broken, which netcheck says.
//! Begin at `expected_in` in input.rt.
#![tactic(auto)]

mod expecting;
mod input;

pub use expecting::expected_entry;
pub use input::{Expected, expected_in};
