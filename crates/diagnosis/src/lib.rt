//! What a status of the programs means, in words for standard error.
//!
//! Used by the programs netsh and netview, after their top call: `explain` takes the words, the front of the input, what was
//! written and the status. Main types: `KeptSource` and `SeenSink`, which keep what `explain` needs, and `Explanation`.
//! Proved: which case a status and a cause are, the words of each case, and that keeping changes no stream.
//! Not proved: that a hint helps. Begin at `explain` in explaining.rt.
#![tactic(auto)]

mod asked;
mod broken_rules;
mod cases;
mod causes;
mod database_lines;
mod explaining;
mod fields;
mod findings;
mod forms;
mod hints;
mod history_lines;
mod kept;
mod lines;
mod refusals;
mod rules;
mod seen;
mod telling;
#[cfg(test)]
mod tests;
mod told;
mod unknown_words;
mod usages;
mod world_lines;

pub use asked::Program;
pub use cases::Case;
pub use explaining::{Call, Explanation, explain};
pub use findings::{UnknownSystem, unknown_system};
pub use kept::{Kept, KeptSource};
pub use refusals::Refusals;
pub use seen::{RunEnd, Seen, SeenSink};
pub use telling::{tell, tell_no_memory};
