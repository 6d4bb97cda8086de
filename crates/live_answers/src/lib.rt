//! Answers of a live run: what a step recorded so far, and the lines on standard output.
//!
//! Used by live_run. Main types: `Current` (a step that has begun), `Voice` (writes lines until a write fails).
//! Proved: each call of a voice says the one line of its contract, with the replies of the entries of the step, and the sink gets the
//! texts of the lines in their order, up to a write that fails. Not here: the form of a line, which live_lines has, and when a step is
//! complete. Begin at `Voice::say_complete` in voice.rt.
#![tactic(auto)]

mod current;
mod ghost_lines;
mod output_lines;
mod voice;

pub use current::Current;
pub use ghost_lines::{GhostLines, OutputLine};
pub use output_lines::{BadInputLine, FirstLine, LastLine, RemovedLine, StepLine};
pub use voice::Voice;
