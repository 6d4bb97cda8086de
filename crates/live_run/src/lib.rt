//! A run whose scripts come from standard input: `run_live` plays a world, reads a line when a place waits for one, and reports each
//! complete step.
//!
//! Used by netlive. Main types: `Live` (the run so far), `Place` (a script that gets its steps one at a time), `LiveEnd`.
//! Proved: the world at the end is the given one with more steps in its places, the history is legal and timed for it, the run has
//! ended, and `file_of` gives the text of both with the summary. The answers of a place have the replies to all own events of its
//! script. Tested: when a line is read, and the words and the moments of answers.
//! Begin at `run_live` in live.rt.
#![tactic(auto)]

mod applying;
mod beginning;
mod currents;
mod file;
mod live;
mod place;
mod places;
mod playing;
mod queue;
mod round;
mod turns;
mod withdrawing;

pub use file::file_of;
pub use live::{Live, run_live};
pub use playing::LiveEnd;
