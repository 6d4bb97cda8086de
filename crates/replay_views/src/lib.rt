//! Two views that follow a history entry by entry: the frames as a capture file for Wireshark, and each script's steps
//! with their results.
#![tactic(auto)]

mod capture;
mod ending;
mod law;
mod recorded;
mod savefile;
mod standing;
mod state;
mod steps;
mod world_steps;

pub use capture::capture_of;
pub use ending::{Ending, StepKind, ending_of, kind_of};
pub use law::{frames_are_laid, steps_are_told_alike, steps_have_lines};
pub use recorded::{Latest, is_close, noted_by};
pub use steps::{step_rows_of, steps_of};
