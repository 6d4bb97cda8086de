//! Lines of a live run: reads the lines of standard input, and writes one line of standard output.
//!
//! Used by live_run. Main types: `LiveLine` (a line for a place), `LiveCause` (why a line is invalid), `AnswerHead`.
//! Proved: a line gives the defined value or the smallest cause, and each written line is the defined text.
//! Tested: how `LineReader` cuts its input into lines. Not here: when a line is read, and what it does. Begin at `read_line` in line.rt.
#![tactic(auto)]

mod action;
mod answer;
mod cause;
mod input;
mod law;
mod line;
mod output;
mod place;

pub use action::Action;
pub use answer::{AnswerHead, StepWord, put_answer, put_head, put_reply_after};
pub use cause::{LiveCause, LiveFault};
pub use input::LineReader;
pub use law::{read_steps_are_steps, spelled_lines_are_read};
pub use line::{LiveLine, read_line};
pub use output::{put_bad_line, put_end, put_places};
pub use place::{PlaceState, cause_at};
