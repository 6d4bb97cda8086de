//! The chart of a history: a column a host or a conversation, time downwards, an arrow for each copy of a frame.
#![tactic(auto)]

mod chart;
mod drawing;
mod frame;
mod labels;
mod law;
mod past;
mod place;
mod sight;
mod svg;
mod talk;
mod talk_chart;
mod thing;

pub use chart::chart_of;
pub use law::{arrows_end_there, frames_are_told, talks_are_told, ways_are_shown};
pub use talk_chart::chart_of_talks;
