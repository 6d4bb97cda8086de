//! The text of a world file: which lines spell which world, and which line of a bad file is the first bad one.
//! Only definitions and their theorems, with the worlds that are worked out in them.
#![tactic(auto)]

mod law;
mod line;
mod world_law;

pub use law::{controls_are_read, paths_are_walked};
pub use line::{Frames, HostLine, LineCause, MediumLine, WorldLine};
pub use world_law::{
    first_bad_lines_are_told, lines_are_spelled, passed_lines_say_nothing, texts_say_one_world,
    worked_world_lines, worlds_are_spelled, worlds_have_texts, worlds_so_far_are_small,
};
