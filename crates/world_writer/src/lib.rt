//! Writes world files: that of any world, each part in its one spelling, and the made world of `make N`.
#![tactic(auto)]

mod hosts;
mod law;
mod line;
mod media;
mod scripts;
mod steps;
mod world;
mod writer;

pub use law::{made_worlds_are_worlds, worked_made_world};
pub use world::make_world;
pub use writer::write_world;
