//! Plays scripts: the step that a script is at, its next event, and the names that are bound.
#![tactic(auto)]

mod law;
mod player;

pub use law::players_fit_longer_scripts;
pub use player::Player;
