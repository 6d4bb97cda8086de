//! The net behind locks: a guest for each caller, the players of scripts in groups, and the clock between their phases.
#![tactic(auto)]

mod advance;
mod finishing;
mod guest;
mod net;
mod player;
mod players;

pub use guest::Guest;
pub use net::Net;
pub use net_locks::{Advance, NetOpened, Turn};
pub use player::{Played, Player, Role};
pub use players::{Group, Players};
