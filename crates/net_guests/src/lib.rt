//! What a guest carries: its pass, its duties and its names; its turns at the locks, and how its number is lent to the clock.
#![tactic(auto)]

mod bundle;
mod clock;
mod lending;
mod turns;

pub use bundle::Bundle;
pub use turns::first_spot;
