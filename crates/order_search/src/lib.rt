//! The search through the histories of a world that leave a caller early a few times at most, and runs whose order is drawn.
//!
//! `explore` goes through the tree of the callers' turns pass by pass, in depth, and keeps the outcomes as they first come.
//! No state is kept: going back is playing a path anew. If losses are sought, each run begins in a world that loses the frames of its path.
//! Proved: each reported outcome has a legal, timed and ended history with its summary, its results of steps and its numbers of losses and preemptions.
//! Without losses and parts, the outcomes, their order and the counts are exactly those of the first histories of the list (`IsExact`).
//! Not proved: the order and the counts with losses or parts, and that no outcome is missing then.
//! Begin at `explore` in search.rt.
#![tactic(auto)]

mod ended;
mod going;
mod law;
mod losses;
mod marks;
mod path;
mod ranks;
mod results;
mod search;
mod tellings;
mod trail;
mod turn;
mod walk;

pub use ended::Ended;
pub use going::{can_go, first_goer};
pub use law::{losses_replace_losses, lost_worlds_are_worlds};
pub use losses::{Frame, lose};
pub use ranks::{Ranks, drawn};
pub use search::{Far, Found, Sought, Watch, explore};
pub use tellings::Telling;
pub use trail::Part;
pub use turn::take_turn;
