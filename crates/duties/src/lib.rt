//! The follow-up events (duties) that an entry causes, the queue of those that a caller owes, the routes that packets take,
//! and the moments at which conversations need a timer tick.
#![tactic(auto)]

mod due;
mod due_law;
mod duty;
mod follow_up;
mod law;
mod moments;
mod owing;
mod queue;
mod release;
mod shown;
mod touched;
mod world_ways;

pub use due::Due;
pub use due_law::puts_keep_the_dues;
pub use duty::Duty;
pub use law::a_move_owes_its_ticks;
pub use moments::DueMoments;
pub use owing::most_owed;
pub use queue::Duties;
pub use shown::{Shown, entry_of};
pub use touched::Touched;
pub use world_ways::WorldWays;
