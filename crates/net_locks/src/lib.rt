//! Each actor of a world protected by its own lock: the turns of callers at the locks, what the clock sees there, and the
//! theorems about the history that all threads share.
#![tactic(auto)]

mod calendar;
mod clock;
mod finishing;
mod law;
mod locks;
mod machine;
mod opening;
mod placing;
mod threads;
mod turn;
mod visitor;

pub use calendar::Calendar;
pub use clock::{Advance, Standing};
pub use law::calendars_stay_known;
pub use locks::Locks;
pub use machine::WorldActor;
pub use opening::{NetOpened, caller_count};
pub use placing::Placing;
pub use threads::{
    an_own_entry_is_gained, few_calls_wait, guests_begin, guests_hand_over, guests_look,
    guests_meet, guests_record, guests_stay_by_others, histories_of_guests_are_legal,
    locks_keep_actors, moves_are_the_clocks, nets_of_works_grow, no_duty_is_the_clocks,
    others_leave_a_caller, scripts_that_go_on_are_legal, turns_are_these,
};
pub use turn::Turn;
pub use visitor::{Bearer, Visitor};
pub use workers::Spot;
