//! The end: the passes of all guests.
ghost use Rattle.net_guests.specs.Visits.{GathersPasses};

use crate::guest::Guest;
use journal::{Journal, Naming, Pass};
use net_locks::Placing;

// Takes the passes of the guests in.
pub(crate) fn gather<J: Naming + Placing>(
    journal: &Journal<J>,
    all: &mut Pass<J>,
    mut guests: Vec<Guest<J>>,
)
    ensures { GathersPasses J.world J.run.roster all.old guests.items all.new }
{
    while let Some(guest) = guests.pop() {
        guest.meet(journal, all);
    }
}
