//! The turn of a caller.
ghost use Rattle.plain_runner.specs.Turns.{IsMoving};

use net_base::{ActorName, Event, With, Work};

/// What a caller records: a work at an actor, and the stamp of the entry that owed it, where one did.
#[derive(Debug, Drop)]
pub struct Turn {
    pub actor: ActorName,
    pub work: Work,
    pub cites: Option<u64>,
}

/// A move of the clock.
pub fn moving(moment: u64) -> Turn
    ensures { IsMoving result moment }
{
    Turn {
        actor: ActorName::Clock,
        work: Work {
            event: Event::Move { moment },
            with: With::Nothing,
        },
        cites: None,
    }
}
