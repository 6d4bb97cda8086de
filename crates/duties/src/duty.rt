//! What a caller must record next.
ghost use Rattle.std.specs.Prelude.{◌≡◌};
ghost use Rattle.duties.specs.Queue.{work_of_duty};

use net_base::{ActorName, Work};
use std::marker::Model;

/// An event that its caller must record next, at an actor and with what is given to it, and the stamp of the entry that
/// owes it. Clauses see the duty of the definitions.
#[derive(Debug, Drop)]
pub struct Duty {
    pub actor: ActorName,
    pub work: Work,
    pub cites: u64,
}

impl Model for Duty {
    ghost use Rattle.net_base.specs.Duties.{Duty as AnyDuty};
    ghost use Rattle.duties.specs.Queue.{work_of_duty};

    ghost Value = { AnyDuty };

    ghost view = { λ d. record { actor = d.actor; event = d.work.event; with = d.work.with; cites = d.cites } };

    ghost inverse = { λ d. record { actor = d.actor; work = work_of_duty d; cites = d.cites } };
}

impl Duty {
    /// The event, with what is given to it.
    pub fn work(&self) -> &Work
        ensures { result.now ≡ work_of_duty self.now }
    {
        &self.work
    }
}
