//! Rejecting a call.
ghost use Rattle.std.specs.Prelude.{◌≡◌, IfOk};
ghost use Rattle.net_base.specs.declared.world.Step.TheVariants as step;
ghost use Rattle.dial_lib.specs.Reject as spec;

use net_base::{Octets, Reply};
use script_task::{Names, Request, Task, is_accepted};
use std::alloc::{AllocError, Global};

/// What a reject does next.
#[derive(Clone, Copy, Debug, PartialEq, Eq)]
pub enum RejectPhase {
    /// It writes `hangup`.
    Write,
    /// It closes the file.
    Close,
    /// It is through.
    Through,
}

impl RejectPhase {
    // The phase after a reply.
    fn after(self, reply: &Reply) -> RejectPhase
        ensures { result ≡ spec.phase_after self reply.now }
    {
        match self {
            RejectPhase::Write if is_accepted(reply) => RejectPhase::Close,
            RejectPhase::Write => RejectPhase::Through,
            RejectPhase::Close => RejectPhase::Through,
            RejectPhase::Through => RejectPhase::Through,
        }
    }
}

/// Rejects a call: writes `hangup` to its file, and closes it where that was accepted.
#[derive(Debug, Drop)]
pub struct Reject {
    name: Octets,
    phase: RejectPhase,
}

impl Reject {
    /// Rejects the call that the name is bound to.
    #[tactic(auto, using(crate::specs::RejectLaws::fresh))]
    pub fn new(alloc: Global, name: &[u8]) -> Result<Reject, AllocError>
        ensures value { IfOk result (λ t. t ≡ spec.begun name.now) }
        ensures stands { IfOk result (λ t. spec.Begins t (step.Reject name.now)) }
    {
        Ok(Reject {
            name: Octets::from_slice(alloc, name)?,
            phase: RejectPhase::Write,
        })
    }
}

impl Task for Reject {
    ghost use Rattle.dial_lib.specs.Reject as spec;
    ghost use Rattle.dial_lib.specs.RejectLaws as laws;

    ghost asks = { spec.asks };

    ghost after = { spec.after };

    ghost Stands = { spec.StandsFor };

    ghost asks_so = { laws.asks_so };

    ghost moves_so = { laws.moves_so };

    fn next(&self, alloc: Global, _fids: &Names) -> Result<Option<Request>, AllocError> {
        match self.phase {
            RejectPhase::Write => Ok(Some(Request::Write {
                name: self.name.clone()?,
                text: Octets::from_slice(alloc, b"hangup")?,
            })),
            RejectPhase::Close => Ok(Some(Request::Close {
                name: self.name.clone()?,
            })),
            RejectPhase::Through => Ok(None),
        }
    }

    fn is_through(&self) -> bool {
        self.phase == RejectPhase::Through
    }

    fn told(&mut self, _alloc: Global, reply: Reply) -> Result<(), AllocError> {
        self.phase = self.phase.after(&reply);
        Ok(())
    }
}
