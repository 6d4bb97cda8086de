//! What an actor does.
ghost use Rattle.std.specs.Prelude.{◌≡◌, ◌^◌, ◌<◌, ℕ, List, length, true, Option, Some, is_some, IfOk, OnErr};
ghost use Rattle.net_base.specs.declared.actor.ActorName.{ActorName};
ghost use Rattle.net_base.specs.declared.history.Work.{Work};
ghost use Rattle.net_base.specs.declared.noted.Noted.{Noted};
ghost use Rattle.net_base.specs.ActorStep.{Step};
ghost use Rattle.locked.specs.Acts.{state};

use net_base::{Outcome, Work};
use std::alloc::AllocError;

/// A state with its step. Clauses see the state.
pub trait Machine: Drop {
    // The opening state of an actor.
    ghost begin: { ActorName → Self };

    // What the state becomes and gives at a moment; None where the work isn't ready.
    ghost answer: { Self → ℕ → Work → Option (Step Self) };

    // The moment at which something is due in the state.
    ghost due_of: { Self → Option ℕ };

    // The generation of the state, which a tick names.
    ghost generation_of: { Self → ℕ };

    /// Whether the work is ready now.
    fn ready(&self, now: u64, work: &Work) -> bool
        ensures { result ≡ is_some (answer self.now now work.now) };

    /// Does the work. Its outcome has its reply twice.
    fn step(&mut self, now: u64, work: &Work) -> Result<Outcome, AllocError>
        requires ready { is_some (answer self.old now work.now) ≡ true }
        requires now { now < 2 ^ 63 }
        requires reached { (a : ActorName) × (works : List (ℕ × Noted)) × (length works < 2 ^ 30)
            × (self.old ≡ state begin answer (begin a) works) }
        ensures ok { IfOk result
            (λ o. answer self.old now work.now ≡ Some record { state = self.new; outcome = o }) }
        ensures copy { IfOk result (λ o. o.copy ≡ Some o.reply) }
        ensures err { OnErr result (self.new ≡ self.old) };

    /// The moment at which something is due.
    fn due(&self) -> Option<u64>
        ensures { result ≡ due_of self.now };

    /// The generation, which a tick names.
    fn generation(&self) -> u64
        ensures { result ≡ generation_of self.now };
}
