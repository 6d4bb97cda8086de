//! An actor of a world as a machine.
ghost use Rattle.std.specs.Prelude.{◌≡◌, []};
ghost use Rattle.net_base.specs.Actors.{opening_actor};
ghost use Rattle.net_actors.specs.Kept.{IsActorOf, kept_state};
ghost use Rattle.net_locks.specs.Named.{named};

use crate::placing::Placing;
use journal::{Book, Naming};
use locked::{Locked, Machine};
use net_actors::{Actor, few_works_are_small};
use net_base::{ActorName, Outcome, Work};
use std::alloc::AllocError;
use std::marker::{Model, PhantomData};

/// An actor of the run's world. Clauses see its name and its state in the definitions.
#[derive(Drop)]
pub struct WorldActor<P: Placing> {
    actor: Actor,
    of: PhantomData<P>,
}

impl<P: Placing> Model for WorldActor<P> {
    ghost use Rattle.net_locks.specs.Named.{Named, named};
    ghost use Rattle.net_actors.specs.Kept.{IsActorOf, kept_state};

    ghost Value = { Named };

    ghost view = { λ a. named a.actor.name (kept_state a.actor) };

    ghost invariant = { λ a. IsActorOf P.world a.actor };
}

impl<P: Placing> WorldActor<P> {
    /// The actor, which is one of the run's world.
    pub fn new(actor: Actor) -> WorldActor<P>
        requires { IsActorOf P.world actor }
        ensures { result ≡ named actor.name (kept_state actor) }
    {
        WorldActor {
            actor,
            of: PhantomData,
        }
    }

    /// Its name.
    pub fn name(&self) -> ActorName
        ensures { result ≡ self.now.name }
    {
        self.actor.name()
    }
}

impl<P: Placing> Machine for WorldActor<P> {
    ghost use Rattle.net_locks.specs.Named.{named_opening, answer_in, named_due, named_generation};

    ghost begin = { named_opening P.world };

    ghost answer = { λ s now work. answer_in P.world s now work };

    ghost due_of = { named_due };

    ghost generation_of = { named_generation };

    fn ready(&self, now: u64, work: &Work) -> bool {
        self.actor.ready(now, work)
    }

    fn step(&mut self, now: u64, work: &Work) -> Result<Outcome, AllocError> {
        few_works_are_small();
        self.actor.step(now, work)
    }

    fn due(&self) -> Option<u64> {
        self.actor.due()
    }

    fn generation(&self) -> u64 {
        self.actor.generation()
    }
}

/// An actor to which nothing has happened, behind its lock.
pub(crate) fn locked<J: Naming + Placing>(actor: Actor, book: Book<J>) -> Locked<J, WorldActor<J>>
    requires of { IsActorOf J.world actor }
    requires opening { kept_state actor ≡ opening_actor J.world.timers actor.name }
    requires name { actor.name ≡ book.actor }
    requires blank { book.list ≡ [] }
    ensures actor { result.actor ≡ book.actor }
    ensures number { result.number ≡ book.number }
{
    Locked::new(WorldActor::new(actor), book)
}
