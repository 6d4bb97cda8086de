//! An actor of a world.
ghost use Rattle.std.specs.Prelude.{◌≡◌, ◌^◌, ◌<◌, IfOk, OnErr, true, is_some, Some};
ghost use Rattle.std.specs.Arc.{arc_value};
ghost use Rattle.net_base.specs.declared.world.World.{World as AnyWorld};
ghost use Rattle.net_base.specs.Actors.{actor_step, has_actor, opening_actor};
ghost use Rattle.net_base.specs.Duties as duties;
ghost use Rattle.net_base.specs.World.{IsWorld};
ghost use Rattle.net_actors.specs.Kept.{IsActorOf, kept_state};
ghost use Rattle.net_actors.specs.Small.{IsSmallActor};
ghost use Rattle.net_actors.specs.Stepping.{IsKeptReady, ActorMayWant, StepsKept};

use crate::kind::Kind;
use ndb_index::IndexedVersions;
use net_base::{ActorName, Outcome, Work, World};
use std::alloc::{AllocError, Global};
use std::sync::Arc;

/// An actor of a world: a desk, a directory, a conversation, a medium or the clock. Moments are in ms.
///
/// Clauses see its name and, by `state_of`, its state in the definitions; `IsActorOf` says of which worlds it is an
/// actor.
#[derive(Drop)]
pub struct Actor {
    name: ActorName,
    kind: Kind,
}

impl Actor {
    /// The actor of this name, to which nothing has happened. The database is the world's; all desks may share it.
    #[tactic(auto, using(crate::proofs::ByKind::of_world))]
    pub fn new(
        alloc: Global,
        world: &World,
        dbs: &Arc<IndexedVersions, Global>,
        name: ActorName,
    ) -> Result<Actor, AllocError>
        requires world { IsWorld world.now }
        requires has { has_actor world.now name ≡ true }
        requires dbs { arc_value dbs.now ≡ world.now.dbs }
        ensures of { IfOk result (IsActorOf world.now) }
        ensures name { IfOk result (λ a. a.name ≡ name) }
        ensures opening { IfOk result (λ a. kept_state a ≡ opening_actor world.now.timers name) }
    {
        let kind = Kind::new(alloc, world, dbs, name)?;
        Ok(Actor { name, kind })
    }

    /// Its name.
    pub fn name(&self) -> ActorName
        ensures { result ≡ self.now.name }
    {
        self.name
    }

    /// Whether its table answers the work now, with whatever is given.
    #[tactic(auto, using(crate::proofs::ByKind::told_in))]
    pub fn ready(&self, now: u64, work: &Work) -> bool
        ensures { (w : AnyWorld) → IsActorOf w self.now
            → result ≡ is_some (actor_step w self.now.name (kept_state self.now) now work.now) }
    {
        self.kind.ready(now, work)
    }

    /// Answers a work that is ready. Where memory ran out nothing has changed.
    #[tactic(auto, using(crate::proofs::ByKind::ready_of, crate::proofs::ByKind::steps_if, crate::proofs::ByKind::copy_if))]
    pub fn step(&mut self, now: u64, work: &Work) -> Result<Outcome, AllocError>
        requires now { now < 2 ^ 63 }
        requires small { IsSmallActor (kept_state self.old) }
        requires ready { IsKeptReady self.old now work.now }
        ensures ok { IfOk result (StepsKept self.old self.new now work.now) }
        ensures name { self.new.name ≡ self.old.name }
        ensures copy { IfOk result (λ o. o.copy ≡ Some o.reply) }
        ensures err { OnErr result (self.new ≡ self.old) }
        ensures memory { OnErr result (ActorMayWant self.old.kind now work.now) }
    {
        self.kind.step(now, work)
    }

    /// The moment at which it is due.
    pub fn due(&self) -> Option<u64>
        ensures { result ≡ duties.due_of (kept_state self.now) }
    {
        self.kind.due()
    }

    /// The generation of a conversation, else 0.
    pub fn generation(&self) -> u64
        ensures { result ≡ duties.generation_of (kept_state self.now) }
    {
        self.kind.generation()
    }
}
