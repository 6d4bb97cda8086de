//! A law of the actors of the definitions.
ghost use Rattle.std.specs.Prelude.{◌<◌, ◌^◌, List, length};
ghost use Rattle.net_base.specs.declared.actor.ActorName.{ActorName};
ghost use Rattle.net_base.specs.declared.world.World.{World};
ghost use Rattle.net_base.specs.Actors.{opening_actor};
ghost use Rattle.net_base.specs.Net.{WorkAt, played};
ghost use Rattle.net_actors.specs.Small.{IsSmallActor};

/// What fewer than 2^30 works led to is small.
#[tactic(auto, using(crate::proofs::FewWorks::few_works))]
pub fn few_works_are_small()
    ensures { (w : World) (a : ActorName) (ps : List WorkAt) → length ps < 2 ^ 30
        → IsSmallActor (played w a (opening_actor w.timers a) ps) }
{}
