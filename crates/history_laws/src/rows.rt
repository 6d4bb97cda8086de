//! The tables of the actors row by row.
ghost use Rattle.std.specs.Prelude.{IfSome, ℕ};
ghost use Rattle.net_base.specs.declared.actor.ActorName.{ActorName};
ghost use Rattle.net_base.specs.declared.address.Proto.{Proto};
ghost use Rattle.net_base.specs.declared.event.Event.{Event};
ghost use Rattle.net_base.specs.declared.history.With.{With};
ghost use Rattle.net_base.specs.declared.history.Work.{Work};
ghost use Rattle.net_base.specs.declared.world.World.{World};
ghost use Rattle.net_base.specs.ActorStep.{Step};
ghost use Rattle.net_base.specs.Actors.{Actor, actor_step};
ghost use Rattle.net_base.specs.Conversation.{Conv, conv_step};
ghost use Rattle.net_base.specs.Directory.{Dir, dir_step};
ghost use Rattle.history_laws.specs.ActorRows.{ActorRow};
ghost use Rattle.history_laws.specs.ConvRows.{ConvRow};
ghost use Rattle.history_laws.specs.DirRows.{DirRow};

/// Each step of an actor is that of a row.
pub fn steps_are_rows()
    ensures conversations { (slot now : ℕ) (c : Conv) (e : Event) (gift : With)
        → IfSome (conv_step slot e gift now c) (λ (s : Step Conv). ConvRow slot now c e gift s) }
    ensures directories { (w : World) (h : ℕ) (p : Proto) (d : Dir) (e : Event) (gift : With)
        → IfSome (dir_step w h p e gift d) (λ (s : Step Dir). DirRow w h p d e gift s) }
    ensures actors { (w : World) (now : ℕ) (a : ActorName) (s : Actor) (work : Work)
        → IfSome (actor_step w a s now work) (λ (t : Step Actor). ActorRow w now a s work.event work.with t) }
{}
