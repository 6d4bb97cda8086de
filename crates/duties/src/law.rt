//! What moves owe.
ghost use Rattle.std.specs.Prelude.{ℕ};
ghost use Rattle.net_base.specs.declared.actor.ActorName.{ActorName};
ghost use Rattle.net_base.specs.declared.world.World.{World};
ghost use Rattle.net_base.specs.Actors.{Actor};
ghost use Rattle.duties.specs.Ticking.{MoveOwes};

/// A move owes the ticks of the conversations whose due moments have come, and nothing else.
pub fn a_move_owes_its_ticks()
    ensures { (w : World) (actors : ActorName → Actor) (stamp now : ℕ) → MoveOwes w actors stamp now }
{}
