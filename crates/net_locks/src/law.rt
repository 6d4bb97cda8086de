//! What is known of due moments.
ghost use mathlib.Core.List.{IsPrefix};
ghost use Rattle.net_base.specs.declared.noted.Noted.{Noted};
ghost use Rattle.net_base.specs.declared.world.World.{World};
ghost use Rattle.std.specs.Prelude.{List};
ghost use Rattle.net_locks.specs.declared.calendar.Calendar.{Calendar};
ghost use Rattle.net_locks.specs.Knowing.{IsKnown};

/// It's known after more entries.
pub fn calendars_stay_known()
    ensures { (w : World) (log log' : List Noted) (k : Calendar) → IsPrefix log log' → IsKnown w log k
        → IsKnown w log' k }
{}
