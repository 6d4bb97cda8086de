//! The law.
ghost use Rattle.std.specs.Prelude.{◌≡◌, ◌<◌, ◌∷◌, List, ℕ, IsSome, true};
ghost use Rattle.net_base.specs.declared.history.Entry.{Entry};
ghost use Rattle.net_base.specs.declared.world.World.{World};
ghost use Rattle.net_base.specs.Actors.{actor_step};
ghost use Rattle.net_base.specs.Callers.{caller_count};
ghost use Rattle.net_base.specs.Calm.{owes};
ghost use Rattle.net_base.specs.Duties.{Duty};
ghost use Rattle.net_base.specs.Legal.{IsLegal};
ghost use Rattle.net_base.specs.Net.{after, owed};
ghost use Rattle.net_base.specs.World.{IsWorld};

/// Where a caller owes a duty after a legal history, the first duty of some caller is ready.
pub fn some_duty_is_ready()
    ensures { (w : World) (h : List Entry) (c : ℕ) → IsWorld w → IsLegal w h → owes (after w h) c ≡ true
        → (b : ℕ) × (d : Duty) × (ds : List Duty) × (b < caller_count w) × (owed w h b ≡ d ∷ ds)
        × IsSome (actor_step w d.actor ((after w h).actors d.actor) (after w h).moment
        (record { event = d.event; with = d.with })) }
{}
