//! What is put at its place keeps the order of conversations.
ghost use Rattle.std.specs.Prelude.{◌≡◌, ℕ, Option, filter_map, false};
ghost use Rattle.net_base.specs.declared.actor.ActorName.{ActorName};
ghost use Rattle.net_base.specs.declared.actor.ActorName.TheVariants as name;
ghost use Rattle.net_base.specs.declared.address.Proto.{Proto};
ghost use Rattle.net_base.specs.declared.world.World.{World};
ghost use Rattle.net_base.specs.Duties.{conversations};
ghost use Rattle.net_base.specs.Stamped.{In, same_actor};
ghost use Rattle.duties.specs.declared.due.Due.{Due};
ghost use Rattle.duties.specs.Places.{AreOwnPlaces, conversation_place, put_at};

/// Where the due moments of two nets differ at one conversation alone, those of the second are those of the first with
/// that conversation's put at its place.
pub fn puts_keep_the_dues()
    ensures { (w : World) (h : ℕ) (p : Proto) (n : ℕ) (before after : ActorName → Option Due)
        → In (name.Conv h p n) (conversations w) → AreOwnPlaces before
        → ((b : ActorName) → same_actor (name.Conv h p n) b ≡ false → after b ≡ before b)
        → filter_map after (conversations w)
        ≡ put_at (conversation_place h p n) (after (name.Conv h p n)) (filter_map before (conversations w)) }
{}
