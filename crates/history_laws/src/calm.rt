//! Laws of the calm: when the clock may move and to where, how limits are found, and a history from its callers.
ghost use Rattle.std.specs.Prelude.{◌≡◌, ◌<◌, ◌≤◌, ◌&&◌, ◌⊎◌, ℕ, List, Some, true, false, slice_get};
ghost use Rattle.net_base.specs.declared.actor.ActorName.{ActorName};
ghost use Rattle.net_base.specs.declared.actor.ActorName.TheVariants as name;
ghost use Rattle.net_base.specs.declared.address.Proto.{Proto};
ghost use Rattle.net_base.specs.declared.event.Event.TheVariants as event;
ghost use Rattle.net_base.specs.declared.history.Entry.{Entry};
ghost use Rattle.net_base.specs.declared.world.World.{World};
ghost use Rattle.net_base.specs.Actors.{has_actor};
ghost use Rattle.net_base.specs.Callers.{caller_count, clock_number};
ghost use Rattle.net_base.specs.Calm.{calm_by, limited_by, movable_by, owes, target_by, unfinished_by};
ghost use Rattle.net_base.specs.Duties.{conversations};
ghost use Rattle.net_base.specs.Legal.{IsInTimeBy};
ghost use Rattle.net_base.specs.Net.{Net};
ghost use Rattle.net_base.specs.Stamped.{In, of_caller};
ghost use Rattle.net_base.specs.Tasks.{Tasks};
ghost use Rattle.history_laws.specs.Could.{could, is_full};
ghost use Rattle.history_laws.specs.Moments.{IsAwaited, IsDue};

use crate::full_callers_limit;

/// The net is calm exactly where no caller could record. The clock could record only what it owes.
pub fn calm_is_that_nobody_could()
    ensures calm { (ts : Tasks) (w : World) (net : Net) → ((c : ℕ) → c < caller_count w → could ts w net c ≡ false)
        → calm_by ts w net ≡ true }
    ensures busy { (ts : Tasks) (w : World) (net : Net) (c : ℕ) → c < caller_count w → could ts w net c ≡ true
        → calm_by ts w net ≡ false }
    ensures clock { (ts : Tasks) (w : World) (net : Net) → could ts w net (clock_number w) ≡ owes net (clock_number w) }
{}

/// Where no full caller could record, and the clock isn't full where it may move, the run isn't limited.
pub fn nobody_is_limited()
    ensures { (ts : Tasks) (w : World) (net : Net)
        → ((c : ℕ) → c < caller_count w → (is_full net c && could ts w net c) ≡ false)
        → (is_full net (clock_number w) && movable_by ts w net) ≡ false → limited_by ts w net ≡ false }
{}

/// A full caller that could record limits the run, and so does a full clock that may move.
pub fn somebody_is_limited()
    ensures caller { (ts : Tasks) (w : World) (net : Net) (c : ℕ) → c < caller_count w → is_full net c ≡ true
        → could ts w net c ≡ true → limited_by ts w net ≡ true }
    ensures clock { (ts : Tasks) (w : World) (net : Net) → is_full net (clock_number w) ≡ true
        → movable_by ts w net ≡ true
        → limited_by ts w net ≡ true }
{
    full_callers_limit();
}

/// A conversation stands in the list of a world's exactly where the world has it.
pub fn conversations_are_these()
    ensures there { (w : World) (h : ℕ) (p : Proto) (n : ℕ) → has_actor w (name.Conv h p n) ≡ true
        → In (name.Conv h p n) (conversations w) }
    ensures only { (w : World) (a : ActorName) → In a (conversations w)
        → (h : ℕ) × (p : Proto) × (n : ℕ) × (a ≡ name.Conv h p n) × (has_actor w a ≡ true) }
{}

/// A moment that none of those comes before, and that is one of them or the end moment, is the clock's target. In which
/// order they are found is no matter.
pub fn targets_are_least()
    ensures { (ts : Tasks) (w : World) (net : Net) (t : ℕ) → t ≤ w.end → ((m : ℕ) → IsDue w net m → t ≤ m)
        → ((m : ℕ) → IsAwaited ts w net m → t ≤ m) → (t ≡ w.end) ⊎ (IsDue w net t ⊎ IsAwaited ts w net t)
        → t ≡ target_by ts w net }
{}

/// A move in a calm, before the end and where some script isn't through, comes in time where it goes to the target.
pub fn moves_are_timely()
    ensures may { (ts : Tasks) (w : World) (net : Net) → calm_by ts w net ≡ true → unfinished_by ts w net ≡ true
        → net.moment < w.end
        → movable_by ts w net ≡ true }
    ensures timely { (ts : Tasks) (w : World) (net : Net) (m : ℕ) → movable_by ts w net ≡ true → m ≡ target_by ts w net
        → IsInTimeBy ts net w (event.Move m) }
{}

/// Two histories in which each caller has the same entries with the same stamps are one.
pub fn histories_are_their_callers()
    ensures { (n : ℕ) (h k : List Entry)
        → ((i : ℕ) (x : Entry) → slice_get h i ≡ Some x → x.caller < n)
        → ((i : ℕ) (x : Entry) → slice_get k i ≡ Some x → x.caller < n)
        → ((c : ℕ) → c < n → of_caller c h ≡ of_caller c k) → h ≡ k }
{}
