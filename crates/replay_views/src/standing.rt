//! Where scripts stand.
ghost use Rattle.std.specs.Prelude.{◌≡◌, ◌<◌, ℕ, List, Some, length, slice_get};
ghost use Rattle.net_base.specs.declared.history.Entry.{Entry as AnyEntry};
ghost use Rattle.net_base.specs.declared.world.Script.{Script as AnyScript};
ghost use Rattle.net_base.specs.declared.world.World.{World as AnyWorld};
ghost use Rattle.net_base.specs.Calm.{owes};
ghost use Rattle.net_base.specs.Net.{after};
ghost use Rattle.net_base.specs.Next.{finished_by, own_replies, zone_of};
ghost use Rattle.net_base.specs.Summary.{answered_by};
ghost use Rattle.plain_runner.specs.Callers.{IsCallerKept};
ghost use Rattle.plain_runner.specs.Tracks.{Tracks};

use plain_runner::{Caller, Role, Runner};

/// How many steps of a script are finished, where the caller is one.
pub fn finished(runner: &Runner<'_>, caller: u32) -> Option<usize>
    requires { caller < length runner.now.callers.items }
    ensures { (w : AnyWorld) (s : AnyScript) → Tracks w runner.now → slice_get w.scripts caller ≡ Some s
        → result ≡ Some (finished_by (zone_of w) (own_replies runner.now.history.entries caller) s) }
{
    finished_steps(&runner.callers[caller as usize])
}

fn finished_steps(caller: &Caller<'_>) -> Option<usize>
    ensures { (w : AnyWorld) (h : List AnyEntry) (c : ℕ) (s : AnyScript) → IsCallerKept w h c caller.now
        → slice_get w.scripts c ≡ Some s
        → result ≡ Some (finished_by (zone_of w) (own_replies h c) s) }
{
    match &caller.role {
        Role::Script(_, player) => Some(player.finished()),
        Role::Courier(_) => None,
        Role::Clock => None,
    }
}

/// How many steps of a script are answered: what it owes belongs to the step of its last own event.
pub fn answered(caller: &Caller<'_>) -> usize
    ensures { (w : AnyWorld) (h : List AnyEntry) (c : ℕ) (s : AnyScript) → IsCallerKept w h c caller.now
        → slice_get w.scripts c ≡ Some s
        → result ≡ answered_by w h (c, s) }
{
    if owes(caller) {
        return caller.before;
    }
    match finished_steps(caller) {
        Some(finished) => finished,
        None => 0,
    }
}

/// Whether a caller owes an event.
pub fn owes(caller: &Caller<'_>) -> bool
    ensures { (w : AnyWorld) (h : List AnyEntry) (c : ℕ) → IsCallerKept w h c caller.now → result ≡ owes (after w h) c }
{
    !caller.owed.is_empty()
}
