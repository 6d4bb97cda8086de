//! Laws of the histories of a world.
ghost use Rattle.std.specs.Prelude.{◌<◌, ◌^◌, ℕ, List, length};
ghost use Rattle.net_base.specs.declared.actor.ActorName.{ActorName};
ghost use Rattle.net_base.specs.declared.history.Entry.{Entry};
ghost use Rattle.net_base.specs.declared.world.Step.{Step};
ghost use Rattle.net_base.specs.declared.world.World.{World};
ghost use Rattle.net_base.specs.Legal.{IsLegal, IsTimed};
ghost use Rattle.net_base.specs.Net.{moment, state};
ghost use Rattle.net_base.specs.World.{IsWorld};
ghost use Rattle.net_actors.specs.Small.{IsSmallActor};
ghost use Rattle.grown_laws.specs.Grown.{HasNextAtMoves, grown};
ghost use Rattle.plain_runner.specs.Resting.{Rests};
ghost use Rattle.plain_runner.specs.declared.resting.Resting.{Resting};

use grown_laws::{finished_steps_stay, grown_is_legal, grown_is_timed, nets_are_alike};
use history_laws::{callers_have_room, histories_grow, state_is_fold};
use net_actors::few_works_are_small;
use script_player::players_fit_longer_scripts;

/// A legal history of a world has few entries, so that its actors can count on, and in a timed one it is early.
pub fn histories_are_short()
    ensures few { (w : World) (h : List Entry) → IsWorld w → IsLegal w h → length h < 2 ^ 30 }
    ensures small { (w : World) (h : List Entry) (a : ActorName) → IsWorld w → IsLegal w h
        → IsSmallActor (state w h a) }
    ensures early { (w : World) (h : List Entry) → IsWorld w → IsTimed w h → moment w h < 2 ^ 63 }
{
    callers_have_room();
    histories_grow();
    state_is_fold();
    few_works_are_small();
}

/// States that a resting run also rests in the world with more steps at the end of a script.
///
/// The script must have had a next event whenever the clock advanced.
pub fn resting_runs_grow()
    ensures { (w : World) (c : ℕ) (more : List Step) (r : Resting) → Rests w r → IsWorld (grown w c more)
        → HasNextAtMoves w c r.history.entries → Rests (grown w c more) r }
{
    nets_are_alike();
    grown_is_legal();
    grown_is_timed();
    finished_steps_stay();
    players_fit_longer_scripts();
}
