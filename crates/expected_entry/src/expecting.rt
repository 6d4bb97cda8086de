//! The entry that comes next.
ghost use Rattle.std.specs.Prelude.{◌≡◌, ◌<◌, [], length, true, None, Some, IfOk, IfSome, IfNone, OnOk};
ghost use Rattle.net_base.specs.Legal.{IsLegal, IsTimed};
ghost use Rattle.net_base.specs.Net.{after};
ghost use Rattle.net_base.specs.World.{IsWorld};
ghost use Rattle.plain_runner.specs.Followed.{Followed};
ghost use Rattle.plain_runner.specs.Tracks.{Tracks};
ghost use Rattle.turn_orders.specs.Turns.{IsEnded, goes};
ghost use Rattle.order_search.specs.Walks.{IsGoer};
ghost use Rattle.expected_entry.specs.Expected.{IsExpected};

use net_base::{Entry, World};
use order_search::{can_go, first_goer, take_turn};
use plain_runner::Runner;
use std::alloc::{AllocError, Global};

/// Returns the entry that a caller records next after a legal and timed history, if it can continue. If it must wait, returns the entry of the first
/// caller that can continue, and nothing at the end of a run.
pub fn expected_entry(
    alloc: Global,
    world: &World,
    past: &[Entry],
    wanted: u32,
) -> Result<Option<Entry>, AllocError>
    requires world { IsWorld world.now }
    requires legal { IsLegal world.now past.now }
    requires timed { IsTimed world.now past.now }
    ensures { IfOk result (IsExpected world.now past.now wanted) }
{
    let mut runner = Runner::new(alloc, world)?;
    play(&mut runner, world, past)?;
    let Some(caller) = goer(&runner, world, wanted as usize) else {
        return Ok(None);
    };
    let entry = take_turn(&mut runner, world, caller)?;
    Ok(Some(entry))
}

// Plays a legal and timed history.
fn play(runner: &mut Runner<'_>, world: &World, past: &[Entry]) -> Result<(), AllocError>
    requires legal { IsLegal world.now past.now }
    requires timed { IsTimed world.now past.now }
    requires fresh { Followed world.now [] runner.old }
    ensures { OnOk result (Followed world.now past.now runner.new) }
{
    let _ = world;
    for entry in past {
        runner.follow(entry.caller, &entry.event)?;
    }
    Ok(())
}

// A caller, if it can continue, and otherwise the first one that can.
fn goer(runner: &Runner<'_>, world: &World, wanted: usize) -> Option<usize>
    requires { Tracks world.now runner.now }
    ensures some { IfSome result (IsGoer world.now runner.now.history.entries (length runner.now.callers.items)) }
    ensures own { wanted < length runner.now.callers.items
        → goes world.now (after world.now runner.now.history.entries) wanted ≡ true → result ≡ Some wanted }
    ensures none { IfNone result (IsEnded world.now runner.now.history.entries) }
{
    if wanted < runner.callers.len() && can_go(runner, world, wanted) {
        return Some(wanted);
    }
    first_goer(runner, world)
}
