//! The turn of a caller, and what it costs.
ghost use Rattle.std.specs.Prelude.{◌≡◌, ◌<◌, ℕ, Some, length, true, IfOk};
ghost use Rattle.net_base.specs.Net.{after};
ghost use Rattle.plain_runner.specs.Tracks.{Grows, Tracks};
ghost use Rattle.turn_orders.specs.Preemptions.{cost, last_caller};
ghost use Rattle.order_search.specs.Walks.{IsGoer};

use crate::going::can_go;
use net_base::{Entry, Event, World};
use plain_runner::Runner;
use std::alloc::AllocError;
use turn_orders::{callers_that_come, costs_are, turns_are_ready, turns_follow};

/// Records the turn of a caller that can continue.
pub fn take_turn(runner: &mut Runner<'_>, world: &World, caller: usize) -> Result<Entry, AllocError>
    requires tracks { Tracks world.now runner.old }
    requires goes { IsGoer world.now runner.old.history.entries (length runner.old.callers.items) caller }
    ensures { IfOk result (Grows world.now runner.old runner.new caller) }
{
    turns_follow();
    callers_that_come();
    turns_are_ready();
    if runner.may_turn(caller) {
        return runner.record_next(caller);
    }
    let moment = runner.target(world)?;
    runner.follow(caller as u32, &Event::Move { moment })
}

/// What the turn of a caller costs after an entry of the last one: 1 if that could continue, and is another one.
pub fn cost_of(runner: &Runner<'_>, world: &World, last: Option<usize>, caller: usize) -> u64
    requires tracks { Tracks world.now runner.now }
    requires last { last_caller runner.now.history.entries ≡ last }
    requires known { (c : ℕ) → last ≡ Some c → c < length runner.now.callers.items }
    ensures { result ≡ cost world.now runner.now.history.entries caller }
{
    costs_are();
    let Some(last) = last else {
        return 0;
    };
    if last == caller {
        return 0;
    }
    if can_go(runner, world, last) {
        return 1;
    }
    0
}
