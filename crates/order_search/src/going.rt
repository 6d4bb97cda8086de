//! Which callers can continue.
ghost use Rattle.std.specs.Prelude.{◌≡◌, ◌<◌, ◌≤◌, ◌+◌, ◌==◌, length, IfSome, IfNone};
ghost use Rattle.net_base.specs.Net.{after};
ghost use Rattle.plain_runner.specs.Tracks.{Tracks};
ghost use Rattle.turn_orders.specs.Turns.{IsEnded, goes};
ghost use Rattle.order_search.specs.Walks.{IsGoer, NobodyGoes};

use net_base::World;
use plain_runner::Runner;
use turn_orders::turns_are_ready;

/// Returns whether a caller can continue: it has room, and its turn is ready.
pub fn can_go(runner: &Runner<'_>, world: &World, caller: usize) -> bool
    requires tracks { Tracks world.now runner.now }
    requires caller { caller < length runner.now.callers.items }
    ensures { result ≡ goes world.now (after world.now runner.now.history.entries) caller }
{
    turns_are_ready();
    if runner.is_full(caller) {
        return false;
    }
    if runner.may_turn(caller) {
        return true;
    }
    if is_last(runner, caller) {
        return runner.is_movable(world);
    }
    false
}

// Whether a caller is the last one, which is the clock's.
fn is_last(runner: &Runner<'_>, caller: usize) -> bool
    requires { caller < length runner.now.callers.items }
    ensures { result ≡ (caller + 1 == length runner.now.callers.items) }
{
    caller + 1 == runner.callers.len()
}

/// The lowest caller from a number on that can continue.
pub fn next_goer(runner: &Runner<'_>, world: &World, from: usize) -> Option<usize>
    requires { Tracks world.now runner.now }
    ensures some { IfSome result (IsGoer world.now runner.now.history.entries (length runner.now.callers.items)) }
    ensures from { IfSome result (λ c. from ≤ c) }
    ensures lowest { IfSome result (NobodyGoes world.now runner.now.history.entries from) }
    ensures none { IfNone result (NobodyGoes world.now runner.now.history.entries from (length runner.now.callers.items)) }
{
    for caller in from..runner.callers.len() {
        if can_go(runner, world, caller) {
            return Some(caller);
        }
    }
    None
}

/// The lowest caller that can continue. Without one the run has ended.
pub fn first_goer(runner: &Runner<'_>, world: &World) -> Option<usize>
    requires { Tracks world.now runner.now }
    ensures some { IfSome result (IsGoer world.now runner.now.history.entries (length runner.now.callers.items)) }
    ensures lowest { IfSome result (NobodyGoes world.now runner.now.history.entries 0) }
    ensures none { IfNone result (IsEnded world.now runner.now.history.entries) }
{
    next_goer(runner, world, 0)
}
