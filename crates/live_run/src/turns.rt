//! Whose turn it is in a drawn order.
ghost use Rattle.std.specs.Prelude.{◌<◌, length, IfSome};
ghost use Rattle.plain_runner.specs.Tracks.{Tracks};

use crate::round::moves_next;
use net_base::World;
use order_search::{Ranks, can_go};
use plain_runner::Runner;

/// Returns the caller whose turn it is before the clock moves: of those that can continue the one of the greatest rank, the lowest number
/// among equal ranks.
pub fn first_ready(runner: &Runner<'_>, world: &World, ranks: &mut Ranks) -> Option<usize>
    requires { Tracks world.now runner.now }
    ensures { IfSome result (λ caller. caller < length runner.now.callers.items) }
{
    let first = lowest_ready(runner, world)?;
    ranks.begin_turn();
    let mut best = first;
    for caller in 0..runner.callers.len() {
        if ranks.of(best) < ranks.of(caller) && is_ready(runner, world, caller) {
            best = caller;
        }
    }
    Some(best)
}

fn lowest_ready(runner: &Runner<'_>, world: &World) -> Option<usize>
    requires { Tracks world.now runner.now }
    ensures { IfSome result (λ caller. caller < length runner.now.callers.items) }
{
    for caller in 0..runner.callers.len() {
        if is_ready(runner, world, caller) {
            return Some(caller);
        }
    }
    None
}

// Whether a caller can continue, and not by a move of the clock.
fn is_ready(runner: &Runner<'_>, world: &World, caller: usize) -> bool
    requires tracks { Tracks world.now runner.now }
    requires caller { caller < length runner.now.callers.items }
{
    !moves_next(runner, caller) && can_go(runner, world, caller)
}
