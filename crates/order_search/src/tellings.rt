//! What the program reports of an outcome.
ghost use Rattle.std.specs.Prelude.{◌≡◌, ◌≤◌, IfOk};
ghost use Rattle.turn_orders.specs.Turns.{IsEnded};
ghost use Rattle.order_search.specs.Walks.{IsWalk};
ghost use Rattle.order_search.specs.Tellings.{IsTellingOf};

use crate::ended::{end_of, summary_of_walk};
use crate::results::results_of;
use crate::walk::Walk;
use net_base::{Octets, RunEnd, World};
use std::alloc::{AllocError, Global};

/// An outcome: the losses, if these are sought, and the preemptions of the history that has it first, the four lines of the summary, the results of all
/// steps, a line each, and how the history has ended.
#[derive(Drop)]
pub struct Telling {
    pub losses: Option<u64>,
    pub preemptions: u64,
    pub summary: Octets,
    pub results: Octets,
    pub end: Option<RunEnd>,
}

/// What the program reports of a run that has ended.
pub fn telling_of(
    alloc: Global,
    world: &World,
    walk: &Walk<'_>,
    losses: Option<u64>,
) -> Result<Telling, AllocError>
    requires walk { IsWalk world.now walk.now }
    requires ended { IsEnded world.now walk.now.history }
    ensures is { IfOk result (IsTellingOf world.now walk.now.preemptions walk.now.history) }
    ensures losses { IfOk result (λ telling. telling.losses ≡ losses) }
{
    let summary = summary_of_walk(alloc, world, walk)?;
    let results = results_of(alloc, world, walk)?;
    let end = end_of(world, walk);
    Ok(Telling {
        losses,
        preemptions: walk.preemptions,
        summary,
        results,
        end,
    })
}
