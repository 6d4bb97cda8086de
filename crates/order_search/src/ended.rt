//! A whole history of a world.
ghost use Rattle.std.specs.Prelude.{◌≡◌, IfOk};
ghost use Rattle.net_base.specs.Net.{after};
ghost use Rattle.net_base.specs.Summary.{end_word, summary};
ghost use Rattle.transcript.specs.RunStatus.{run_end_word};
ghost use Rattle.turn_orders.specs.Turns.{IsEnded};
ghost use Rattle.order_search.specs.Walks.{IsWalk};
ghost use Rattle.order_search.specs.Tellings.{IsEndedOf};

use crate::losses::Frame;
use crate::walk::Walk;
use net_base::{History, Octets, RunEnd, World};
use std::alloc::{AllocError, Global};
use std::mem;
use transcript::{RunStatus, summary_by};

/// A history in which nobody can continue, with its summary and how it has ended, and the frames that were chosen to be lost in it.
#[derive(Drop)]
pub struct Ended {
    pub lost: Vec<Frame>,
    pub history: History,
    pub summary: Octets,
    pub end: Option<RunEnd>,
}

/// How a run has ended.
pub fn end_of(world: &World, walk: &Walk<'_>) -> Option<RunEnd>
    requires { IsWalk world.now walk.now }
    ensures { run_end_word result ≡ end_word world.now (after world.now walk.now.history) }
{
    walk.runner.end(world)
}

/// The summary of a run.
pub fn summary_of_walk(alloc: Global, world: &World, walk: &Walk<'_>) -> Result<Octets, AllocError>
    requires { IsWalk world.now walk.now }
    ensures { IfOk result (λ text. text ≡ summary world.now walk.now.history) }
{
    let answered = walk.runner.answered(world);
    let end = walk.runner.end(world);
    summary_by(alloc, world, &walk.history, RunStatus { answered, end })
}

/// The history of a run that has ended, which is taken out.
pub fn ended_of(
    alloc: Global,
    world: &World,
    walk: &mut Walk<'_>,
    lost: &[Frame],
) -> Result<Ended, AllocError>
    requires walk { IsWalk world.now walk.old }
    requires ended { IsEnded world.now walk.old.history }
    ensures { IfOk result (IsEndedOf world.now walk.old.preemptions walk.old.history lost.now) }
{
    let lost = Vec::from_slice(alloc, lost)?;
    let summary = summary_of_walk(alloc, world, walk)?;
    let end = end_of(world, walk);
    let history = mem::replace(&mut walk.history, History::new(alloc));
    Ok(Ended {
        lost,
        history,
        summary,
        end,
    })
}
