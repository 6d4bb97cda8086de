//! The command `big`.
ghost use Rattle.std.specs.Prelude.{[], IfOk};
ghost use Rattle.net_model.specs.Words.{Big};
ghost use Rattle.net_base.specs.World.{IsWorld};
ghost use Rattle.netsh.specs.Built.{IsAnswer, IsSummed};

use crate::answer::of_made_run;
use agenda::RunError;
use net_base::World;
use net_model::Answer;
use outside::Gate;
use std::alloc::{AllocError, Global};
use std::mem;
use std::sync::Wait;
use std::thread::Threads;
use world_writer::make_world;

/// The workers of a run of a made world.
const WORKERS: u32 = 2;

/// The summary of a run of the made world of so many messages.
pub fn big<R: Threads + Wait + Sync, G: Gate + Sync>(
    rt: &R,
    alloc: Global,
    messages: u32,
    gate: &G,
) -> Result<Answer, AllocError>
    ensures { IfOk result (λ answer. IsAnswer (Big messages) [] answer) }
{
    let world = make_world(alloc, messages)?;
    let answer = run_made(rt, alloc, &world, gate);
    // the program ends behind its one answer, and gives back all memory at once
    mem::forget(world);
    answer
}

/// The summary of a run of a world.
fn run_made<R: Threads + Wait + Sync, G: Gate + Sync>(
    rt: &R,
    alloc: Global,
    world: &World,
    gate: &G,
) -> Result<Answer, AllocError>
    requires { IsWorld world.now }
    ensures { IfOk result (λ answer. IsSummed world.now answer) }
{
    match agenda::run_in_books(rt, alloc, world, WORKERS, gate) {
        Ok(run) => {
            let answer = of_made_run(alloc, world, &run);
            // the program ends behind its one answer, and gives back all memory at once
            mem::forget(run);
            answer
        }
        Err(RunError::Memory) => Err(AllocError),
    }
}
