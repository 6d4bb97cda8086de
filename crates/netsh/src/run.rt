//! The command `run`.
ghost use Rattle.std.specs.Prelude.{◌<◌, ◌≤◌, length, IfOk};
ghost use Rattle.net_model.specs.Answers.{input_limit};
ghost use Rattle.net_model.specs.Words.{Run};
ghost use Rattle.net_base.specs.World.{IsWorld};
ghost use Rattle.netsh.specs.Built.{IsAnswer, IsRunAnswer};

use crate::answer::of_run;
use agenda::RunError;
use net_base::World;
use net_model::Answer;
use outside::Gate;
use std::alloc::{AllocError, Global};
use std::mem;
use std::sync::Wait;
use std::thread::Threads;
use world_file::{WorldError, read_world};

/// What a run on so many workers over the world that an input is prints. The text is whole before any of it is written.
pub fn run_over<R: Threads + Wait + Sync, G: Gate + Sync>(
    rt: &R,
    alloc: Global,
    workers: u32,
    input: &[u8],
    gate: &G,
) -> Result<Answer, AllocError>
    requires limit { length input.now ≤ input_limit (Run workers) }
    requires some { 0 < workers }
    requires few { workers ≤ 16 }
    ensures { IfOk result (λ answer. IsAnswer (Run workers) input.now answer) }
{
    let world = match read_world(alloc, input) {
        Ok(world) => world,
        Err(WorldError::Bad { line, cause }) => return Answer::bad_input(alloc, line, cause),
        Err(WorldError::Memory) => return Err(AllocError),
    };
    let answer = run_world(rt, alloc, workers, &world, gate);
    // the program ends behind its one answer, and gives back all memory at once
    mem::forget(world);
    answer
}

/// What a run of a world on so many workers prints.
fn run_world<R: Threads + Wait + Sync, G: Gate + Sync>(
    rt: &R,
    alloc: Global,
    workers: u32,
    world: &World,
    gate: &G,
) -> Result<Answer, AllocError>
    requires world { IsWorld world.now }
    requires some { 0 < workers }
    requires few { workers ≤ 16 }
    ensures { IfOk result (λ answer. IsRunAnswer world.now answer) }
{
    match agenda::run_in_books(rt, alloc, world, workers, gate) {
        Ok(run) => {
            let answer = of_run(rt, alloc, workers, world, &run);
            // the program ends behind its one answer, and gives back all memory at once
            mem::forget(run);
            answer
        }
        Err(RunError::Memory) => Err(AllocError),
    }
}
