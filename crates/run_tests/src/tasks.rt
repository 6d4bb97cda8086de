//! Runs with tasks in the places of scripts.
ghost use Rattle.std.specs.Prelude.{None, IfOk};
ghost use Rattle.net_base.specs.World.{IsWorld};

use agenda::{OwnTask, RunEnd, TaskRun, run, run_tasks};
use net_base::{Octets, Reply, World};
use outside::OpenGate;
use script_task::{Names, Request};
use std::alloc::{AllocError, Global};
use std::sync::Wait;
use std::test::*;
use std::thread::Threads;
use transcript::text_of;
use world_file::read_world;

// A script that lists, and one that would wait for a call that never comes.
const LISTS: &[u8] = b"networld 1
end 60000
seed 7
medium ether0 1500
host anna il udp
if ether0 135.104.9.6 255.255.255.0
script anna
ls /net
until 50
script anna
announce a il!*!17008
listen c a
ndb
";

/// A task that is through at once.
#[derive(Drop)]
struct Idle;

impl OwnTask for Idle {
    ghost asks = { λ t names. None };

    ghost after = { λ t r. t };

    ghost Keeps = { λ t rs. Unit {0} };

    ghost keeps_on = { λ t rs r is. tt };

    fn next(&self, alloc: Global, names: &Names) -> Result<Option<Request>, AllocError> {
        Ok(None)
    }

    fn told(&mut self, alloc: Global, reply: Reply) -> Result<(), AllocError> {
        drop(reply);
        Ok(())
    }
}

fn world_of(alloc: Global) -> Result<World, AllocError>
    ensures { IfOk result (λ w. IsWorld w) }
{
    match read_world(alloc, LISTS) {
        Ok(world) => Ok(world),
        Err(_) => Err(AllocError),
    }
}

// A run on one worker with these tasks.
fn ran<R: Threads + Wait + Sync>(
    rt: &R,
    alloc: Global,
    world: &World,
    tasks: Vec<Option<Idle>>,
) -> Result<TaskRun<Idle>, AllocError>
    requires { IsWorld world.now }
{
    match run_tasks(rt, alloc, world, tasks, 1, &OpenGate) {
        Ok(run) => Ok(run),
        Err(_) => Err(AllocError),
    }
}

// The text of the history of its scripts' run.
fn scripts_text<R: Threads + Wait + Sync>(
    rt: &R,
    alloc: Global,
    world: &World,
) -> Result<Octets, AllocError>
    requires { IsWorld world.now }
{
    match run(rt, alloc, world, 1, &OpenGate) {
        Ok(run) => text_of(alloc, &run.history),
        Err(_) => Err(AllocError),
    }
}

#[test]
fn a_run_without_tasks_is_that_of_its_scripts(rt: HostRuntime) -> Result<(), AllocError> {
    let world = world_of(rt.alloc())?;
    let run = ran(&rt, rt.alloc(), &world, Vec::new(rt.alloc()))?;
    let text = text_of(rt.alloc(), &run.history)?;
    assert!(rt; text == scripts_text(&rt, rt.alloc(), &world)?);
    assert!(rt; run.end == RunEnd::Stopped);
    Ok(())
}

#[test]
fn a_task_is_played_instead_of_a_script(rt: HostRuntime) -> Result<(), AllocError> {
    let world = world_of(rt.alloc())?;
    let mut tasks = Vec::with_capacity(rt.alloc(), 2)?;
    tasks.push(None)?;
    tasks.push(Some(Idle))?;
    let run = ran(&rt, rt.alloc(), &world, tasks)?;
    assert!(rt; run.end == RunEnd::Done);
    assert!(rt; run.tasks.len() == 2);
    Ok(())
}
