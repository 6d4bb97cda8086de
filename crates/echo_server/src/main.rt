//! An echo server and its clients over a network that loses packets, on one worker and on four.
#![tactic(auto)]

ghost use Rattle.std.specs.Prelude.{◌≡◌, ◌<◌, ◌≤◌, filter, length, IfOk, IfSome};
ghost use Rattle.net_base.specs.World.{IsWorld};
ghost use Rattle.agenda.specs.PrefixLaw.{KeepsPrefixes};
ghost use Rattle.echo_server.specs.Echoes.{sent};
ghost use Rattle.echo_server.specs.Giving.{AskAsGiven, task_given, tasks_given};
ghost use Rattle.echo_server.specs.Reading.{HaveRead, is_well_client};

mod client;
mod server;

use agenda::{EitherTask, RunError, TaskRun, run_tasks};
use client::EchoClient;
use net_base::{Lines, World};
use outside::{OpenGate, Source, StdSource, read_to_end};
use server::EchoServer;
use std::alloc::{AllocError, Global};
use std::process::ExitCode;
use std::sync::Wait;
use std::thread::Threads;
use world_file::read_world;

/// Where the server is found, and where it announces.
const SERVICE: &[u8] = b"net!helix!echo";

const ANNOUNCED: &[u8] = b"net!*!echo";

/// A server or a client.
type EchoTask = EitherTask<EchoServer, EchoClient>;

/// Reads a world from standard input. The first of its scripts says where the server is, the others where clients are.
fn main(rt: HostRuntime) -> ExitCode {
    let Some(world) = world_of(rt.alloc(), &mut StdSource::new(rt.stdin())) else {
        return ExitCode::FAILURE;
    };
    let clients = world.scripts.len().saturating_sub(1);
    for workers in [1, 4] {
        let Ok(run) = echoes(&rt, rt.alloc(), &world, workers) else {
            return ExitCode::FAILURE;
        };
        let well = well_among(run.tasks.as_slice());
        if println!(rt; "{workers} workers: {well} of {clients} read what they wrote").is_err() {
            return ExitCode::FAILURE;
        }
    }
    ExitCode::SUCCESS
}

// None where there is no world in the first 65,536 bytes, or memory runs out.
fn world_of<S: Source>(alloc: Global, source: &mut S) -> Option<World>
    ensures { IfSome result (λ w. IsWorld w) }
{
    let text = read_to_end(alloc, source, 65_536).ok()?;
    read_world(alloc, text.as_slice()).ok()
}

// A run on so many workers: the server and the clients ask what is recorded. A client that ends well has read what it wrote, and what
// is read at a call was written at its other end.
fn echoes<R: Threads + Wait + Sync>(
    rt: &R,
    alloc: Global,
    world: &World,
    workers: u32,
) -> Result<TaskRun<EchoTask>, RunError>
    requires world { IsWorld world.now }
    requires some { 0 < workers }
    requires few { workers ≤ 16 }
    ensures asked { IfOk result (λ run. AskAsGiven world.now run.history) }
    ensures read { IfOk result (λ run. HaveRead run.history run.tasks.items) }
    ensures places { IfOk result (λ run. length run.tasks.items ≡ length world.now.scripts) }
    ensures prefixes { IfOk result (λ run. KeepsPrefixes world.now run.history) }
{
    let tasks = tasks_of(alloc, world.scripts.len())?;
    let run = run_tasks(rt, alloc, world, tasks, workers, &OpenGate)?;
    Ok(run)
}

// A server in the first place, and clients in the others.
fn tasks_of(alloc: Global, places: usize) -> Result<Vec<Option<EchoTask>>, AllocError>
    ensures { IfOk result (λ tasks. tasks.items ≡ tasks_given places) }
{
    let mut tasks = Vec::with_capacity(alloc, places)?;
    for place in 0..places {
        let task = task_of(alloc, place)?;
        tasks.push(Some(task))?;
    }
    Ok(tasks)
}

fn task_of(alloc: Global, place: usize) -> Result<EchoTask, AllocError>
    ensures { IfOk result (λ task. task ≡ task_given place) }
{
    if place == 0 {
        return Ok(EitherTask::One(EchoServer::new(alloc, ANNOUNCED)?));
    }
    let client = EchoClient::new(alloc, SERVICE, messages(alloc)?)?;
    Ok(EitherTask::Other(client))
}

// What each client sends.
fn messages(alloc: Global) -> Result<Lines, AllocError>
    ensures { IfOk result (λ messages. messages ≡ sent) }
{
    let mut messages = Lines::new(alloc);
    messages.add(b"hello")?;
    messages.add(b"a second message")?;
    messages.add(b"and good bye")?;
    Ok(messages)
}

// How many clients read what they wrote.
fn well_among(tasks: &[Option<EchoTask>]) -> usize
    ensures { result ≡ length (filter is_well_client tasks.now) }
{
    tasks.iter().filter(|task| is_well(task)).count()
}

// Whether a client read what it wrote.
fn is_well(task: &Option<EchoTask>) -> bool
    ensures { result ≡ is_well_client task.now }
{
    matches!(task, Some(EitherTask::Other(client)) if client.is_well())
}
