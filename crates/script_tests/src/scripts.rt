//! A script, from its first request to its last.
use crate::holding::no_names;
use net_base::{Lines, Octets, Reply, Script, Sequence, Step};
use played_task::ScriptTask;
use script_task::{Request, Task};
use std::alloc::{AllocError, Global};
use std::test::*;

fn dials(alloc: Global) -> Result<Step, AllocError> {
    Ok(Step::Dial {
        name: Octets::from_slice(alloc, b"f")?,
        address: Octets::from_slice(alloc, b"il!helix")?,
    })
}

// A script of two steps: a dial, and then a wait for a moment.
fn script(alloc: Global) -> Result<Script, AllocError> {
    let mut steps = Sequence::new(alloc);
    steps.push(dials(alloc)?)?;
    steps.push(Step::Until { moment: 9 })?;
    Ok(Script { host: 2, steps })
}

/// What is asked for.
#[derive(Clone, Copy, PartialEq, Eq)]
enum Asked {
    Lines,
    Moment(u64),
    Nothing,
    Other,
}

fn read_request(request: &Option<Request>) -> Asked {
    match request {
        Some(Request::Cs { .. }) => Asked::Lines,
        Some(Request::Until { moment }) => Asked::Moment(*moment),
        Some(_) => Asked::Other,
        None => Asked::Nothing,
    }
}

// What the next request asks for.
fn asks<T: Task>(alloc: Global, task: &T) -> Result<Asked, AllocError> {
    let fids = no_names(alloc)?;
    let request = task.next(alloc, &fids);
    drop(fids);
    let request = request?;
    let asked = read_request(&request);
    drop(request);
    Ok(asked)
}

// Whether nothing is asked for.
fn is_over<T: Task>(alloc: Global, task: &T) -> Result<bool, AllocError> {
    Ok(task.is_through() && asks(alloc, task)? == Asked::Nothing)
}

fn tell_no_lines<T: Task>(alloc: Global, task: &mut T) -> Result<(), AllocError> {
    let lines = Lines::new(alloc);
    task.told(alloc, Reply::Lines { lines })
}

// Whether the steps are played in turn. The dial is told of no line, and ends with that reply.
fn plays_both<T: Task>(alloc: Global, task: &mut T) -> Result<bool, AllocError> {
    let dials = asks(alloc, task)? == Asked::Lines && asks(alloc, task)? == Asked::Lines;
    tell_no_lines(alloc, task)?;
    let waits = !task.is_through() && asks(alloc, task)? == Asked::Moment(9);
    task.told(alloc, Reply::Ok)?;
    Ok(dials && waits && is_over(alloc, task)?)
}

fn plays(alloc: Global, script: &Script) -> Result<bool, AllocError> {
    let mut task = ScriptTask::new(alloc, script);
    let fresh = task.finished() == 0;
    let both = plays_both(alloc, &mut task);
    let finished = task.finished() == 2;
    drop(task);
    Ok(both? && fresh && finished)
}

#[test]
fn a_script_is_played(rt: HostRuntime) -> Result<(), AllocError> {
    let script = script(rt.alloc())?;
    assert!(rt; plays(rt.alloc(), &script) == Ok(true));
    drop(script);
    Ok(())
}

fn stays_over(alloc: Global) -> Result<bool, AllocError> {
    let mut task = ScriptTask::idle(alloc);
    let told = task.told(alloc, Reply::Ok);
    let over = is_over(alloc, &task);
    drop(task);
    told?;
    over
}

#[test]
fn nothing_is_idle(rt: HostRuntime) {
    assert!(rt; stays_over(rt.alloc()) == Ok(true));
}
