//! The task of a whole script.
ghost use Rattle.std.specs.Prelude.{◌≡◌, ℕ, List, [], None, IfOk, OnOk, OnErr, option_map, slice_get, true, false};
ghost use Rattle.net_base.specs.declared.reply.Reply.{Reply};
ghost use Rattle.net_base.specs.declared.world.Script.{Script};
ghost use Rattle.net_base.specs.Next.{finished_by};
ghost use Rattle.net_base.specs.Steps.{Names as AnyNames, Ends, no_names};
ghost use Rattle.net_base.specs.Versions.{Tuples};
ghost use Rattle.net_base.specs.declared.left.Left.{Left as AnyLeft};
ghost use Rattle.played_task.specs.StepTasks.{begun};
ghost use Rattle.played_task.specs.ScriptTasks as spec;

use crate::whole::WholeTask;
use crate::{StepTask, ends_by, first_request};
use net_base::{Left, Reply, Script, Step};
use script_task::{Names, Request, Task};
use std::alloc::{AllocError, Global};
use std::marker::Model;

/// A whole script that is being played. Its steps are lent.
#[derive(Drop)]
pub struct ScriptTask<'a> {
    steps: &'a [Step],
    finished: usize,
    // the task of the step behind those, where it was told a reply
    task: Option<StepTask>,
    // what those leave for later ones
    left: Left,
}

impl<'a> Model for ScriptTask<'a> {
    ghost use Rattle.std.specs.Prelude.{drop};
    ghost use Rattle.played_task.specs.ScriptTasks.{KeptStep, Scripting, progress};

    ghost Value = { Scripting };

    ghost view = { λ s. progress s.finished s.left s.task (drop s.finished s.steps.now) };

    ghost invariant = { λ s. KeptStep s.finished s.task s.steps.now };
}

impl<'a> ScriptTask<'a> {
    /// The task of a script of which nothing is recorded. It takes no memory.
    #[tactic(auto, using(crate::proofs::Played::starts))]
    pub fn new(alloc: Global, script: &'a Script) -> ScriptTask<'a>
        ensures { (zone : Tuples) → spec.Plays zone script.now [] (no_names zone) result }
    {
        ScriptTask {
            steps: script.steps.as_slice(),
            finished: 0,
            task: None,
            left: Left::new(alloc),
        }
    }

    /// The task of a script without steps.
    pub fn idle(alloc: Global) -> ScriptTask<'a>
        ensures { (h : ℕ) (names : AnyNames) → spec.StandsFor h names result (Ends names) }
    {
        ScriptTask {
            steps: &[],
            finished: 0,
            task: None,
            left: Left::new(alloc),
        }
    }

    /// How many steps are finished.
    pub fn finished(&self) -> usize
        ensures { (zone : Tuples) (s : Script) (rs : List Reply) (names : AnyNames)
            → spec.Plays zone s rs names self.now → result ≡ finished_by zone rs s }
    {
        self.finished
    }
}

impl Task for ScriptTask<'_> {
    ghost use Rattle.played_task.specs.ScriptLaws as laws;

    ghost asks = { spec.asks };

    ghost after = { spec.after };

    ghost Stands = { spec.StandsFor };

    ghost asks_so = { laws.asks_so };

    ghost moves_so = { laws.moves_so };

    fn next(&self, alloc: Global, fids: &Names) -> Result<Option<Request>, AllocError> {
        match &self.task {
            Some(task) => task.next(alloc, fids),
            None => first_asked(alloc, fids, self.steps, self.finished, &self.left),
        }
    }

    #[tactic(auto, using(crate::proofs::Played::through_right))]
    fn is_through(&self) -> bool {
        self.steps.len() <= self.finished
    }

    #[tactic(auto, using(crate::proofs::Played::kept_same, crate::proofs::Played::still_same, crate::proofs::Played::kept_none))]
    fn told(&mut self, alloc: Global, reply: Reply) -> Result<(), AllocError> {
        let through = take_reply(
            alloc,
            self.steps,
            self.finished,
            &mut self.task,
            &mut self.left,
            reply,
        )?;
        if through {
            self.finished += 1;
            forget(&mut self.task);
        }
        Ok(())
    }
}

impl WholeTask for ScriptTask<'_> {
    ghost use Rattle.played_task.specs.ScriptLaws as laws;

    ghost asks = { spec.asks };

    ghost after = { spec.after };

    ghost Goes = { spec.GoesScripting };

    ghost Plays = { spec.Plays };

    ghost asks_there = { laws.asks_there };

    ghost goes_there = { laws.goes_there };

    ghost plays_there = { laws.plays_there };

    ghost plays_on = { laws.plays_on };

    fn next(&self, alloc: Global, fids: &Names) -> Result<Option<Request>, AllocError> {
        Task::next(self, alloc, fids)
    }

    fn told(&mut self, alloc: Global, reply: Reply) -> Result<(), AllocError> {
        Task::told(self, alloc, reply)
    }

    fn finished(&self) -> usize {
        ScriptTask::finished(self)
    }
}

// What the step behind so many asks first, if one is left.
fn first_asked(
    alloc: Global,
    fids: &Names,
    steps: &[Step],
    finished: usize,
    left: &Left,
) -> Result<Option<Request>, AllocError>
    ensures { IfOk result (λ q. q ≡ spec.first_asked left.now (slice_get steps.now finished) fids.now.names) }
{
    let Some(step) = steps.get(finished) else {
        return Ok(None);
    };
    first_request(alloc, fids, step, left)
}

// Takes a reply, and tells whether the step is through then. One that is through at once gets no task.
#[tactic(auto, using(crate::proofs::Played::begun_again, crate::proofs::Played::begun_told, crate::proofs::Played::tells_told, crate::proofs::Played::left_told))]
fn take_reply(
    alloc: Global,
    steps: &[Step],
    finished: usize,
    task: &mut Option<StepTask>,
    left: &mut Left,
    reply: Reply,
) -> Result<bool, AllocError>
    ensures through { IfOk result (λ through. (names : AnyNames)
        → through ≡ spec.is_played (spec.told_by_task left.old task.old (slice_get steps.now finished) reply) names) }
    ensures goes_on { IfOk result (λ through. through ≡ false
        → task.new ≡ spec.told_by_task left.old task.old (slice_get steps.now finished) reply) }
    ensures left { OnOk result (left.new ≡ spec.left_by
        (spec.told_by_task left.old task.old (slice_get steps.now finished) reply) left.old) }
    ensures err { OnErr result (spec.begun_by left.new task.new (slice_get steps.now finished)
        ≡ spec.begun_by left.old task.old (slice_get steps.now finished)) }
    ensures kept { OnErr result (left.new ≡ left.old) }
{
    if ends_at_once(steps, finished, task, &reply) {
        return Ok(true);
    }
    begin(alloc, steps, finished, task, left)?;
    hear(alloc, task, left, reply)?;
    Ok(is_played(task))
}

// Whether no step has begun, and the one behind so many is seen to be through after this reply.
fn ends_at_once(steps: &[Step], finished: usize, task: &Option<StepTask>, reply: &Reply) -> bool
    ensures through { result ≡ true → (left : AnyLeft) (names : AnyNames)
        → spec.is_played (spec.told_by_task left task.now (slice_get steps.now finished) reply.now) names ≡ true }
    ensures keeps { result ≡ true → (left : AnyLeft)
        → spec.left_by (spec.told_by_task left task.now (slice_get steps.now finished) reply.now) left ≡ left }
{
    match task {
        Some(_) => false,
        None => ends_first(steps, finished, reply),
    }
}

// Whether the step behind so many is seen to be through after this reply.
#[tactic(auto, using(crate::proofs::Played::ends_step, crate::proofs::Played::ends_keep))]
fn ends_first(steps: &[Step], finished: usize, reply: &Reply) -> bool
    ensures through { result ≡ true → (left : AnyLeft) (names : AnyNames)
        → spec.is_played (spec.told_by_task left None (slice_get steps.now finished) reply.now) names ≡ true }
    ensures keeps { result ≡ true → (left : AnyLeft)
        → spec.left_by (spec.told_by_task left None (slice_get steps.now finished) reply.now) left ≡ left }
{
    let Some(step) = steps.get(finished) else {
        return false;
    };
    ends_by(step, reply)
}

// Takes a reply, where a step has begun.
fn hear(
    alloc: Global,
    task: &mut Option<StepTask>,
    left: &mut Left,
    reply: Reply,
) -> Result<(), AllocError>
    ensures ok { OnOk result (task.new ≡ spec.heard_in_step task.old reply) }
    ensures left { OnOk result (left.new ≡ spec.left_by (spec.heard_in_step task.old reply) left.old) }
    ensures err { OnErr result ((task.new ≡ task.old) × (left.new ≡ left.old)) }
{
    match task {
        Some(task) => task.hear(alloc, reply, left),
        None => Ok(()),
    }
}

// Whether a step has begun that is through.
fn is_played(task: &Option<StepTask>) -> bool
    ensures { (names : AnyNames) → result ≡ spec.is_played task.now names }
{
    match task {
        Some(task) => task.is_through(),
        None => false,
    }
}

// Forgets a step.
fn forget(task: &mut Option<StepTask>)
    ensures { task.new ≡ None }
{
    *task = None;
}

// The step behind so many begins, where none has begun and one is left.
fn begin(
    alloc: Global,
    steps: &[Step],
    finished: usize,
    task: &mut Option<StepTask>,
    left: &Left,
) -> Result<(), AllocError>
    ensures ok { OnOk result (task.new ≡ spec.begun_by left.now task.old (slice_get steps.now finished)) }
    ensures err { OnErr result (task.new ≡ task.old) }
{
    if task.is_none() {
        *task = first(alloc, steps, finished, left)?;
    }
    Ok(())
}

// The task of the step behind so many, if one is left.
fn first(
    alloc: Global,
    steps: &[Step],
    finished: usize,
    left: &Left,
) -> Result<Option<StepTask>, AllocError>
    ensures { IfOk result (λ task. task ≡ option_map (begun left.now) (slice_get steps.now finished)) }
{
    match steps.get(finished) {
        Some(step) => Ok(Some(StepTask::new(alloc, step, left)?)),
        None => Ok(None),
    }
}
