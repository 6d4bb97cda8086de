//! A step of a place begins: its script gets the step.
ghost use Rattle.std.specs.Prelude.{◌≡◌, ◌<◌, ◌∷◌, List, [], length, true, IfOk, IfSome, OnOk, Some, slice_get};
ghost use Rattle.net_base.specs.declared.world.Script.{Script as AnyScript};
ghost use Rattle.net_base.specs.declared.world.Step.{Step as AnyStep};
ghost use Rattle.net_base.specs.declared.world.Step.TheVariants as a_step;
ghost use Rattle.net_base.specs.StepWords.{is_step};
ghost use Rattle.net_base.specs.declared.world.World.{World as AnyWorld};
ghost use Rattle.live_answers.specs.Speech.{Speech};
ghost use Rattle.live_run.specs.Heard.{steps_in};
ghost use Rattle.live_run.specs.Hearing.{Supplies};
ghost use Rattle.live_run.specs.LiveRuns.{IsFreeScript, IsRest, IsResting};
ghost use Rattle.live_run.specs.LiveWorlds.{Begins, Narrows};
ghost use Rattle.grown_laws.specs.Grown.{grown, grown_scripts, longer};

use crate::playing::Rest;
use grown_laws::{finished_steps_stay, grown_is_world, nets_are_alike, next_events_stay};
use live_answers::Current;
use live_lines::StepWord;
use net_base::{Script, Sequence, Step, World};
use plain_runner::resting_runs_grow;
use std::alloc::{AllocError, Global};

/// The world with one more step at the end of a script.
pub fn grow(world: World, script: usize, step: Step) -> Result<World, AllocError>
    ensures { IfOk result (λ w. w ≡ grown world script (step ∷ [])) }
{
    let scripts = grow_script(world.scripts.into_vec(), script, step)?;
    Ok(World {
        scripts: Sequence::from_vec(scripts),
        ..world
    })
}

fn grow_script(scripts: Vec<Script>, script: usize, step: Step) -> Result<Vec<Script>, AllocError>
    ensures { IfOk result (λ list. list.items ≡ grown_scripts scripts.items script (step ∷ [])) }
{
    let mut scripts = scripts;
    if let Some(found) = scripts.get_mut(script) {
        found.steps.push(step)?;
        return Ok(scripts);
    }
    Ok(scripts)
}

/// Begins the next step of a place, whose script has no unfinished step.
pub fn begin(
    alloc: Global,
    world: World,
    rest: &mut Rest,
    script: usize,
) -> Result<World, AllocError>
    requires rest { IsRest world rest.old }
    requires free { IsFreeScript world rest.old.run.history.entries script }
    ensures rests { IfOk result (λ w. IsRest w rest.new) }
    ensures grown { IfOk result (Begins world rest.old.places.grows.items) }
    ensures narrows { OnOk result (Narrows rest.old.places.grows.items rest.new.places.grows.items) }
    ensures heard { IfOk result (λ w. (s : Speech) → Supplies rest.old.places.grows.items world rest.old s w rest.new s) }
{
    grown_is_world();
    next_events_stay();
    nets_are_alike();
    finished_steps_stay();
    resting_runs_grow();
    if !rest.places.may_grow(script) {
        return Ok(world);
    }
    if !rest.places.can_begin(script) {
        return Ok(world);
    }
    let Some((step, by)) = rest.places.take_next(script) else {
        return Ok(world);
    };
    let start = start_of(alloc, steps_of(&world, script), step, by, rest.run.moment);
    rest.places.begin(script, start.current);
    rest.places.set_deadline(script, start.limit);
    grow(world, script, start.step)
}

// A step that begins, and the moment that the clock does not pass before its first entry.
#[derive(Drop)]
struct Start {
    step: Step,
    current: Current,
    limit: Option<u64>,
}

// A step that begins at this moment, as the step of this number of its script. `until` replaces it if its deadline is not later.
fn start_of(alloc: Global, number: usize, step: Step, by: Option<u64>, now: u64) -> Start
    requires { is_step step ≡ true }
    ensures step { is_step result.step ≡ true }
    ensures number { result.current.number ≡ number }
    ensures stamps { result.current.stamps.items ≡ [] }
{
    if let Some(late) = late_step(by, now) {
        let mut current = Current::new(alloc, number, &late);
        current.replaced = Some(StepWord::Late);
        return Start {
            step: late,
            current,
            limit: None,
        };
    }
    let mut current = Current::new(alloc, number, &step);
    current.deadline = deadline_of(by, &step);
    let limit = Some(limit_of(by, &step));
    Start {
        step,
        current,
        limit,
    }
}

// The step `until` with a deadline that is not later than now, if a step has one.
fn late_step(by: Option<u64>, now: u64) -> Option<Step>
    ensures { IfSome result (λ step. is_step step ≡ true) }
{
    let Some(last) = by else {
        return None;
    };
    if last <= now {
        return until(last);
    }
    None
}

/// The step `until` with this moment in ms, if a line can have it.
pub fn until(moment: u64) -> Option<Step>
    ensures { IfSome result (λ step. (step ≡ a_step.Until moment) × (is_step step ≡ true)) }
{
    if moment == 0 {
        return None;
    }
    if moment <= 1_000_000_000 {
        return Some(Step::Until { moment });
    }
    None
}

// The deadline of a step that begins. It does not matter if the step waits for an earlier moment.
fn deadline_of(by: Option<u64>, step: &Step) -> Option<u64> {
    match (by, step) {
        (Some(last), Step::Until { moment }) if *moment < last => None,
        (by, _) => by,
    }
}

// The moment in ms that the clock does not pass before the first entry of a step: its deadline, or an earlier moment that it waits for.
fn limit_of(by: Option<u64>, step: &Step) -> u64 {
    let last = by.unwrap_or(u64::MAX);
    match step {
        Step::Until { moment } if *moment < last => *moment,
        _ => last,
    }
}

/// The world with another step in place of the last one of a script.
pub fn replace_last(world: World, script: usize, step: Step) -> Result<World, AllocError>
    ensures { IfOk result (λ w. (base : AnyWorld) (last : AnyStep) → world ≡ grown base script (last ∷ [])
        → script < length base.scripts → w ≡ grown base script (step ∷ [])) }
{
    let scripts = replace_last_in(world.scripts.into_vec(), script, step)?;
    Ok(World {
        scripts: Sequence::from_vec(scripts),
        ..world
    })
}

fn replace_last_in(
    scripts: Vec<Script>,
    script: usize,
    step: Step,
) -> Result<Vec<Script>, AllocError>
    ensures { IfOk result (λ list. (base : List AnyScript) (last : AnyStep)
        → scripts.items ≡ grown_scripts base script (last ∷ []) → script < length base
        → list.items ≡ grown_scripts base script (step ∷ [])) }
{
    let mut scripts = scripts;
    if let Some(found) = scripts.get_mut(script) {
        set_last(found, step)?;
        return Ok(scripts);
    }
    Ok(scripts)
}

// Puts a step in place of the last one of a script.
fn set_last(script: &mut Script, step: Step) -> Result<(), AllocError>
    ensures { OnOk result ((before : AnyScript) (last : AnyStep) → script.old ≡ longer before (last ∷ [])
        → script.new ≡ longer before (step ∷ [])) }
{
    let count = script.steps.len();
    if count == 0 {
        return Ok(());
    }
    let _ = script.steps.remove(count - 1);
    script.steps.push(step)
}

/// Adds the steps that have not begun at the end of a run to their scripts.
#[tactic(auto, using(crate::proofs::Rests::begins_on))]
pub fn begin_all(first: World, rest: &mut Rest) -> Result<World, AllocError>
    requires { IsResting first rest.old }
    ensures rests { IfOk result (λ w. IsResting w rest.new) }
    ensures grown { IfOk result (Begins first rest.old.places.grows.items) }
    ensures history { rest.new.history ≡ rest.old.history }
{
    let mut world = first;
    for script in 0..rest.places.seats.len() {
        for _ in 0..rest.places.count(script) {
            world = append(world, rest, script)?;
        }
    }
    Ok(world)
}

// Adds the next step of a place to its script.
fn append(world: World, rest: &mut Rest, script: usize) -> Result<World, AllocError>
    requires { IsResting world rest.old }
    ensures rests { IfOk result (λ w. IsResting w rest.new) }
    ensures grown { IfOk result (Begins world rest.old.places.grows.items) }
    ensures grows { rest.new.places.grows ≡ rest.old.places.grows }
    ensures history { rest.new.history ≡ rest.old.history }
{
    grown_is_world();
    next_events_stay();
    nets_are_alike();
    finished_steps_stay();
    resting_runs_grow();
    if !rest.places.may_grow(script) {
        return Ok(world);
    }
    let Some((step, _)) = rest.places.take_next(script) else {
        return Ok(world);
    };
    grow(world, script, step)
}

// How many steps a script has.
fn steps_of(world: &World, script: usize) -> usize
    ensures { result ≡ steps_in world.now script }
{
    match world.scripts.as_slice().get(script) {
        Some(script) => script.steps.len(),
        None => 0,
    }
}
