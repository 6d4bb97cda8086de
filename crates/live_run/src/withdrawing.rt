//! A step without events is withdrawn: by its deadline, or by a `cancel`.
ghost use Rattle.std.specs.Prelude.{◌≡◌, ◌<◌, ◌∷◌, List, [], length, true, IfOk, IfSome, OnOk, Some, slice_get};
ghost use Rattle.net_base.specs.declared.world.Script.{Script as AnyScript};
ghost use Rattle.net_base.specs.declared.world.Step.{Step as AnyStep};
ghost use Rattle.net_base.specs.declared.world.World.{World as AnyWorld};
ghost use Rattle.live_answers.specs.Speech.{Speech, speech};
ghost use Rattle.live_run.specs.Hearing.{Supplies};
ghost use Rattle.live_run.specs.LiveRuns.{CanWithdraw, IsRest};
ghost use Rattle.live_run.specs.LiveWorlds.{Begins};
ghost use Rattle.grown_laws.specs.Grown.{grown, grown_scripts, longer};

use crate::beginning::{replace_last, until};
use crate::places::place_number;
use crate::playing::Rest;
use grown_laws::{
    deadlines_are_timed, grown_is_world, nets_are_alike, next_events_stay, waiting_is_timed,
};
use live_answers::Voice;
use live_lines::StepWord;
use net_base::{Script, Sequence, World};
use outside::Sink;
use prefix_law::moments_rise;
use std::alloc::{AllocError, Global};

/// The deadline of the current step of a script has come: `until` with this deadline replaces the step.
///
/// The script must be one of these places.
pub fn replace_late(
    world: World,
    rest: &mut Rest,
    script: usize,
    places: &[bool],
) -> Result<World, AllocError>
    requires { IsRest world rest.old }
    ensures rests { IfOk result (λ w. IsRest w rest.new) }
    ensures grown { IfOk result (Begins world places.now) }
    ensures grows { OnOk result (rest.new.places.grows ≡ rest.old.places.grows) }
    ensures heard { IfOk result (λ w. (s : Speech) → Supplies places.now world rest.old s w rest.new s) }
{
    match rest.places.deadline(script) {
        Some(last) => replace(world, rest, script, last, StepWord::Late, places),
        None => Ok(world),
    }
}

/// A `cancel` withdraws the current step of a script.
///
/// `until` with the present moment replaces the step. At moment 0 the step is removed, and reported.
/// The script must be one of these places.
pub fn withdraw<K: Sink>(
    alloc: Global,
    world: World,
    rest: &mut Rest,
    script: usize,
    places: &[bool],
    voice: &mut Voice<K>,
) -> Result<World, AllocError>
    requires { IsRest world rest.old }
    ensures rests { IfOk result (λ w. IsRest w rest.new) }
    ensures grown { IfOk result (Begins world places.now) }
    ensures grows { OnOk result (rest.new.places.grows ≡ rest.old.places.grows) }
    ensures heard { IfOk result (λ w. Supplies places.now world rest.old (speech K.held voice.old) w rest.new (speech K.held voice.new)) }
{
    let now = rest.moved;
    if now == 0 {
        return remove(alloc, world, rest, script, places, voice);
    }
    replace(world, rest, script, now, StepWord::Cancelled, places)
}

// Replaces the last step of a place by `until` with this moment in ms, for this reason.
//
// The history has no event of the step. The clock did not pass the moment.
fn replace(
    world: World,
    rest: &mut Rest,
    script: usize,
    moment: u64,
    word: StepWord,
    places: &[bool],
) -> Result<World, AllocError>
    requires { IsRest world rest.old }
    ensures rests { IfOk result (λ w. IsRest w rest.new) }
    ensures grown { IfOk result (Begins world places.now) }
    ensures grows { rest.new.places.grows ≡ rest.old.places.grows }
    ensures heard { IfOk result (λ w. (s : Speech) → Supplies places.now world rest.old s w rest.new s) }
{
    grown_is_world();
    next_events_stay();
    nets_are_alike();
    waiting_is_timed();
    deadlines_are_timed();
    moments_rise();
    let Some(last) = withdrawn(rest, script, places) else {
        return Ok(world);
    };
    if last < moment || moment < rest.moved {
        return Ok(world);
    }
    let Some(step) = until(moment) else {
        return Ok(world);
    };
    rest.run.forget(script);
    rest.places.set_deadline(script, None);
    rest.places.replace(script, word);
    replace_last(world, script, step)
}

// Removes the last step of a place, of which the history has no event, and reports it. The clock has not moved.
fn remove<K: Sink>(
    alloc: Global,
    world: World,
    rest: &mut Rest,
    script: usize,
    places: &[bool],
    voice: &mut Voice<K>,
) -> Result<World, AllocError>
    requires { IsRest world rest.old }
    ensures rests { IfOk result (λ w. IsRest w rest.new) }
    ensures grown { IfOk result (Begins world places.now) }
    ensures grows { OnOk result (rest.new.places.grows ≡ rest.old.places.grows) }
    ensures heard { IfOk result (λ w. Supplies places.now world rest.old (speech K.held voice.old) w rest.new (speech K.held voice.new)) }
{
    nets_are_alike();
    moments_rise();
    let Some(_limit) = withdrawn(rest, script, places) else {
        return Ok(world);
    };
    if rest.moved != 0 {
        return Ok(world);
    }
    voice.say_removed(alloc, place_number(script))?;
    rest.run.forget(script);
    rest.places.set_deadline(script, None);
    rest.places.remove(script);
    Ok(drop_last(world, script))
}

// The moment that the clock does not pass before the current step of one of these places has an entry, if the step can be withdrawn.
fn withdrawn(rest: &Rest, script: usize, places: &[bool]) -> Option<u64>
    ensures { IfSome result (CanWithdraw rest.now places.now script) }
{
    if !is_among(places, script) {
        return None;
    }
    if rest.run.callers.len() <= script {
        return None;
    }
    if !rest.places.is_waiting(script) {
        return None;
    }
    rest.places.deadline(script)
}

// Whether a script is one of these places.
fn is_among(places: &[bool], script: usize) -> bool
    ensures { result ≡ true → slice_get places.now script ≡ Some true }
{
    match places.get(script) {
        Some(is_place) => *is_place,
        None => false,
    }
}

// The world without the last step of a script.
fn drop_last(world: World, script: usize) -> World
    ensures { (base : AnyWorld) (last : AnyStep) → world ≡ grown base script (last ∷ [])
        → script < length base.scripts → result ≡ grown base script [] }
{
    let scripts = drop_last_in(world.scripts.into_vec(), script);
    World {
        scripts: Sequence::from_vec(scripts),
        ..world
    }
}

fn drop_last_in(scripts: Vec<Script>, script: usize) -> Vec<Script>
    ensures { (base : List AnyScript) (last : AnyStep) → scripts.items ≡ grown_scripts base script (last ∷ [])
        → script < length base → result.items ≡ grown_scripts base script [] }
{
    let mut scripts = scripts;
    if let Some(found) = scripts.get_mut(script) {
        unset_last(found);
        return scripts;
    }
    scripts
}

// Drops the last step of a script.
fn unset_last(script: &mut Script)
    ensures { (before : AnyScript) (last : AnyStep) → script.old ≡ longer before (last ∷ []) → script.new ≡ longer before [] }
{
    let count = script.steps.len();
    if count == 0 {
        return;
    }
    let _ = script.steps.remove(count - 1);
}
