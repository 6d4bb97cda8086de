//! A run of a world between two lines of input.
ghost use Rattle.std.specs.Prelude.{◌≡◌, ◌&&◌, not, ◌<◌, ◌≤◌, ◌+◌, ◌==◌, ◌++◌, ◌∷◌, ℕ, [], length, true, false, Some, slice_get, IfSome, OnOk};
ghost use Rattle.net_base.specs.declared.world.Script.{Script as AnyScript};
ghost use Rattle.net_base.specs.declared.world.World.{World as AnyWorld};
ghost use Rattle.net_base.specs.Next.{is_unfinished, next_recorded};
ghost use Rattle.plain_runner.specs.Tracks.{Tracks};
ghost use Rattle.live_run.specs.Deadlines.{AllowsMove, AllowsOne};
ghost use Rattle.live_answers.specs.Speech.{speech};
ghost use Rattle.live_run.specs.Hearing.{Hears, HearsEntry, ReportsStep};
ghost use Rattle.live_run.specs.LiveRuns.{AreHeld, HasLeft, IsRunning};
ghost use Rattle.net_base.specs.Calm.{awaited_moment, owes};
ghost use Rattle.net_base.specs.Net.{after};
ghost use Rattle.plain_runner.specs.Turns.{asks_of};

use crate::currents::{note, take};
use crate::places::{Places, place_number};
use grown_laws::{next_events_stay, unfinished_scripts_ask};
use history_laws::calm_is_that_nobody_could;
use live_answers::{Current, Voice};
use net_base::{Entry, Event, History, World};
use order_search::{can_go, take_turn};
use outside::Sink;
use plain_runner::{Runner, Turn};
use std::alloc::{AllocError, Global};
use turn_orders::callers_that_come;

/// A run with its entries and places.
#[derive(Drop)]
pub struct Round<'a> {
    pub runner: Runner<'a>,
    pub history: History,
    pub places: Places,
    /// The moment of the last clock move in ms, 0 before the first.
    pub moved: u64,
}

/// Records an entry of a caller, if it can record one before the clock moves. Returns whether it did.
pub fn take_ready_turn<K: Sink>(
    alloc: Global,
    world: &World,
    round: &mut Round<'_>,
    caller: usize,
    voice: &mut Voice<K>,
) -> Result<bool, AllocError>
    requires running { IsRunning world.now round.old }
    requires caller { caller < length round.old.runner.callers.items }
    ensures running { OnOk result (IsRunning world.now round.new) }
    ensures grows { round.new.places.grows ≡ round.old.places.grows }
    ensures heard { OnOk result (Hears world.now round.old round.new (speech K.held voice.old) (speech K.held voice.new)) }
{
    calm_is_that_nobody_could();
    callers_that_come();
    next_events_stay();
    if moves_next(&round.runner, caller) {
        return Ok(false);
    }
    if !can_go(&round.runner, world, caller) {
        return Ok(false);
    }
    let entry = take_turn(&mut round.runner, world, caller)?;
    round.places.set_deadline(caller, None);
    hear(
        alloc,
        &round.runner,
        &mut round.history,
        &mut round.places.currents,
        caller,
        entry,
        voice,
    )?;
    Ok(true)
}

/// What became of a move of the clock.
#[derive(Clone, Copy, Debug, PartialEq, Eq)]
pub enum Moved {
    /// It moved.
    Yes,
    /// It cannot move.
    No,
    /// The deadline of the last step of this script comes first.
    Late(usize),
}

/// Moves the clock, if it can move, no place waits for a line, and no deadline comes first.
pub fn take_move<K: Sink>(
    alloc: Global,
    world: &World,
    round: &mut Round<'_>,
    voice: &mut Voice<K>,
) -> Result<Moved, AllocError>
    requires { IsRunning world.now round.old }
    ensures running { OnOk result (IsRunning world.now round.new) }
    ensures grows { round.new.places.grows ≡ round.old.places.grows }
    ensures heard { OnOk result (Hears world.now round.old round.new (speech K.held voice.old) (speech K.held voice.new)) }
{
    next_events_stay();
    let Some(clock) = clock_of(&round.runner) else {
        return Ok(Moved::No);
    };
    if !places_hold(&round.runner, world, &round.places) {
        return Ok(Moved::No);
    }
    if !can_go(&round.runner, world, clock) {
        return Ok(Moved::No);
    }
    let target = round.runner.target(world)?;
    if let Some(script) = round.places.first_due(target) {
        return Ok(Moved::Late(script));
    }
    // The clock never passes a moment that a script waits for, so this does not happen.
    if !all_stay(&round.runner, round.places.deadlines.as_slice(), target) {
        return Ok(Moved::No);
    }
    let entry = take_turn(&mut round.runner, world, clock)?;
    round.moved = later(round.moved, target);
    hear(
        alloc,
        &round.runner,
        &mut round.history,
        &mut round.places.currents,
        clock,
        entry,
        voice,
    )?;
    Ok(Moved::Yes)
}

// Whether each script that can grow has a step that is not finished.
fn places_hold(runner: &Runner<'_>, world: &World, places: &Places) -> bool
    requires { Tracks world.now runner.now }
    ensures { result ≡ true → AreHeld world.now runner.now.history.entries places.now.grows.items }
{
    is_held(runner, world, places.grows.as_slice())
}

// The later of two moments.
fn later(first: u64, second: u64) -> u64
    ensures first { first ≤ result }
    ensures second { second ≤ result }
{
    if first < second { second } else { first }
}

// Whether a move to this moment passes no deadline.
fn all_stay(runner: &Runner<'_>, deadlines: &[Option<u64>], target: u64) -> bool
    ensures { result ≡ true → (w : AnyWorld) → Tracks w runner.now
        → AllowsMove w runner.now.history.entries deadlines.now runner.now.moment target }
{
    for script in 0..deadlines.len() {
        if !stays_at(runner, script, deadlines[script], target) {
            return false;
        }
    }
    true
}

// Whether a move to this moment does not pass the deadline of a script, if it has one.
fn stays_at(runner: &Runner<'_>, script: usize, deadline: Option<u64>, target: u64) -> bool
    ensures { result ≡ true → (w : AnyWorld) → Tracks w runner.now → (last : ℕ) → deadline ≡ Some last
        → AllowsOne w runner.now.history.entries script last runner.now.moment target }
{
    let Some(last) = deadline else {
        return true;
    };
    if last <= runner.moment {
        return false;
    }
    if last < target {
        return false;
    }
    waits_on(runner, script, last)
}

// Whether a script waits for no moment before this one.
fn waits_on(runner: &Runner<'_>, script: usize, last: u64) -> bool
    ensures { result ≡ true → (w : AnyWorld) → Tracks w runner.now → (n : ℕ)
        → awaited_moment (next_recorded w runner.now.history.entries script) ≡ Some n → last ≤ n }
{
    match runner.callers.get(script) {
        Some(caller) => !waits_before(&caller.next, last),
        None => false,
    }
}

// Whether a script waits for a moment before this one.
fn waits_before(turn: &Option<Turn>, last: u64) -> bool
    ensures { result ≡ false → (n : ℕ) → awaited_moment (asks_of turn.now) ≡ Some n → last ≤ n }
{
    let Some(turn) = turn else {
        return false;
    };
    match turn.work.event {
        Event::Until { moment } => moment < last,
        _ => false,
    }
}

// The last caller, which is the clock.
fn clock_of(runner: &Runner<'_>) -> Option<usize>
    ensures { IfSome result (λ clock. clock + 1 ≡ length runner.now.callers.items) }
{
    let count = runner.callers.len();
    if count == 0 {
        return None;
    }
    Some(count - 1)
}

/// Whether the next entry of a caller is a move of the clock.
pub fn moves_next(runner: &Runner<'_>, caller: usize) -> bool
    requires { caller < length runner.now.callers.items }
    ensures { (w : AnyWorld) → Tracks w runner.now → result
        ≡ ((caller + 1 == length runner.now.callers.items) && not (owes (after w runner.now.history.entries) caller)) }
{
    if is_clock(runner, caller) {
        return !runner.owes(caller);
    }
    false
}

// Whether a caller is the last one, which is the clock.
fn is_clock(runner: &Runner<'_>, caller: usize) -> bool
    requires { caller < length runner.now.callers.items }
    ensures { result ≡ (caller + 1 == length runner.now.callers.items) }
{
    caller + 1 == runner.callers.len()
}

// Whether each script that can grow has a step that is not finished.
fn is_held(runner: &Runner<'_>, world: &World, grows: &[bool]) -> bool
    requires { Tracks world.now runner.now }
    ensures { result ≡ true → AreHeld world.now runner.now.history.entries grows.now }
{
    unfinished_scripts_ask();
    for script in 0..grows.len() {
        if grows[script] && !has_left(runner, world, script) {
            return false;
        }
    }
    true
}

fn has_left(runner: &Runner<'_>, world: &World, script: usize) -> bool
    requires { Tracks world.now runner.now }
    ensures { result ≡ true → HasLeft world.now runner.now.history.entries script }
{
    script < world.scripts.len() && runner.has_left(script)
}

// Keeps an entry, and reports a step that is complete.
fn hear<K: Sink>(
    alloc: Global,
    runner: &Runner<'_>,
    history: &mut History,
    currents: &mut Vec<Option<Current>>,
    caller: usize,
    entry: Entry,
    voice: &mut Voice<K>,
) -> Result<(), AllocError>
    requires { caller < length runner.now.callers.items }
    ensures history { OnOk result (history.new ≡ history.old ++ entry ∷ []) }
    ensures heard { OnOk result (HearsEntry runner.now caller entry history.old history.new currents.old.items currents.new.items
        (speech K.held voice.old) (speech K.held voice.new)) }
{
    note(currents, caller, history.len(), &entry)?;
    history.push(entry)?;
    report(alloc, runner, history, currents, caller, voice)
}

// Reports the current step of a caller, if it is complete.
fn report<K: Sink>(
    alloc: Global,
    runner: &Runner<'_>,
    history: &History,
    currents: &mut Vec<Option<Current>>,
    caller: usize,
    voice: &mut Voice<K>,
) -> Result<(), AllocError>
    requires { caller < length runner.now.callers.items }
    ensures { OnOk result (ReportsStep runner.now history.now currents.old.items currents.new.items
        (speech K.held voice.old) (speech K.held voice.new)) }
{
    unfinished_scripts_ask();
    if !is_through(runner, caller) {
        return Ok(());
    }
    match take(currents, caller) {
        Some(step) => voice.say_complete(
            alloc,
            place_number(caller),
            runner.moment,
            &step,
            history,
        ),
        None => Ok(()),
    }
}

// Whether a script has no unfinished step and no follow-up event.
fn is_through(runner: &Runner<'_>, caller: usize) -> bool
    requires { caller < length runner.now.callers.items }
    ensures { result ≡ true → (w : AnyWorld) (s : AnyScript) → Tracks w runner.now → slice_get w.scripts caller ≡ Some s
        → is_unfinished w runner.now.history.entries caller s ≡ false }
{
    if runner.owes(caller) {
        return false;
    }
    !runner.has_left(caller)
}
