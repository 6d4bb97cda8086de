//! Plays rounds until a place needs something, or the run ends.
ghost use Rattle.std.specs.Prelude.{◌≡◌, ◌<◌, length, true, IfOk, IfSome, OnOk};
ghost use Rattle.net_base.specs.Net.{moment as spec_moment};
ghost use Rattle.live_answers.specs.Speech.{speech};
ghost use Rattle.live_run.specs.Hearing.{Comes, Pauses, PausesIf, ReportsOne, ReportsRest};
ghost use Rattle.live_run.specs.LiveRuns.{IsFree, IsFreeScript, IsRest, IsRunning, IsStatus};
ghost use Rattle.live_run.specs.LiveWorlds.{Narrows};
ghost use Rattle.plain_runner.specs.Resting.{Rests};
ghost use Rattle.plain_runner.specs.Tracks.{Tracks};

use crate::places::{Places, place_number};
use crate::round::{Moved, Round, take_move, take_ready_turn};
use crate::turns::first_ready;
use grown_laws::unfinished_scripts_ask;
use live_answers::Voice;
use net_base::{History, RunEnd, World};
use order_search::Ranks;
use outside::Sink;
use plain_runner::{Resting, Runner};
use std::alloc::{AllocError, Global};

/// A run at rest: it borrows no world.
#[derive(Drop)]
pub struct Rest {
    pub run: Resting,
    pub history: History,
    pub places: Places,
    /// The moment of the last clock move in ms, 0 before the first.
    pub moved: u64,
}

/// Where a round continues: at this caller, after a caller before it recorded an entry, or none did.
#[derive(Clone, Copy)]
pub struct At {
    pub caller: usize,
    pub recorded: bool,
}

/// The beginning of a round.
pub const ROUND: At = At {
    caller: 0,
    recorded: false,
};

/// Why playing pauses.
#[derive(Drop)]
pub enum Pause {
    /// It is the turn of a place whose next step begins.
    Begins(At),
    /// A place waits for a line.
    Reads,
    /// The deadline of the current step of this script comes before the clock moves.
    Late(usize),
    /// The run has ended.
    Ends,
}

/// The end of a run.
#[derive(Clone, Copy)]
pub struct LiveEnd {
    pub end: RunEnd,
    /// How many steps of all scripts are answered.
    pub answered: u128,
    /// When, in ms.
    pub moment: u64,
}

/// The order in which callers get their turns.
#[derive(Drop)]
pub enum Order {
    /// In rounds, by their numbers.
    Rounds,
    /// By ranks that are drawn from a seed.
    Drawn(Ranks),
}

/// Plays on from a place in a round.
pub fn play<K: Sink>(
    alloc: Global,
    world: &World,
    rest: Rest,
    at: At,
    order: &mut Order,
    voice: &mut Voice<K>,
) -> Result<(Rest, Pause), AllocError>
    requires { IsRest world.now rest }
    ensures rests { IfOk result (λ r. IsRest world.now r.0) }
    ensures narrows { IfOk result (λ r. Narrows rest.places.grows.items r.0.places.grows.items) }
    ensures free { IfOk result (λ r. IsFree world.now r.0.run.history.entries r.1) }
    ensures heard { IfOk result (λ r. Comes world.now rest r.0 (speech K.held voice.old) (speech K.held voice.new) r.1) }
{
    let Rest {
        run,
        history,
        places,
        moved,
    } = rest;
    let runner = run.resume(world)?;
    let mut round = Round {
        runner,
        history,
        places,
        moved,
    };
    let pause = play_turns(alloc, world, &mut round, at, order, voice)?;
    let Round {
        runner,
        history,
        places,
        moved,
    } = round;
    let run = runner.rest()?;
    let rest = Rest {
        run,
        history,
        places,
        moved,
    };
    Ok((rest, pause))
}

// Plays turns in this order.
fn play_turns<K: Sink>(
    alloc: Global,
    world: &World,
    round: &mut Round<'_>,
    from: At,
    order: &mut Order,
    voice: &mut Voice<K>,
) -> Result<Pause, AllocError>
    requires { IsRunning world.now round.old }
    ensures running { OnOk result (IsRunning world.now round.new) }
    ensures narrows { Narrows round.old.places.grows.items round.new.places.grows.items }
    ensures free { IfOk result (IsFree world.now round.new.runner.history.entries) }
    ensures heard { IfOk result (Pauses world.now round.old round.new (speech K.held voice.old) (speech K.held voice.new)) }
{
    match order {
        Order::Rounds => play_rounds(alloc, world, round, from, voice),
        Order::Drawn(ranks) => play_drawn(alloc, world, round, ranks, voice),
    }
}

// Plays turns in a drawn order. The steps of all places begin before a turn is drawn.
fn play_drawn<K: Sink>(
    alloc: Global,
    world: &World,
    round: &mut Round<'_>,
    ranks: &mut Ranks,
    voice: &mut Voice<K>,
) -> Result<Pause, AllocError>
    requires { IsRunning world.now round.old }
    ensures running { OnOk result (IsRunning world.now round.new) }
    ensures narrows { Narrows round.old.places.grows.items round.new.places.grows.items }
    ensures free { IfOk result (IsFree world.now round.new.runner.history.entries) }
    ensures heard { IfOk result (Pauses world.now round.old round.new (speech K.held voice.old) (speech K.held voice.new)) }
{
    for _ in 0..u64::MAX {
        if let Some(caller) = first_to_begin(world, round) {
            return Ok(Pause::Begins(At {
                caller,
                recorded: false,
            }));
        }
        if let Some(caller) = first_ready(&round.runner, world, ranks) {
            take_ready_turn(alloc, world, round, caller, voice)?;
            continue;
        }
        if let Some(pause) = end_round(alloc, world, round, voice)? {
            return Ok(pause);
        }
    }
    Err(AllocError)
}

// The first place whose next step can begin.
fn first_to_begin(world: &World, round: &Round<'_>) -> Option<usize>
    requires { IsRunning world.now round.now }
    ensures { IfSome result (IsFreeScript world.now round.now.runner.history.entries) }
{
    for script in 0..round.places.seats.len() {
        if begins(world, round, script) {
            return Some(script);
        }
    }
    None
}

// Whether the next step of a place can begin.
fn begins(world: &World, round: &Round<'_>, script: usize) -> bool
    requires { IsRunning world.now round.now }
    ensures { result ≡ true → IsFreeScript world.now round.now.runner.history.entries script }
{
    round.places.can_begin(script) && is_free(world, &round.runner, script)
}

// Plays turns in rounds.
fn play_rounds<K: Sink>(
    alloc: Global,
    world: &World,
    round: &mut Round<'_>,
    from: At,
    voice: &mut Voice<K>,
) -> Result<Pause, AllocError>
    requires { IsRunning world.now round.old }
    ensures running { OnOk result (IsRunning world.now round.new) }
    ensures narrows { Narrows round.old.places.grows.items round.new.places.grows.items }
    ensures free { IfOk result (IsFree world.now round.new.runner.history.entries) }
    ensures heard { IfOk result (Pauses world.now round.old round.new (speech K.held voice.old) (speech K.held voice.new)) }
{
    let mut at = from;
    for _ in 0..u64::MAX {
        if at.caller < round.runner.callers.len() {
            if begins(world, round, at.caller) {
                return Ok(Pause::Begins(at));
            }
            let recorded = take_ready_turn(alloc, world, round, at.caller, voice)?;
            at = At {
                caller: at.caller + 1,
                recorded: at.recorded || recorded,
            };
            continue;
        }
        if at.recorded {
            at = ROUND;
            continue;
        }
        if let Some(pause) = end_round(alloc, world, round, voice)? {
            return Ok(pause);
        }
        at = ROUND;
    }
    Err(AllocError)
}

// Moves the clock after a round without an entry, if it can. Returns why it cannot.
fn end_round<K: Sink>(
    alloc: Global,
    world: &World,
    round: &mut Round<'_>,
    voice: &mut Voice<K>,
) -> Result<Option<Pause>, AllocError>
    requires { IsRunning world.now round.old }
    ensures running { OnOk result (IsRunning world.now round.new) }
    ensures narrows { Narrows round.old.places.grows.items round.new.places.grows.items }
    ensures free { IfOk result (λ pause. IfSome pause (IsFree world.now round.new.runner.history.entries)) }
    ensures heard { IfOk result (PausesIf world.now round.old round.new (speech K.held voice.old) (speech K.held voice.new)) }
{
    end_unheard(world, round, voice.has_failed());
    if round.places.is_some_idle() {
        return Ok(Some(Pause::Reads));
    }
    match take_move(alloc, world, round, voice)? {
        Moved::Yes => Ok(None),
        Moved::Late(script) => Ok(Some(Pause::Late(script))),
        Moved::No => {
            report_unanswered(alloc, round, voice)?;
            Ok(Some(Pause::Ends))
        }
    }
}

// Ends all places if a write has failed.
fn end_unheard(world: &World, round: &mut Round<'_>, failed: bool)
    requires { IsRunning world.now round.old }
    ensures running { IsRunning world.now round.new }
    ensures narrows { Narrows round.old.places.grows.items round.new.places.grows.items }
    ensures runner { round.new.runner ≡ round.old.runner }
    ensures currents { round.new.places.currents ≡ round.old.places.currents }
{
    if failed {
        round.places.end_all();
    }
}

// Whether a script has no unfinished step.
fn is_free(world: &World, runner: &Runner<'_>, script: usize) -> bool
    requires { Tracks world.now runner.now }
    ensures { result ≡ true → IsFreeScript world.now runner.now.history.entries script }
{
    unfinished_scripts_ask();
    script < world.scripts.len() && !runner.has_left(script)
}

// Reports the steps that are not complete at the end.
fn report_unanswered<K: Sink>(
    alloc: Global,
    round: &Round<'_>,
    voice: &mut Voice<K>,
) -> Result<(), AllocError>
    ensures { OnOk result (ReportsRest round.now (speech K.held voice.old) (speech K.held voice.new)) }
{
    let moment = round.runner.moment;
    for number in 0..round.places.currents.len() {
        report_rest(alloc, round, number, moment, voice)?;
    }
    Ok(())
}

// Reports the current step of a script, if there is one.
fn report_rest<K: Sink>(
    alloc: Global,
    round: &Round<'_>,
    script: usize,
    moment: u64,
    voice: &mut Voice<K>,
) -> Result<(), AllocError>
    requires { script < length round.now.places.currents.items }
    ensures { OnOk result (ReportsOne round.now script (speech K.held voice.old) (speech K.held voice.new)) }
{
    match &round.places.currents[script] {
        Some(step) => voice.say_unanswered(
            alloc,
            place_number(script),
            moment,
            step,
            &round.history,
        ),
        None => Ok(()),
    }
}

/// How a run ends at which it rests.
pub fn end_of(world: &World, run: Resting) -> Result<LiveEnd, AllocError>
    requires { Rests world.now run }
    ensures status { IfOk result (IsStatus world.now run.history.entries) }
    ensures moment { IfOk result (λ e. e.moment ≡ spec_moment world.now run.history.entries) }
{
    let runner = run.resume(world)?;
    // The run pauses for its end only after nothing more can happen, so this does not happen.
    let Some(end) = runner.end(world) else {
        return Err(AllocError);
    };
    Ok(LiveEnd {
        end,
        answered: runner.answered(world),
        moment: runner.moment,
    })
}
