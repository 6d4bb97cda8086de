//! A live run from its first line to its last.
ghost use Rattle.std.specs.Prelude.{◌≡◌, [], IfOk, OnOk};
ghost use Rattle.net_base.specs.declared.world.World.{World as AnyWorld};
ghost use Rattle.net_base.specs.World.{IsWorld};
ghost use Rattle.live_run.specs.Deadlines.{AreNone};
ghost use Rattle.live_answers.specs.Speech.{speech};
ghost use Rattle.live_run.specs.Hearing.{Supplies, SuppliesBoth, Tells, is_ends};
ghost use Rattle.live_run.specs.LiveRuns.{IsFree, IsLive, IsRest};
ghost use Rattle.live_run.specs.LiveWorlds.{ArePlaces, Begins, GrownFrom, Narrows, Supplied};

use crate::applying::apply_next;
use crate::beginning::{begin, begin_all};
use crate::places::{Places, places_of};
use crate::playing::{At, LiveEnd, Order, Pause, ROUND, Rest, end_of, play};
use crate::withdrawing::{replace_late, withdraw};
use live_answers::Voice;
use live_lines::LineReader;
use net_base::{History, World};
use order_search::Ranks;
use outside::{Sink, Source};
use plain_runner::Runner;
use std::alloc::{AllocError, Global};

/// A run that has ended: the world with all steps that began or were accepted, the history, and how it has ended.
#[derive(Drop)]
pub struct Live {
    pub world: World,
    pub history: History,
    pub end: LiveEnd,
}

/// Plays a world to its end, in rounds, or in an order of turns that is drawn from a seed.
///
/// Reads a line whenever nothing more can happen and a place waits for it. The voice has said nothing yet.
pub fn run_live<S: Source, K: Sink>(
    alloc: Global,
    first: World,
    seed: Option<u64>,
    reader: &mut LineReader<'_, S>,
    voice: &mut Voice<K>,
) -> Result<Live, AllocError>
    requires { IsWorld first }
    ensures live { IfOk result (IsLive first) }
    ensures told { IfOk result (λ l. Tells first l (speech K.held voice.old) (speech K.held voice.new)) }
{
    let places = Places::new(alloc, &first)?;
    let given = places_of(alloc, &first)?;
    let numbers = places.numbers(alloc)?;
    voice.say_places(alloc, &numbers)?;
    let mut rest = first_rest(alloc, &first, places)?;
    let mut world = first;
    let mut at = ROUND;
    let mut order = order_of(alloc, seed, rest.run.callers.len())?;
    for _ in 0..u64::MAX {
        let (paused, pause) = play(alloc, &world, rest, at, &mut order, voice)?;
        rest = paused;
        if is_end(&pause) {
            return finish(alloc, world, rest);
        }
        at = place_after(&pause);
        world = supply(
            alloc,
            world,
            &mut rest,
            pause,
            given.as_slice(),
            reader,
            voice,
        )?;
    }
    Err(AllocError)
}

fn is_end(pause: &Pause) -> bool
    ensures { result ≡ is_ends pause.now }
{
    match pause {
        Pause::Ends => true,
        _ => false,
    }
}

// Where playing continues after a pause.
fn place_after(pause: &Pause) -> At {
    match pause {
        Pause::Begins(at) => *at,
        _ => ROUND,
    }
}

// Gives a run what it paused for: a step that begins, `until` in place of a late step, or a line.
fn supply<S: Source, K: Sink>(
    alloc: Global,
    world: World,
    rest: &mut Rest,
    pause: Pause,
    given: &[bool],
    reader: &mut LineReader<'_, S>,
    voice: &mut Voice<K>,
) -> Result<World, AllocError>
    requires rest { IsRest world rest.old }
    requires free { IsFree world rest.old.run.history.entries pause }
    ensures rests { IfOk result (λ w. IsRest w rest.new) }
    ensures grown { IfOk result (Supplied world rest.old.places.grows.items given.now) }
    ensures narrows { OnOk result (Narrows rest.old.places.grows.items rest.new.places.grows.items) }
    ensures heard { IfOk result (λ w. SuppliesBoth rest.old.places.grows.items given.now world rest.old (speech K.held voice.old)
        w rest.new (speech K.held voice.new)) }
{
    match pause {
        Pause::Begins(at) => begin(alloc, world, rest, at.caller),
        Pause::Late(script) => replace_late(world, rest, script, given),
        Pause::Reads => read_on(alloc, world, rest, given, reader, voice),
        Pause::Ends => Ok(world),
    }
}

// Reads a line for a place, and withdraws a step if the line says so.
fn read_on<S: Source, K: Sink>(
    alloc: Global,
    world: World,
    rest: &mut Rest,
    given: &[bool],
    reader: &mut LineReader<'_, S>,
    voice: &mut Voice<K>,
) -> Result<World, AllocError>
    requires { IsRest world rest.old }
    ensures rests { IfOk result (λ w. IsRest w rest.new) }
    ensures grown { IfOk result (Begins world given.now) }
    ensures narrows { OnOk result (Narrows rest.old.places.grows.items rest.new.places.grows.items) }
    ensures heard { IfOk result (λ w. Supplies given.now world rest.old (speech K.held voice.old) w rest.new (speech K.held voice.new)) }
{
    match apply_next(alloc, &mut rest.places, reader, voice)? {
        Some(script) => withdraw(alloc, world, rest, script, given, voice),
        None => Ok(world),
    }
}

// The order of the turns of this number of callers.
fn order_of(alloc: Global, seed: Option<u64>, callers: usize) -> Result<Order, AllocError> {
    match seed {
        Some(seed) => Ok(Order::Drawn(Ranks::new(alloc, seed, callers)?)),
        None => Ok(Order::Rounds),
    }
}

// The run of a world before its first entry.
fn first_rest(alloc: Global, world: &World, places: Places) -> Result<Rest, AllocError>
    requires is { IsWorld world.now }
    requires deadlines { AreNone places.deadlines.items }
    ensures rests { IfOk result (IsRest world.now) }
    ensures places { IfOk result (λ rest. rest.places ≡ places) }
    ensures empty { IfOk result (λ rest. rest.run.history.entries ≡ []) }
{
    let runner = Runner::new(alloc, world)?;
    let run = runner.rest()?;
    let history = History::new(alloc);
    Ok(Rest {
        run,
        history,
        places,
        moved: 0,
    })
}

// The run with the steps that did not begin at the ends of its scripts.
fn finish(alloc: Global, world: World, rest: Rest) -> Result<Live, AllocError>
    requires { IsRest world rest }
    ensures live { IfOk result (λ l. (first : AnyWorld) → GrownFrom first world → ArePlaces first rest.places.grows.items → IsLive first l) }
    ensures history { IfOk result (λ l. l.history ≡ rest.run.history.entries) }
{
    let mut rest = rest;
    let world = begin_all(world, &mut rest)?;
    let Rest { run, history, .. } = rest;
    let end = end_of(&world, run)?;
    Ok(Live {
        world,
        history,
        end,
    })
}
