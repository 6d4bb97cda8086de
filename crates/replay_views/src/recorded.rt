//! Which entries the steps of scripts recorded last.
ghost use Rattle.std.specs.Prelude.{◌≡◌, ℕ, ◌<◌, Some, cond, length, slice_get, IfOk, OnOk};
ghost use Rattle.net_base.specs.declared.world.Script.{Script as AnyScript};
ghost use Rattle.net_base.specs.declared.world.World.{World as AnyWorld};
ghost use Rattle.net_base.specs.Legal.{IsLegal, IsTimed};
ghost use Rattle.net_base.specs.World.{IsWorld};
ghost use Rattle.plain_runner.specs.Followed.{Followed};
ghost use Rattle.plain_runner.specs.Tracks.{Tracks};
ghost use Rattle.replay_views.specs.Recorded as spec;
ghost use Rattle.replay_views.specs.Recorded.{AreLatest, is_close, is_of_step, latest_at, latest_noted, same_step};

use crate::standing::finished;
use indexmap::IndexMap;
use net_base::{Entry, Event, World};
use plain_runner::Runner;
use std::alloc::{AllocError, Global};

/// A step by the number of its script, and its own in the script.
pub type StepKey = (u32, usize);

/// The stamps of entries that a step recorded itself: the first and the last one, the one before the last, and the last one that
/// closes no file.
#[derive(Clone, Copy)]
pub struct Latest {
    pub first: usize,
    pub last: usize,
    pub before: Option<usize>,
    pub deed: Option<usize>,
}

/// The first and the last entries of each step.
pub type LatestSteps = IndexMap<StepKey, Latest>;

/// A run that followed a history, and the first and the last entries of each step.
#[derive(Drop)]
pub struct Record<'a> {
    pub runner: Runner<'a>,
    pub latest: LatestSteps,
}

/// Follows a history, and notes the entries of the steps.
pub fn record_of<'a>(
    alloc: Global,
    world: &'a World,
    history: &[Entry],
) -> Result<Record<'a>, AllocError>
    requires world { IsWorld world.now }
    requires legal { IsLegal world.now history.now }
    requires timed { IsTimed world.now history.now }
    ensures followed { IfOk result (λ r. Followed world.now history.now r.runner) }
    ensures latest { IfOk result (λ r. AreLatest world.now history.now (length history.now) r.latest.entries) }
{
    let mut runner = Runner::new(alloc, world)?;
    let mut latest = IndexMap::new(alloc);
    for (stamp, entry) in history.iter().enumerate() {
        note_entry(&mut latest, &runner, stamp, entry)?;
        runner.follow(entry.caller, &entry.event)?;
    }
    Ok(Record { runner, latest })
}

// Notes an entry that comes next, where a step records it.
fn note_entry(
    latest: &mut LatestSteps,
    runner: &Runner<'_>,
    stamp: usize,
    entry: &Entry,
) -> Result<(), AllocError>
    requires { entry.now.caller < length runner.now.callers.items }
    ensures { OnOk result ((w : AnyWorld) (c : ℕ) (s : AnyScript) (n : ℕ) → Tracks w runner.now
        → slice_get w.scripts c ≡ Some s
        → latest_at latest.new.entries (c, n) ≡ cond (is_of_step w runner.now.history.entries c s n entry.now)
        (latest_noted (is_close entry.now.event) stamp (latest_at latest.old.entries (c, n)))
        (latest_at latest.old.entries (c, n))) }
{
    if entry.cites.is_some() {
        return Ok(());
    }
    match finished(runner, entry.caller) {
        Some(step) => {
            note(latest, (entry.caller, step), stamp, is_close(&entry.event))?;
            Ok(())
        }
        None => Ok(()),
    }
}

/// Returns whether an event closes a file.
pub fn is_close(event: &Event) -> bool
    ensures { result ≡ spec.is_close event.now }
{
    match event {
        Event::Close { .. } => true,
        _ => false,
    }
}

// A step recorded an entry, which closes a file or doesn't.
fn note(
    latest: &mut LatestSteps,
    key: StepKey,
    stamp: usize,
    closes: bool,
) -> Result<(), AllocError>
    ensures { OnOk result ((other : ℕ × ℕ) → latest_at latest.new.entries other
        ≡ cond (same_step key other) (latest_noted closes stamp (latest_at latest.old.entries key))
        (latest_at latest.old.entries other)) }
{
    let noted = noted_by(latest_of(latest, key), stamp, closes);
    latest.insert(key, noted)?;
    Ok(())
}

fn latest_of(latest: &LatestSteps, key: StepKey) -> Option<Latest>
    ensures { result ≡ latest_at latest.now.entries key }
{
    latest.get(&key).copied()
}

/// Returns the entries of a step with one more, which closes a file or doesn't.
pub fn noted_by(before: Option<Latest>, stamp: usize, closes: bool) -> Latest
    ensures { Some result ≡ latest_noted closes stamp before }
{
    match before {
        Some(before) => Latest {
            first: before.first,
            last: stamp,
            before: Some(before.last),
            deed: deed_noted(before.deed, stamp, closes),
        },
        None => Latest {
            first: stamp,
            last: stamp,
            before: None,
            deed: deed_noted(None, stamp, closes),
        },
    }
}

fn deed_noted(deed: Option<usize>, stamp: usize, closes: bool) -> Option<usize>
    ensures { result ≡ spec.deed_noted closes stamp deed }
{
    if closes { deed } else { Some(stamp) }
}
