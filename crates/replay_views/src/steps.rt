//! A line or a row for each step of each script.
ghost use Rattle.std.specs.Prelude.{◌≡◌, ◌<◌, ◌++◌, drop, length, Some, slice_get, IfOk, OnOk};
ghost use Rattle.std.specs.List.{enumerate_from};
ghost use Rattle.net_base.specs.Legal.{IsLegal, IsTimed};
ghost use Rattle.net_base.specs.World.{IsWorld};
ghost use Rattle.plain_runner.specs.Callers.{IsCallerKept};
ghost use Rattle.plain_runner.specs.Followed.{Followed};
ghost use Rattle.replay_views.specs.Recorded.{AreLatest, latest_at as spec_latest_at};
ghost use Rattle.replay_views.specs.Steps as spec;

use crate::ending::{Ending, ending_of, kind_of};
use crate::recorded::{Latest, LatestSteps, Record, StepKey, record_of};
use crate::standing::{answered, owes};
use crate::state::{
    put_ahead_words, put_ending, put_ending_words, put_place, put_place_words, put_waiting,
    put_waiting_words,
};
use crate::world_steps::{StepLine, step_lines};
use net_base::{Entry, History, Octets, Script, World};
use plain_runner::Caller;
use std::alloc::{AllocError, Global};

/// The form in which steps are written.
#[derive(Clone, Copy)]
pub enum Form {
    /// A line for people.
    Line,
    /// A row of words.
    Row,
}

/// The steps of a world's scripts after a history, a line each: the number of its line in the world's text and that of its
/// script, the step as it is spelled there, and `answered` or `refused` with the moment in ms and the reply; `waits for` the event
/// that comes next, or `owes`, where the script stands; `ahead` behind that.
pub fn steps_of(
    alloc: Global,
    text: &[u8],
    world: &World,
    history: &History,
) -> Result<Octets, AllocError>
    requires world { IsWorld world.now }
    requires legal { IsLegal world.now history.now }
    requires timed { IsTimed world.now history.now }
    ensures { IfOk result (λ lines. lines ≡ spec.steps_text text.now world.now history.now) }
{
    steps_in(alloc, Form::Line, text, world, history)
}

/// Returns the same as a row each: `LINE SCRIPT WORD MOMENT FIRST LAST REPLY`. WORD is `answered`, `refused`, `waits`, `owes` or `ahead`. FIRST
/// and LAST are the stamps of the first and the last entry that the step recorded itself, REPLY that of the entry with the reply to show.
pub fn step_rows_of(
    alloc: Global,
    text: &[u8],
    world: &World,
    history: &History,
) -> Result<Octets, AllocError>
    requires world { IsWorld world.now }
    requires legal { IsLegal world.now history.now }
    requires timed { IsTimed world.now history.now }
    ensures { IfOk result (λ rows. rows ≡ spec.step_rows text.now world.now history.now) }
{
    steps_in(alloc, Form::Row, text, world, history)
}

fn steps_in(
    alloc: Global,
    form: Form,
    text: &[u8],
    world: &World,
    history: &History,
) -> Result<Octets, AllocError>
    requires world { IsWorld world.now }
    requires legal { IsLegal world.now history.now }
    requires timed { IsTimed world.now history.now }
    ensures { IfOk result (λ lines. lines ≡ spec.steps_in form text.now world.now history.now) }
{
    let entries = history.as_slice();
    let lines = step_lines(alloc, text)?;
    let record = record_of(alloc, world, entries)?;
    let mut out = Octets::new(alloc);
    put_scripts(
        &mut out,
        alloc,
        form,
        world,
        entries,
        &record,
        lines.as_slice(),
    )?;
    Ok(out)
}

/// A script in a run that followed a history.
#[derive(Clone, Copy)]
struct Player<'a> {
    entries: &'a [Entry],
    latest: &'a LatestSteps,
    caller: &'a Caller<'a>,
    number: u32,
    script: &'a Script,
}

fn put_scripts(
    out: &mut Octets,
    alloc: Global,
    form: Form,
    world: &World,
    entries: &[Entry],
    record: &Record<'_>,
    lines: &[StepLine],
) -> Result<(), AllocError>
    requires followed { Followed world.now entries.now record.now.runner }
    requires latest { AreLatest world.now entries.now (length entries.now) record.now.latest.entries }
    ensures { OnOk result (out.new ≡ out.old ++ spec.scripts_text form world.now entries.now lines.now
        (enumerate_from 0 world.now.scripts)) }
{
    let mut left = lines;
    let scripts = world.scripts.as_slice();
    for (number, script) in scripts.iter().enumerate() {
        let caller = &record.runner.callers[number];
        let player = Player {
            entries,
            latest: &record.latest,
            caller,
            number: number as u32,
            script,
        };
        put_script(out, alloc, form, world, player, left)?;
        left = behind(left, script.steps.len());
    }
    Ok(())
}

// The lines behind so many.
fn behind(lines: &[StepLine], count: usize) -> &[StepLine]
    ensures { result.now ≡ drop count lines.now }
{
    if count <= lines.len() {
        &lines[count..]
    } else {
        &[]
    }
}

fn put_script(
    out: &mut Octets,
    alloc: Global,
    form: Form,
    world: &World,
    player: Player<'_>,
    lines: &[StepLine],
) -> Result<(), AllocError>
    requires caller { IsCallerKept world.now player.entries.now player.number player.caller.now }
    requires script { slice_get world.now.scripts player.number ≡ Some player.script.now }
    requires latest { AreLatest world.now player.entries.now (length player.entries.now) player.latest.now.entries }
    ensures { OnOk result (out.new ≡ out.old ++ spec.script_text form world.now player.entry.entries.now lines.now
        (player.entry.number, player.entry.script.now)) }
{
    for step in 0..player.script.steps.len() {
        put_step(out, alloc, form, world, player, lines, step)?;
    }
    Ok(())
}

// The line of a step of a script.
fn put_step(
    out: &mut Octets,
    alloc: Global,
    form: Form,
    world: &World,
    player: Player<'_>,
    lines: &[StepLine],
    step: usize,
) -> Result<(), AllocError>
    requires caller { IsCallerKept world.now player.entries.now player.number player.caller.now }
    requires script { slice_get world.now.scripts player.number ≡ Some player.script.now }
    requires latest { AreLatest world.now player.entries.now (length player.entries.now) player.latest.now.entries }
    ensures { OnOk result (out.new ≡ out.old ++ spec.step_text form world.now player.entry.entries.now lines.now
        (player.entry.number, player.entry.script.now) step) }
{
    put_place_in(out, form, lines, step, player.number)?;
    put_state(out, alloc, form, world, player, step)?;
    out.append(b"\n")
}

fn put_place_in(
    out: &mut Octets,
    form: Form,
    lines: &[StepLine],
    step: usize,
    script: u32,
) -> Result<(), AllocError>
    ensures { OnOk result (out.new ≡ out.old ++ spec.place_of form (slice_get lines.now step) script) }
{
    match form {
        Form::Line => {
            put_place(out, lines, step, script)?;
            out.append(b": ")
        }
        Form::Row => put_place_words(out, lines, step, script),
    }
}

// What became of a step of a script.
fn put_state(
    out: &mut Octets,
    alloc: Global,
    form: Form,
    world: &World,
    player: Player<'_>,
    step: usize,
) -> Result<(), AllocError>
    requires caller { IsCallerKept world.now player.entries.now player.number player.caller.now }
    requires script { slice_get world.now.scripts player.number ≡ Some player.script.now }
    requires latest { AreLatest world.now player.entries.now (length player.entries.now) player.latest.now.entries }
    ensures { OnOk result (out.new ≡ out.old ++ spec.state_text form world.now player.entry.entries.now
        (player.entry.number, player.entry.script.now) step) }
{
    let finished = answered(player.caller);
    let latest = latest_at(player.latest, (player.number, step));
    if step < finished {
        let kind = kind_of(player.script.steps.as_slice(), step);
        let ending = ending_of(alloc, kind, player.entries, latest)?;
        return put_ended(out, form, player.entries, latest, ending);
    }
    if step == finished {
        return put_current(out, form, world, player, latest);
    }
    match form {
        Form::Line => out.append(b"ahead"),
        Form::Row => put_ahead_words(out),
    }
}

fn put_ended(
    out: &mut Octets,
    form: Form,
    entries: &[Entry],
    latest: Option<Latest>,
    ending: Option<Ending>,
) -> Result<(), AllocError>
    ensures { OnOk result (out.new ≡ out.old ++ spec.ended_step form entries.now latest ending) }
{
    match form {
        Form::Line => put_ending(out, entries, ending),
        Form::Row => put_ending_words(out, latest, ending),
    }
}

// The step that a script comes to.
fn put_current(
    out: &mut Octets,
    form: Form,
    world: &World,
    player: Player<'_>,
    latest: Option<Latest>,
) -> Result<(), AllocError>
    requires { IsCallerKept world.now player.entries.now player.number player.caller.now }
    ensures { OnOk result (out.new ≡ out.old ++ spec.waiting_step form world.now player.entry.entries.now
        player.entry.number latest) }
{
    match form {
        Form::Line => put_waiting(out, owes(player.caller), &player.caller.next),
        Form::Row => put_waiting_words(out, owes(player.caller), latest),
    }
}

fn latest_at(latest: &LatestSteps, key: StepKey) -> Option<Latest>
    ensures { result ≡ spec_latest_at latest.now.entries key }
{
    latest.get(&key).copied()
}
