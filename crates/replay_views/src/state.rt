//! What became of a step, or what it waits for.
ghost use Rattle.std.specs.Prelude.{◌≡◌, ◌∷◌, ◌++◌, [], Some, OnOk, option_map, slice_get};
ghost use Rattle.net_base.specs.Transcript.{number_or_dash, spaced};
ghost use Rattle.plain_runner.specs.Turns.{turn_ask, asks_of};
ghost use Rattle.replay_views.specs.Steps as spec;

use crate::ending::Ending;
use crate::recorded::Latest;
use crate::world_steps::StepLine;
use history_words::{put_actor, put_event, put_reply};
use net_base::{Entry, Octets};
use plain_runner::Turn;
use std::alloc::AllocError;
use words::{put_decimal, put_number, put_word};

fn verdict(refused: bool) -> &'static [u8]
    ensures { result.now ≡ spec.verdict refused }
{
    if refused { b"refused" } else { b"answered" }
}

/// Adds how a step ended.
pub fn put_ending(
    out: &mut Octets,
    entries: &[Entry],
    ending: Option<Ending>,
) -> Result<(), AllocError>
    ensures { OnOk result (out.new ≡ out.old ++ spec.ending_text entries.now ending) }
{
    let Some(ending) = ending else {
        return out.append(b"answered");
    };
    out.append(verdict(ending.refused))?;
    out.append(b" at ")?;
    put_decimal(out, ending.moment)?;
    out.append(b", ")?;
    put_reply_at(out, entries, ending.reply)
}

fn put_reply_at(out: &mut Octets, entries: &[Entry], stamp: usize) -> Result<(), AllocError>
    ensures { OnOk result (out.new ≡ out.old ++ spec.reply_text (slice_get entries.now stamp)) }
{
    match entries.get(stamp) {
        Some(entry) => put_reply(out, &entry.reply),
        None => out.append(b""),
    }
}

/// Adds what a step waits for: the next event of its script, unless something is owed.
pub fn put_waiting(out: &mut Octets, owes: bool, next: &Option<Turn>) -> Result<(), AllocError>
    ensures { OnOk result (out.new ≡ out.old ++ spec.waiting_text owes (asks_of next.now)) }
{
    if owes {
        return out.append(b"owes");
    }
    match next {
        Some(turn) => put_asked(out, turn),
        None => out.append(b"waits"),
    }
}

fn put_asked(out: &mut Octets, turn: &Turn) -> Result<(), AllocError>
    ensures { OnOk result (out.new ≡ out.old ++ spec.asked_text (Some (turn_ask turn.now))) }
{
    out.append(b"waits for ")?;
    put_actor(out, turn.actor)?;
    out.append(b" ")?;
    put_event(out, &turn.work.event)
}

/// Adds the number of a step's line and that of its script, and the step as it is spelled.
pub fn put_place(
    out: &mut Octets,
    lines: &[StepLine],
    step: usize,
    script: u32,
) -> Result<(), AllocError>
    ensures { OnOk result (out.new ≡ out.old ++ spec.place_text (slice_get lines.now step) script) }
{
    match lines.get(step) {
        Some(line) => put_line(out, line, script),
        None => {
            out.append(b"- ")?;
            put_decimal(out, script as u64)
        }
    }
}

fn put_line(out: &mut Octets, line: &StepLine, script: u32) -> Result<(), AllocError>
    ensures { OnOk result (out.new ≡ out.old ++ spec.place_text (Some line.now) script) }
{
    put_decimal(out, line.number)?;
    out.append(b" ")?;
    put_decimal(out, script as u64)?;
    out.append(b" ")?;
    out.append(line.text.as_slice())
}

// ---- rows

fn put_number_or_dash(out: &mut Octets, n: Option<u64>) -> Result<(), AllocError>
    ensures { OnOk result (out.new ≡ out.old ++ spaced (number_or_dash n ∷ [])) }
{
    match n {
        Some(n) => put_number(out, n),
        None => put_word(out, b"-"),
    }
}

fn first_in(latest: Option<Latest>) -> Option<u64>
    ensures { result ≡ spec.first_in latest }
{
    match latest {
        Some(latest) => Some(latest.first as u64),
        None => None,
    }
}

fn last_in(latest: Option<Latest>) -> Option<u64>
    ensures { result ≡ spec.last_in latest }
{
    match latest {
        Some(latest) => Some(latest.last as u64),
        None => None,
    }
}

fn put_words(
    out: &mut Octets,
    word: &[u8],
    moment: Option<u64>,
    latest: Option<Latest>,
    reply: Option<u64>,
) -> Result<(), AllocError>
    ensures { OnOk result (out.new ≡ out.old ++ spec.state_words word.now moment latest reply) }
{
    put_word(out, word)?;
    put_number_or_dash(out, moment)?;
    put_number_or_dash(out, first_in(latest))?;
    put_number_or_dash(out, last_in(latest))?;
    put_number_or_dash(out, reply)
}

/// Adds the words of a row for how a step ended.
pub fn put_ending_words(
    out: &mut Octets,
    latest: Option<Latest>,
    ending: Option<Ending>,
) -> Result<(), AllocError>
    ensures { OnOk result (out.new ≡ out.old ++ spec.ending_words latest ending) }
{
    match ending {
        Some(ending) => put_words(
            out,
            verdict(ending.refused),
            Some(ending.moment),
            latest,
            Some(ending.reply as u64),
        ),
        None => put_words(out, b"answered", None, latest, None),
    }
}

fn waiting_word(owes: bool) -> &'static [u8]
    ensures { result.now ≡ spec.waiting_word owes }
{
    if owes { b"owes" } else { b"waits" }
}

/// Adds the words of a row for a step that waits.
pub fn put_waiting_words(
    out: &mut Octets,
    owes: bool,
    latest: Option<Latest>,
) -> Result<(), AllocError>
    ensures { OnOk result (out.new ≡ out.old ++ spec.waiting_words owes latest) }
{
    put_words(out, waiting_word(owes), None, latest, None)
}

/// Adds the words of a row for a step that is ahead.
pub fn put_ahead_words(out: &mut Octets) -> Result<(), AllocError>
    ensures { OnOk result (out.new ≡ out.old ++ spec.ahead_words) }
{
    put_words(out, b"ahead", None, None, None)
}

/// Adds the number of a step's line and that of its script.
pub fn put_place_words(
    out: &mut Octets,
    lines: &[StepLine],
    step: usize,
    script: u32,
) -> Result<(), AllocError>
    ensures { OnOk result (out.new ≡ out.old ++ spec.place_words (slice_get lines.now step) script) }
{
    put_line_word(out, lines.get(step))?;
    put_number(out, script as u64)
}

fn put_line_word(out: &mut Octets, line: Option<&StepLine>) -> Result<(), AllocError>
    ensures { OnOk result (out.new ≡ out.old ++ spec.line_word (option_map (λ l. l.now) line.entry)) }
{
    match line {
        Some(line) => put_decimal(out, line.number),
        None => out.append(b"-"),
    }
}
