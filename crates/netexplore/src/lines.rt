//! Outcomes as lines.
ghost use Rattle.std.specs.Prelude.{◌≡◌, ◌≤◌, ◌++◌, ℕ, None, IfOk, OnOk, Option};
ghost use Rattle.std.specs.List.{list_all, list_any};
ghost use Rattle.net_base.specs.declared.world.World.{World as AnyWorld};
ghost use Rattle.order_search.specs.declared.tellings.Telling.{Telling as AnyTelling};
ghost use Rattle.order_search.specs.Exact.{IsExact};
ghost use Rattle.order_search.specs.Tellings.{IsSound};
ghost use Rattle.netexplore.specs.Answers.{IsOutcomesAnswer};
ghost use Rattle.netexplore.specs.Lines as spec;
ghost use Rattle.netexplore.specs.Words.{Span, parts_in};

use crate::steps::{lines_of, step_texts};
use net_base::{Lines, Octets, RunEnd, World};
use net_model::Answer;
use order_search::{Found, Telling};
use std::alloc::{AllocError, Global};
use words::{put_decimal, put_wide_decimal};

/// The lines of what was found. `all` says whether the results of all steps are written.
pub fn outcomes_of(
    alloc: Global,
    world: &World,
    found: &Found,
    all: bool,
) -> Result<Answer, AllocError>
    ensures { IfOk result (λ answer. (w : AnyWorld) (losses : Option ℕ) (span : Span) → IsSound w losses span.preemptions found.now
        → (losses ≡ None → parts_in span.part ≤ 1 → IsExact w span.preemptions span.limit found.now) → IsOutcomesAnswer w losses span answer) }
{
    let told = found.told.as_slice();
    let steps = step_texts(alloc, world)?;
    let lines = lines_of(alloc, steps.as_slice(), told, all)?;
    let mut text = Octets::new(alloc);
    put_tellings(&mut text, told, &lines)?;
    put_last(&mut text, found.histories, found.entries, found.whole)?;
    let status = status_of(told, found.whole);
    let answer = Answer::new(status, text);
    Ok(answer)
}

// Adds all outcomes.
fn put_tellings(out: &mut Octets, told: &[Telling], lines: &Lines) -> Result<(), AllocError>
    ensures { OnOk result (out.new ≡ out.old ++ spec.tellings_text lines.now 0 told.now) }
{
    for (number, telling) in told.iter().enumerate() {
        let rest = lines_at(lines, number);
        put_telling(out, number as u64, telling, rest)?;
    }
    Ok(())
}

// Adds an outcome, with lines after its summary.
fn put_telling(
    out: &mut Octets,
    number: u64,
    telling: &Telling,
    rest: &[u8],
) -> Result<(), AllocError>
    ensures { OnOk result (out.new ≡ out.old ++ spec.telling_text number telling.now rest.now) }
{
    let summary = telling.summary.as_slice();
    put_head(out, number, telling.losses, telling.preemptions)?;
    out.append(summary)?;
    out.append(rest)
}

// The lines after the summary of an outcome.
fn lines_at(lines: &Lines, number: usize) -> &[u8]
    ensures { result.now ≡ spec.lines_at lines.now number }
{
    match lines.as_slice().get(number) {
        Some(line) => line.as_slice(),
        None => b"",
    }
}

// Adds the line in front of an outcome.
fn put_head(
    out: &mut Octets,
    number: u64,
    losses: Option<u64>,
    preemptions: u64,
) -> Result<(), AllocError>
    ensures { OnOk result (out.new ≡ out.old ++ spec.head_line number losses preemptions) }
{
    put_labelled(out, b"outcome ", number)?;
    put_losses(out, losses)?;
    put_labelled(out, b" preemptions ", preemptions)?;
    out.append(b"\n")
}

// Adds the number of losses, if there is one.
fn put_losses(out: &mut Octets, losses: Option<u64>) -> Result<(), AllocError>
    ensures { OnOk result (out.new ≡ out.old ++ spec.losses_words losses) }
{
    match losses {
        Some(count) => put_labelled(out, b" losses ", count),
        None => Ok(()),
    }
}

// Adds a word with a number after it.
#[tactic(auto, unfolding(crate::specs::Lines::labelled))]
fn put_labelled(out: &mut Octets, label: &[u8], number: u64) -> Result<(), AllocError>
    ensures { OnOk result (out.new ≡ out.old ++ spec.labelled label.now number) }
{
    out.append(label)?;
    put_wide_decimal(out, number as u128)
}

// Adds the last line.
fn put_last(out: &mut Octets, histories: u64, entries: u128, whole: bool) -> Result<(), AllocError>
    ensures { OnOk result (out.new ≡ out.old ++ spec.last_line histories entries whole) }
{
    out.append(b"histories ")?;
    put_decimal(out, histories)?;
    out.append(b" entries ")?;
    put_wide_decimal(out, entries)?;
    if whole {
        return out.append(b" all\n");
    }
    out.append(b" some\n")
}

// The status by the outcomes, and whether the list of histories is whole.
fn status_of(told: &[Telling], whole: bool) -> u8
    ensures { result ≡ spec.told_status whole told.now }
{
    if some_stopped(told) {
        return 3;
    }
    if whole && all_done(told) {
        return 0;
    }
    4
}

fn some_stopped(told: &[Telling]) -> bool
    ensures { result ≡ list_any (λ (t : AnyTelling). spec.is_stopped t.end) told.now }
{
    told.iter().any(|telling| is_stopped(telling.end))
}

fn all_done(told: &[Telling]) -> bool
    ensures { result ≡ list_all (λ (t : AnyTelling). spec.is_done t.end) told.now }
{
    told.iter().all(|telling| is_done(telling.end))
}

fn is_stopped(end: Option<RunEnd>) -> bool
    ensures { result ≡ spec.is_stopped end }
{
    match end {
        Some(RunEnd::Stopped) => true,
        Some(RunEnd::Done) => false,
        Some(RunEnd::Limit) => false,
        None => false,
    }
}

fn is_done(end: Option<RunEnd>) -> bool
    ensures { result ≡ spec.is_done end }
{
    match end {
        Some(RunEnd::Done) => true,
        Some(RunEnd::Stopped) => false,
        Some(RunEnd::Limit) => false,
        None => false,
    }
}
