//! The summary of a run.
ghost use Rattle.std.specs.Prelude.{◌≡◌, ◌++◌, OnOk, IfOk, codes};
ghost use Rattle.net_base.specs.Summary as spec;
ghost use Rattle.net_base.specs.Summary.{summary, steps_line, both_line, end_line};
ghost use Rattle.transcript.specs.RunStatus.{IsRunStatusOf, status_lines, run_end_word};

use crate::totals::{Totals, totals_of};
use net_base::{Entries, Octets, RunEnd, World};
use std::alloc::{AllocError, Global};
use words::put_wide_decimal;

/// What the net behind a history tells: how many steps are answered, and how the run has ended, if it has.
#[derive(Clone, Copy, Debug, PartialEq, Eq)]
pub struct RunStatus {
    pub answered: u128,
    pub end: Option<RunEnd>,
}

/// The summary of a history, for a caller that knows how its net stands. The status is printed as it is told.
#[tactic(auto, using(crate::proofs::Summing::status_tells))]
pub fn summary_by<E: Entries>(
    alloc: Global,
    world: &World,
    entries: &E,
    status: RunStatus,
) -> Result<Octets, AllocError>
    ensures lines { IfOk result (λ text. text ≡ status_lines world.now (E.list entries.now) status) }
    ensures summary { IsRunStatusOf world.now (E.list entries.now) status
        → IfOk result (λ text. text ≡ summary world.now (E.list entries.now)) }
{
    let mut out = Octets::new(alloc);
    put_summary(&mut out, world, entries, status)?;
    Ok(out)
}

fn put_summary<E: Entries>(
    out: &mut Octets,
    world: &World,
    entries: &E,
    status: RunStatus,
) -> Result<(), AllocError>
    ensures { OnOk result (out.new ≡ out.old ++ status_lines world.now (E.list entries.now) status) }
{
    let totals = totals_of(entries);
    put_steps(out, status.answered, all_steps(world))?;
    put_totals(out, totals)?;
    put_end(out, status.end, totals.moment)
}

fn all_steps(world: &World) -> u128
    ensures { result ≡ spec.all_steps world.now }
{
    let mut steps = 0;
    for script in world.scripts.as_slice() {
        steps += script.steps.len() as u128;
    }
    steps
}

fn put_steps(out: &mut Octets, answered: u128, all: u128) -> Result<(), AllocError>
    ensures { OnOk result (out.new ≡ out.old ++ steps_line answered all) }
{
    out.append(b"steps ")?;
    put_wide_decimal(out, answered)?;
    out.append(b" of ")?;
    put_wide_decimal(out, all)?;
    out.append(b"\n")
}

fn put_totals(out: &mut Octets, totals: Totals) -> Result<(), AllocError>
    ensures { OnOk result (out.new ≡ out.old ++ (both_line (codes "messages") totals.written totals.read ++ both_line
        (codes "bytes") totals.bytes_written totals.bytes_read)) }
{
    put_both(
        out,
        b"messages",
        totals.written as u128,
        totals.read as u128,
    )?;
    put_both(out, b"bytes", totals.bytes_written, totals.bytes_read)
}

// A line of what was written and what was read.
fn put_both(out: &mut Octets, word: &[u8], written: u128, read: u128) -> Result<(), AllocError>
    ensures { OnOk result (out.new ≡ out.old ++ both_line word.now written read) }
{
    out.append(word)?;
    out.append(b" ")?;
    put_wide_decimal(out, written)?;
    out.append(b" ")?;
    put_wide_decimal(out, read)?;
    out.append(b"\n")
}

fn put_end(out: &mut Octets, end: Option<RunEnd>, moment: u64) -> Result<(), AllocError>
    ensures { OnOk result (out.new ≡ out.old ++ end_line (run_end_word end) moment) }
{
    out.append(b"end ")?;
    out.append(end_word(end))?;
    out.append(b" ")?;
    put_wide_decimal(out, moment as u128)?;
    out.append(b"\n")
}

fn end_word(end: Option<RunEnd>) -> &'static [u8]
    ensures { result.now ≡ run_end_word end }
{
    match end {
        Some(RunEnd::Done) => b"done",
        Some(RunEnd::Stopped) => b"stopped",
        Some(RunEnd::Limit) => b"limit",
        None => b"unfinished",
    }
}
