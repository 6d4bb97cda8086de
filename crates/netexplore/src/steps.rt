//! The lines of steps that end otherwise in other outcomes.

use net_base::{Lines, Octets, World};
use order_search::Telling;
use std::alloc::{AllocError, Global};
use words::{put_decimal, split_first};
use world_writer::write_world;

/// A step of a script: the numbers of both, and the step as a world is written.
#[derive(Drop)]
pub struct StepText {
    caller: u64,
    step: u64,
    text: Octets,
}

/// The steps of all scripts, in order.
pub fn step_texts(alloc: Global, world: &World) -> Result<Vec<StepText>, AllocError> {
    let written = write_world(alloc, world)?;
    let mut texts = Vec::new(alloc);
    let mut scripts: u64 = 0;
    let mut step: u64 = 0;
    for line in written.as_slice().split(|byte| *byte == b'\n') {
        if line == b"ndb".as_slice() {
            break;
        }
        if line.starts_with(b"script ") {
            scripts = scripts.saturating_add(1);
            step = 0;
        } else if 0 < scripts {
            texts.push(StepText {
                caller: scripts.saturating_sub(1),
                step,
                text: Octets::from_slice(alloc, line)?,
            })?;
            step = step.saturating_add(1);
        }
    }
    Ok(texts)
}

/// For each outcome the lines of those steps that have not the same result in all outcomes, or of all steps.
pub fn lines_of(
    alloc: Global,
    steps: &[StepText],
    told: &[Telling],
    all: bool,
) -> Result<Lines, AllocError> {
    let differ = differing(alloc, steps.len(), told, all)?;
    let mut lines = Lines::new(alloc);
    for telling in told {
        let mut text = Octets::new(alloc);
        put_steps(
            &mut text,
            steps,
            telling.results.as_slice(),
            differ.as_slice(),
        )?;
        lines.push(text)?;
    }
    Ok(lines)
}

// Which steps are written.
fn differing(
    alloc: Global,
    count: usize,
    told: &[Telling],
    all: bool,
) -> Result<Vec<bool>, AllocError> {
    let mut differ = vec![in alloc; all; count]?;
    let Some(first) = told.first() else {
        return Ok(differ);
    };
    for other in told {
        mark(
            first.results.as_slice(),
            other.results.as_slice(),
            differ.as_mut_slice(),
        );
    }
    Ok(differ)
}

// Marks the lines of two texts that are not the same.
fn mark(first: &[u8], other: &[u8], differ: &mut [bool]) {
    let mut one = first;
    let mut two = other;
    for place in differ.iter_mut() {
        let (left, behind) = split_first(one, b'\n');
        let (right, after) = split_first(two, b'\n');
        if left != right {
            *place = true;
        }
        one = behind.unwrap_or(b"");
        two = after.unwrap_or(b"");
    }
}

// Adds the lines of the written steps, with these results, a line each.
fn put_steps(
    out: &mut Octets,
    steps: &[StepText],
    results: &[u8],
    differ: &[bool],
) -> Result<(), AllocError> {
    let mut rest = results;
    for (place, step) in steps.iter().enumerate() {
        let (result, behind) = split_first(rest, b'\n');
        if differ.get(place).copied().unwrap_or(false) {
            put_step(out, step, result)?;
        }
        rest = behind.unwrap_or(b"");
    }
    Ok(())
}

fn put_step(out: &mut Octets, step: &StepText, result_word: &[u8]) -> Result<(), AllocError> {
    put_decimal(out, step.caller)?;
    out.append(b" ")?;
    put_decimal(out, step.step)?;
    out.append(b" ")?;
    out.append(step.text.as_slice())?;
    out.append(b" = ")?;
    out.append(result_word)?;
    out.append(b"\n")
}
