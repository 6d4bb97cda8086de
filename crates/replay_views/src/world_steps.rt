//! The lines of a world's text that are steps.
ghost use Rattle.std.specs.Prelude.{◌≡◌, ◌++◌, IfOk, OnOk};
ghost use Rattle.replay_views.specs.WorldSteps as spec;

use net_base::{Octets, Sequence};
use std::alloc::{AllocError, Global};
use words::split_first;

/// A line of a step, with its number in the text, from 1.
#[derive(Drop)]
pub struct StepLine {
    pub number: u64,
    pub text: Octets,
}

/// The steps of a world's text, before its line `ndb`.
pub fn step_lines(alloc: Global, text: &[u8]) -> Result<Sequence<StepLine>, AllocError>
    ensures { IfOk result (λ lines. lines ≡ spec.step_lines text.now) }
{
    let mut lines = Sequence::new(alloc);
    let mut under = false;
    let mut number: u64 = 1;
    let mut rest = Some(text);
    while let Some(part) = rest {
        let (line, behind) = split_first(part, b'\n');
        if line == b"ndb".as_slice() {
            return Ok(lines);
        }
        add_line(alloc, &mut lines, under, number, line)?;
        under = goes_under(under, line);
        number = number.saturating_add(1);
        rest = behind;
    }
    Ok(lines)
}

fn add_line(
    alloc: Global,
    lines: &mut Sequence<StepLine>,
    under: bool,
    number: u64,
    line: &[u8],
) -> Result<(), AllocError>
    ensures { OnOk result (lines.new ≡ lines.old ++ spec.own_line under number line.now) }
{
    if is_step_line(under, line) {
        let text = Octets::from_slice(alloc, line)?;
        lines.push(StepLine { number, text })
    } else {
        Ok(())
    }
}

fn is_step_line(under: bool, line: &[u8]) -> bool
    ensures { result ≡ spec.is_step_line under line.now }
{
    under && !is_passed(line) && !begins_script(line)
}

// Whether what follows a line is under a script.
fn goes_under(under: bool, line: &[u8]) -> bool
    ensures { result ≡ spec.goes_under under line.now }
{
    under || begins_script(line)
}

fn begins_script(line: &[u8]) -> bool
    ensures { result ≡ spec.begins_script line.now }
{
    line.starts_with(b"script ")
}

// An empty line, or a comment.
fn is_passed(line: &[u8]) -> bool
    ensures { result ≡ spec.is_line_passed line.now }
{
    line.is_empty() || line[0] == b'#'
}
