//! An input read and judged.
ghost use Rattle.std.specs.Prelude.{◌≡◌, ◌+◌, ◌<◌, ◌^◌, length, None, Ok};
ghost use Rattle.net_base.specs.World.{IsWorld};
ghost use Rattle.world_text.specs.declared.line.LineCause.TheVariants as cause;
ghost use Rattle.world_text.specs.LineCauses.{cause_number_of};
ghost use Rattle.world_text.specs.WorldText.{cuts_of, world_reading};
ghost use Rattle.netcheck.specs.Input.{parts_of};
ghost use Rattle.netcheck.specs.declared.fault.InputError.TheVariants as error;
ghost use Rattle.netcheck.specs.Told.{JudgedInput, RefusesInput, Tells, TellsParts};

use crate::fault::{InputError, of_line, of_world};
use crate::parts::{Parts, split};
use crate::{CheckError, check};
use history_reader::read_transcript;
use net_base::{History, Octets, World};
use std::alloc::Global;
use world_file::read_world;
use world_text::LineCause;

/// A world, a history of it that keeps the rules 1 to 8, and the summary that stood behind it, if one did.
#[derive(Debug, Drop)]
pub struct CheckedInput {
    pub world: World,
    pub history: History,
    pub told: Option<Octets>,
}

impl CheckedInput {
    // A world with what was read of a history.
    fn of(world: World, read: (History, Option<Octets>)) -> CheckedInput
        ensures { result ≡ record { world = world; history = read.0; told = read.1 } }
    {
        let (history, told) = read;
        CheckedInput {
            world,
            history,
            told,
        }
    }
}

/// Reads a world, the line `%history` and what a run of the world printed, and judges the history by the rules 1 to 8. The summary
/// isn't judged. No byte of the input is copied before it is read.
pub fn check_input(alloc: Global, input: &[u8]) -> Result<CheckedInput, InputError>
    requires { length input.now < 2 ^ 32 }
    ensures { Tells input.now result }
{
    match split(input) {
        Ok(parts) => check_parts(alloc, &parts),
        Err(lines) => Err(without_history(alloc, input, lines)),
    }
}

// What is wrong with an input of so many lines without a history: the world's bad line, or the one past its last.
fn without_history(alloc: Global, input: &[u8], lines: u64) -> InputError
    requires limit { length input.now < 2 ^ 32 }
    requires none { parts_of input.now ≡ None }
    requires lines { lines ≡ length (cuts_of input.now) }
    ensures { RefusesInput input.now result }
{
    match read_world(alloc, input) {
        Ok(_) => missing(lines),
        Err(error) => of_world(error),
    }
}

// A world of so many lines has no history.
fn missing(lines: u64) -> InputError
    requires { lines + 1 < 2 ^ 64 }
    ensures { result ≡ error.Bad (lines + 1) (cause_number_of cause.MissingPart) }
{
    InputError::Bad {
        line: lines + 1,
        cause: LineCause::MissingPart.number(),
    }
}

// An input with these parts.
fn check_parts(alloc: Global, parts: &Parts<'_>) -> Result<CheckedInput, InputError>
    requires { parts.now.lines + length parts.now.history.now < 2 ^ 32 }
    ensures { TellsParts (record {
      world = parts.now.world.now;
      lines = parts.now.lines;
      history = parts.now.history.now;
    }) result }
{
    match read_world(alloc, parts.world) {
        Ok(world) => check_history(alloc, world, parts),
        Err(error) => Err(of_world(error)),
    }
}

// What stands behind this world.
fn check_history(alloc: Global, world: World, parts: &Parts<'_>) -> Result<CheckedInput, InputError>
    requires world { IsWorld world }
    requires read { world_reading parts.now.world.now ≡ Ok world }
    requires room { parts.now.lines + length parts.now.history.now < 2 ^ 32 }
    ensures { TellsParts (record {
      world = parts.now.world.now;
      lines = parts.now.lines;
      history = parts.now.history.now;
    }) result }
{
    match read_transcript(alloc, parts.history) {
        Ok(read) => judge(alloc, CheckedInput::of(world, read)),
        Err(error) => Err(of_line(parts.lines + 1, error)),
    }
}

// What was read, where its history keeps the rules.
fn judge(alloc: Global, read: CheckedInput) -> Result<CheckedInput, InputError>
    requires { IsWorld read.world }
    ensures { JudgedInput read result }
{
    match check(alloc, &read.world, &read.history) {
        Ok(()) => Ok(read),
        Err(CheckError::Fault { stamp, rule }) => Err(InputError::Fault { stamp, rule }),
        Err(CheckError::Memory) => Err(InputError::Memory),
    }
}
