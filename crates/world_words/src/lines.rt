//! A line of a world by itself.
ghost use Rattle.std.specs.Prelude.{◌≡◌, IfOk, IfErr, Option, Some};
ghost use Rattle.world_text.specs.declared.line.WorldLine.{WorldLine};
ghost use Rattle.net_base.specs.declared.world.Step.{Step};
ghost use Rattle.world_text.specs.LineReading as spec;
ghost use Rattle.world_words.specs.Told.{IsRefused, Tells};

use crate::arguments::{Arguments, split_line};
use crate::fault::LineFault;
use crate::hosts::{read_host, read_if, read_route, read_script, read_start};
use crate::media::{read_end, read_fate, read_medium, read_networld, read_rates, read_seed};
use crate::steps::read_step;
use net_base::Step;
use std::alloc::{AllocError, Global};
use world_text::{LineCause, WorldLine};

/// What a line says, or the least cause for which it is bad wherever it stands. It goes at most twice through the bytes.
pub fn read_line(alloc: Global, line: &[u8]) -> Result<WorldLine, LineFault>
    ensures { Tells result (spec.read_line line.now) }
{
    let (word, args) = split_line(line);
    read_words(alloc, word, &args)
}

/// A line by its first word and the others.
fn read_words(alloc: Global, word: &[u8], args: &Arguments<'_>) -> Result<WorldLine, LineFault>
    ensures { Tells result (spec.word_line word.now args.now) }
{
    if word == b"ndb".as_slice() {
        argued(read_ndb(args))
    } else if word == b"networld".as_slice() {
        argued(read_networld(args))
    } else if word == b"end".as_slice() {
        argued(read_end(args))
    } else if word == b"seed".as_slice() {
        argued(read_seed(args))
    } else if word == b"medium".as_slice() {
        told(read_medium(alloc, args))
    } else if word == b"rates".as_slice() {
        told(read_rates(alloc, args))
    } else if word == b"fate".as_slice() {
        told(read_fate(alloc, args))
    } else {
        read_other(alloc, word, args)
    }
}

/// A line of a host or of a script.
fn read_other(alloc: Global, word: &[u8], args: &Arguments<'_>) -> Result<WorldLine, LineFault>
    ensures { Tells result (spec.other_line word.now args.now) }
{
    if word == b"host".as_slice() {
        told(read_host(alloc, args))
    } else if word == b"if".as_slice() {
        told(read_if(alloc, args))
    } else if word == b"route".as_slice() {
        argued(read_route(args))
    } else if word == b"start".as_slice() {
        argued(read_start(args))
    } else if word == b"script".as_slice() {
        told(read_script(alloc, args))
    } else {
        step_told(read_step(alloc, word, args))
    }
}

/// `ndb`
fn read_ndb(args: &Arguments<'_>) -> Option<WorldLine>
    ensures { result ≡ spec.ndb_of args.now }
{
    if args.is_empty() {
        Some(WorldLine::Ndb)
    } else {
        None
    }
}

/// What is read of a line whose word is known.
fn argued(read: Option<WorldLine>) -> Result<WorldLine, LineFault>
    ensures { Tells result (spec.argued read) }
{
    match read {
        Some(line) => Ok(line),
        None => Err(LineFault::Cause(LineCause::WrongArgument)),
    }
}

/// What is read of a line, where memory may have run out.
fn told(read: Result<Option<WorldLine>, AllocError>) -> Result<WorldLine, LineFault>
    ensures { (line : Option WorldLine) → IfOk read (λ r. r ≡ line) → Tells result (spec.argued line) }
{
    match read {
        Ok(line) => argued(line),
        Err(_) => Err(LineFault::Memory),
    }
}

/// What is read of the line of a step.
#[tactic(auto, using(crate::proofs::Refusals::tells_refused))]
fn step_told(read: Result<Step, LineFault>) -> Result<WorldLine, LineFault>
    ensures { (step : Option (Option Step)) → IfOk read (λ s. step ≡ Some (Some s)) → IfErr read (λ e. IsRefused e step)
        → Tells result (spec.step_read step) }
{
    match read {
        Ok(step) => Ok(WorldLine::OfScript(step)),
        Err(fault) => Err(fault),
    }
}
