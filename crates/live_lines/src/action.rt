//! What an input line asks of its place.
ghost use Rattle.std.specs.Prelude.{◌≡◌, ◌∷◌, Option};
ghost use Rattle.net_base.specs.declared.world.Step.{Step};
ghost use Rattle.world_text.specs.LineReading.{step_read};
ghost use Rattle.world_text.specs.WorldWords.{words_in_line};
ghost use Rattle.world_words.specs.Told as line;
ghost use Rattle.live_lines.specs.LiveLines as spec;
ghost use Rattle.live_lines.specs.Results.{TellsAction, TellsStep};

use crate::cause::{LiveCause, LiveFault};
use net_base::Step;
use std::alloc::Global;
use words::{number_in, split_first};
use world_text::{LineCause, WorldLine};
use world_words::LineFault;

/// The request of a line to its place.
#[derive(Debug, Drop)]
pub enum Action {
    /// The next step of the place. `by` is its deadline in ms.
    Step { by: Option<u64>, step: Step },
    /// Withdraws the current step.
    Cancel,
    /// The place gets no more steps.
    End,
}

/// Reads the words after the number of the place.
#[tactic(auto, using(crate::proofs::Results::stepped_err))]
pub(crate) fn read_action(alloc: Global, text: &[u8]) -> Result<Action, LiveFault>
    ensures { TellsAction result (spec.action_of (words_in_line text.now)) }
{
    let (word, rest) = first_word(text);
    if word == b"by".as_slice() {
        read_by(alloc, rest)
    } else if word == b"cancel".as_slice() {
        alone(rest, Action::Cancel)
    } else if word == b"end".as_slice() {
        alone(rest, Action::End)
    } else {
        let step = read_step(alloc, text)?;
        Ok(Action::Step { by: None, step })
    }
}

/// Returns the first word of a text, and the text after the blank.
pub(crate) fn first_word(text: &[u8]) -> (&[u8], Option<&[u8]>)
    ensures { words_in_line text.now ≡ result.0.now ∷ spec.words_after result.1 }
{
    split_first(text, b' ')
}

// Returns the action if no word follows its own.
#[tactic(auto, using(crate::proofs::Results::alone_not))]
fn alone(rest: Option<&[u8]>, action: Action) -> Result<Action, LiveFault>
    ensures { TellsAction result (spec.alone (spec.words_after rest.entry) action) }
{
    match rest {
        None => Ok(action),
        Some(_) => Err(LiveFault::Cause(LiveCause::WrongArgument)),
    }
}

// Reads `M STEP`, the words after `by`.
#[tactic(auto, using(crate::proofs::Results::deadlined_err))]
fn read_by(alloc: Global, rest: Option<&[u8]>) -> Result<Action, LiveFault>
    ensures { TellsAction result (spec.by_of (spec.words_after rest.entry)) }
{
    let Some(rest) = rest else {
        return Err(LiveFault::Cause(LiveCause::UnknownWord));
    };
    let (moment, text) = first_word(rest);
    let Some(text) = text else {
        return Err(LiveFault::Cause(LiveCause::UnknownWord));
    };
    let step = read_step(alloc, text)?;
    match number_in(1, 1_000_000_000, moment) {
        Some(moment) => Ok(Action::Step {
            by: Some(moment),
            step,
        }),
        None => Err(LiveFault::Cause(LiveCause::WrongArgument)),
    }
}

// Reads a step line of a world file.
#[tactic(auto, using(crate::proofs::Results::no_step_of))]
fn read_step(alloc: Global, text: &[u8]) -> Result<Step, LiveFault>
    ensures { TellsStep result (spec.step_of (words_in_line text.now)) }
{
    let (word, _) = first_word(text);
    if is_world_word(word) {
        return Err(LiveFault::Cause(LiveCause::UnknownWord));
    }
    step_told(world_words::read_line(alloc, text))
}

// Returns the step that a line of a world file gives.
#[tactic(auto, using(crate::proofs::Results::told_line, crate::proofs::Results::told_cause))]
fn step_told(read: Result<WorldLine, LineFault>) -> Result<Step, LiveFault>
    ensures { (step : Option (Option Step)) → line.Tells read (step_read step) → TellsStep result (spec.step_result step) }
{
    match read {
        Ok(line) => script_step(line),
        Err(LineFault::Memory) => Err(LiveFault::Memory),
        Err(LineFault::Cause(cause)) => Err(LiveFault::Cause(step_cause(cause))),
    }
}

fn script_step(line: WorldLine) -> Result<Step, LiveFault>
    ensures { TellsStep result (spec.script_result line) }
{
    match line {
        WorldLine::OfScript(step) => Ok(step),
        _ => Err(LiveFault::Cause(LiveCause::UnknownWord)),
    }
}

fn step_cause(cause: LineCause) -> LiveCause
    ensures { result ≡ spec.live_cause cause }
{
    match cause {
        LineCause::WrongArgument => LiveCause::WrongArgument,
        _ => LiveCause::UnknownWord,
    }
}

// Returns true for the first word of a line of a world file that is not a step.
fn is_world_word(word: &[u8]) -> bool
    ensures { result ≡ spec.is_world_word word.now }
{
    is_part_word(word) || is_host_word(word)
}

fn is_part_word(word: &[u8]) -> bool
    ensures { result ≡ spec.is_part_word word.now }
{
    word == b"ndb".as_slice()
        || word == b"networld".as_slice()
        || word == b"end".as_slice()
        || word == b"seed".as_slice()
        || word == b"medium".as_slice()
        || word == b"rates".as_slice()
        || word == b"fate".as_slice()
}

fn is_host_word(word: &[u8]) -> bool
    ensures { result ≡ spec.is_host_word word.now }
{
    word == b"host".as_slice()
        || word == b"if".as_slice()
        || word == b"route".as_slice()
        || word == b"start".as_slice()
        || word == b"script".as_slice()
}
