//! The answers of the commands.
ghost use Rattle.std.specs.Prelude.{◌≡◌, ◌≤◌, ◌⊎◌, ◌++◌, ℕ, [], Err, None, Some, codes, length, option_map, IfOk};
ghost use Rattle.net_base.specs.declared.world.World.{World as AnyWorld};
ghost use Rattle.net_base.specs.Transcript.{history_text};
ghost use Rattle.net_base.specs.World.{IsWorld};
ghost use Rattle.net_model.specs.Answers.{lines_answer};
ghost use Rattle.order_search.specs.Exact.{IsPlain};
ghost use Rattle.order_search.specs.Tellings.{IsEndedRun, IsKin, IsWitness};
ghost use Rattle.netexplore.specs.Answers.{IsAnswer, IsAnswerOf, IsEndedAnswer, IsLostAnswer, IsOutcomesAnswer, IsWithinAnswer};
ghost use Rattle.netexplore.specs.Commands.{command_read, part_read, span_read};
ghost use Rattle.netexplore.specs.Lines.{word_status};
ghost use Rattle.netexplore.specs.Words.{parts_in};
ghost use Rattle.transcript.specs.RunStatus.{run_end_word};
ghost use Rattle.world_text.specs.WorldText.{world_reading};
ghost use Rattle.world_writer.specs.Written.{world_file_text};

use crate::command::{Command, PartWord, Span};
use crate::lines::outcomes_of;
use net_base::{Octets, RunEnd, World};
use net_model::Answer;
use order_search::{Ended, Part, Sought, Watch, drawn, explore, lose};
use std::alloc::{AllocError, Global};
use std::mem;
use transcript::text_of;
use world_file::{WorldError, read_world};
use world_writer::write_world;

/// The answer to a command and its input, which is within the limit.
pub fn answer_over<W: Watch>(
    alloc: Global,
    command: Command,
    input: &[u8],
    watch: &W,
) -> Result<Answer, AllocError>
    requires { length input.now ≤ 4194304 }
    ensures { IfOk result (λ answer. IsAnswer (command_read command) input.now answer) }
{
    let mut world = match read_world(alloc, input) {
        Ok(world) => world,
        Err(WorldError::Bad { line, cause }) => {
            return bad_line(alloc, command, input, line, cause);
        }
        Err(WorldError::Memory) => return Err(AllocError),
    };
    let answer = answer_of(alloc, command, &mut world, watch);
    // the program ends after its one answer, and gives back all memory at once
    mem::forget(world);
    answer
}

// That the input has a bad line.
fn bad_line(
    alloc: Global,
    command: Command,
    input: &[u8],
    line: u64,
    cause: u32,
) -> Result<Answer, AllocError>
    requires limit { length input.now ≤ 4194304 }
    requires bad { world_reading input.now ≡ Err (line, cause) }
    ensures { IfOk result (λ answer. IsAnswer (command_read command) input.now answer) }
{
    let _ = command;
    let _ = input;
    Answer::bad_input(alloc, line, cause)
}

/// The answer to a command over a world.
fn answer_of<W: Watch>(
    alloc: Global,
    command: Command,
    world: &mut World,
    watch: &W,
) -> Result<Answer, AllocError>
    requires { IsWorld world.old }
    ensures { IfOk result (λ answer. IsAnswerOf (command_read command) world.old answer) }
{
    match command {
        Command::Schedule(seed) => schedule(alloc, world, seed),
        Command::Outcomes(span) => outcomes(alloc, world, None, span, watch),
        Command::Witness(span, number) => witness(alloc, world, span, number, watch),
        Command::Losses(losses, span) => outcomes(alloc, world, Some(losses), span, watch),
        Command::Lost(losses, span, number) => lost(alloc, world, losses, span, number, watch),
    }
}

// The text of a run whose order is drawn.
fn schedule(alloc: Global, world: &World, seed: u64) -> Result<Answer, AllocError>
    requires { IsWorld world.now }
    ensures { IfOk result (λ answer. IsEndedAnswer world.now answer) }
{
    let ended = drawn(alloc, world, seed)?;
    of_run(alloc, world, &ended)
}

// The outcomes, with at most a number of losses if there is one.
fn outcomes<W: Watch>(
    alloc: Global,
    world: &mut World,
    losses: Option<u32>,
    span: Span,
    watch: &W,
) -> Result<Answer, AllocError>
    requires { IsWorld world.old }
    ensures { IfOk result (λ answer. IsOutcomesAnswer world.old losses (span_read span) answer) }
{
    let found = explore(alloc, world, sought_in(losses, span, None), watch)?;
    outcomes_of(alloc, world, &found, span.part.is_some())
}

// A history with one outcome, or that there is none.
fn witness<W: Watch>(
    alloc: Global,
    world: &mut World,
    span: Span,
    number: u32,
    watch: &W,
) -> Result<Answer, AllocError>
    requires { IsWorld world.old }
    ensures { IfOk result (λ answer. IsWithinAnswer world.old span.preemptions answer ⊎ (answer ≡ lines_answer [])) }
{
    let found = explore(alloc, world, sought_in(None, span, Some(number)), watch)?;
    match &found.witness {
        Some(ended) => of_witness(alloc, ended),
        None => Answer::nothing(alloc),
    }
}

// A world that loses frames and a history of it with one outcome, or that there is none.
fn lost<W: Watch>(
    alloc: Global,
    world: &mut World,
    losses: u32,
    span: Span,
    number: u32,
    watch: &W,
) -> Result<Answer, AllocError>
    requires { IsWorld world.old }
    ensures { IfOk result (λ answer. IsLostAnswer world.old losses span.preemptions answer ⊎ (answer ≡ lines_answer [])) }
{
    let sought = sought_in(Some(losses), span, Some(number));
    let found = explore(alloc, world, sought, watch)?;
    match &found.witness {
        Some(ended) => of_lost(alloc, world, ended),
        None => Answer::nothing(alloc),
    }
}

// What is sought.
fn sought_in(losses: Option<u32>, span: Span, number: Option<u32>) -> Sought
    ensures losses { result.losses ≡ losses }
    ensures preemptions { result.preemptions ≡ span.preemptions }
    ensures limit { result.limit ≡ span.limit }
    ensures plain { losses ≡ None → number ≡ None → parts_in (option_map part_read span.part) ≤ 1 → IsPlain result }
{
    Sought {
        losses,
        preemptions: span.preemptions,
        limit: span.limit,
        part: part_of(span.part),
        until: match number {
            Some(number) => Some(number as usize),
            None => None,
        },
    }
}

// A part of the histories, or all of them.
fn part_of(word: Option<PartWord>) -> Part
    ensures { result.parts ≡ parts_in (option_map part_read word) }
{
    match word {
        Some(PartWord { number, count }) => Part {
            rest: number.saturating_sub(1),
            parts: count,
        },
        None => Part { rest: 0, parts: 1 },
    }
}

// The answer that prints a history and its summary.
fn of_run(alloc: Global, world: &World, ended: &Ended) -> Result<Answer, AllocError>
    requires { IsEndedRun world.now ended.now }
    ensures { IfOk result (λ answer. IsEndedAnswer world.now answer) }
{
    let _ = world;
    let text = run_text(alloc, ended)?;
    Ok(Answer::new(status_of(ended.end), text))
}

// That of a witness.
#[tactic(auto, using(crate::proofs::Witnesses::witness_answer))]
fn of_witness(alloc: Global, ended: &Ended) -> Result<Answer, AllocError>
    ensures { IfOk result (λ answer. (w : AnyWorld) (p : ℕ) → IsWitness w None p ended.now
        → IsWithinAnswer w p answer ⊎ (answer ≡ lines_answer [])) }
{
    let text = run_text(alloc, ended)?;
    Ok(Answer::new(status_of(ended.end), text))
}

// That of a witness with losses, after the world that loses its frames.
#[tactic(auto, using(crate::proofs::Witnesses::lost_answer))]
fn of_lost(alloc: Global, world: &mut World, ended: &Ended) -> Result<Answer, AllocError>
    ensures { IfOk result (λ answer. (w : AnyWorld) (k p : ℕ) → IsKin w (Some k) world.old → IsWitness w (Some k) p ended.now
        → IsLostAnswer w k p answer ⊎ (answer ≡ lines_answer [])) }
{
    lose(alloc, world, ended.lost.as_slice())?;
    let text = world_and_run_text(alloc, world, ended)?;
    Ok(Answer::new(status_of(ended.end), text))
}

// The text of a world, `%history`, and the text of a run.
fn world_and_run_text(alloc: Global, world: &World, ended: &Ended) -> Result<Octets, AllocError>
    ensures { IfOk result (λ text. text
        ≡ world_file_text world.now ++ (codes "%history\n" ++ (history_text ended.now.history ++ ended.now.summary))) }
{
    let mut text = write_world(alloc, world)?;
    let run = run_text(alloc, ended)?;
    text.append(b"%history\n")?;
    text.append(run.as_slice())?;
    Ok(text)
}

// The text of a history and its summary.
fn run_text(alloc: Global, ended: &Ended) -> Result<Octets, AllocError>
    ensures { IfOk result (λ text. text ≡ history_text ended.now.history ++ ended.now.summary) }
{
    let mut text = text_of(alloc, &ended.history)?;
    text.append(ended.summary.as_slice())?;
    Ok(text)
}

// The status by how a history has ended.
fn status_of(end: Option<RunEnd>) -> u8
    ensures { result ≡ word_status (run_end_word end) }
{
    match end {
        Some(RunEnd::Done) => 0,
        Some(RunEnd::Stopped) => 3,
        Some(RunEnd::Limit) => 4,
        None => 4,
    }
}
