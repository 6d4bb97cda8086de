//! The answers of the commands, made whole.
ghost use Rattle.std.specs.Prelude.{◌≡◌, ◌≢◌, ◌++◌, flat_map, IfOk, OnOk};
ghost use Rattle.net_model.specs.Answers as spec;
ghost use Rattle.net_model.specs.Headline.{Headline};
ghost use Rattle.net_base.specs.Cs.{Lines as ListOf, Refused};
ghost use Rattle.cs_resolver.specs.Errors.{error_number};
ghost use Rattle.net_base.specs.Legal.{IsLegal, IsTimed};
ghost use Rattle.net_base.specs.Net.{after};
ghost use Rattle.net_base.specs.Summary.{answered_steps, summary};
ghost use Rattle.net_base.specs.Transcript.{history_text};
ghost use Rattle.net_base.specs.World.{IsWorld};
ghost use Rattle.net_export.specs.Answered.{ArePlayed};
ghost use Rattle.netsh.specs.Built.{IsExported, IsRunAnswer, IsSummed};
ghost use Rattle.netsh.specs.Runs.{status_of};
ghost use Rattle.net_base.specs.Ends.{EndsSo};

use crate::answer_lines::put_sessions;
use agenda::{BookedRun, RunEnd};
use cs_resolver::CsError;
use history_reader::histories_are_wide;
use journal::ClosedBooks;
use net_base::{Lines, Octets, World};
use net_export::answers_by_caller;
use net_model::{Answer, legal_histories_are_plain, legal_histories_keep_it};
use session_script::Sessions;
use std::alloc::{AllocError, Global};
use std::thread::Threads;
use transcript::{RunStatus, printed_runs_tell, summary_by, text_by};

/// The lines of cs.
pub fn listed(alloc: Global, lines: &Lines) -> Result<Answer, AllocError>
    ensures { IfOk result (λ answer. answer ≡ spec.cs_answer (ListOf lines.now)) }
{
    let text = text_of_lines(alloc, lines)?;
    Ok(Answer::whole(text))
}

/// The lines that were found, or that there are none.
pub fn found(alloc: Global, lines: &Lines) -> Result<Answer, AllocError>
    ensures { IfOk result (λ answer. answer ≡ spec.lines_answer lines.now) }
{
    if lines.len() == 0 {
        let nothing = Answer::nothing(alloc)?;
        return Ok(nothing);
    }
    let text = text_of_lines(alloc, lines)?;
    Ok(Answer::whole(text))
}

/// The refusal of cs, unless it had no memory.
pub fn refusal(alloc: Global, error: CsError) -> Result<Answer, AllocError>
    ensures told { OnOk result (error ≢ CsError.Memory) }
    ensures value { IfOk result (λ answer. answer ≡ spec.cs_answer (Refused (error_number error))) }
{
    if error == CsError::Memory {
        return Err(AllocError);
    }
    let number = error.number();
    let text = format!(in alloc; "! {number} {}\n", refusal_text(error))?;
    Ok(Answer::new(5, Octets::from_vec(text.into_bytes())))
}

/// A history of so many entries keeps all rules.
pub fn all_kept(alloc: Global, entries: u64) -> Result<Answer, AllocError>
    ensures { IfOk result (λ answer. answer ≡ spec.all_kept entries) }
{
    let text = format!(in alloc; "ok {entries}\n")?;
    Ok(Answer::whole(Octets::from_vec(text.into_bytes())))
}

/// The text of a run: its history, made by so many workers, with its summary.
pub fn of_run<R: Threads + Sync>(
    rt: &R,
    alloc: Global,
    workers: u32,
    world: &World,
    run: &BookedRun,
) -> Result<Answer, AllocError>
    requires world { IsWorld world.now }
    requires legal { IsLegal world.now run.now.books }
    requires timed { IsTimed world.now run.now.books }
    requires answered { run.now.answered ≡ answered_steps world.now run.now.books }
    requires end { EndsSo world.now (after world.now run.now.books) run.now.end }
    ensures { IfOk result (λ answer. IsRunAnswer world.now answer) }
{
    let lines = summary_of_run(alloc, world, run)?;
    let text = text_by(rt, alloc, writers(workers, run), &run.books)?;
    of_books(world, &run.books, text, &lines, run.end)
}

/// The text of a run: its history, made by so many workers, with its summary and the answers of sessions.
pub fn of_export<R: Threads + Sync>(
    rt: &R,
    alloc: Global,
    workers: u32,
    world: &World,
    sessions: &Sessions,
    run: &BookedRun,
) -> Result<Answer, AllocError>
    requires played { ArePlayed world.now sessions.now }
    requires legal { IsLegal world.now run.now.books }
    requires timed { IsTimed world.now run.now.books }
    requires answered { run.now.answered ≡ answered_steps world.now run.now.books }
    requires headline { Headline world.now run.now.books }
    requires end { EndsSo world.now (after world.now run.now.books) run.now.end }
    ensures { IfOk result (λ answer. IsExported world.now sessions.now answer) }
{
    let all = answers_by_caller(alloc, world, sessions, &run.books)?;
    let mut text = text_by(rt, alloc, writers(workers, run), &run.books)?;
    put_ending(alloc, &mut text, world, run)?;
    put_sessions(&mut text, sessions.as_slice(), all.as_slice())?;
    let end = run.end;
    Ok(Answer::new(run_status(end), text))
}

/// How many workers make the text of a run on so many: one where a thread couldn't be had.
fn writers(workers: u32, run: &BookedRun) -> u32 {
    if run.lacks_threads { 1 } else { workers }
}

/// The summary of a run alone.
pub fn of_made_run(alloc: Global, world: &World, run: &BookedRun) -> Result<Answer, AllocError>
    requires world { IsWorld world.now }
    requires legal { IsLegal world.now run.now.books }
    requires timed { IsTimed world.now run.now.books }
    requires answered { run.now.answered ≡ answered_steps world.now run.now.books }
    requires end { EndsSo world.now (after world.now run.now.books) run.now.end }
    ensures { IfOk result (λ answer. IsSummed world.now answer) }
{
    legal_histories_keep_it();
    let text = summary_of_run(alloc, world, run)?;
    Ok(Answer::new(run_status(run.end), text))
}

// The text of a history with the lines of its summary.
fn of_books(
    world: &World,
    books: &ClosedBooks,
    mut text: Octets,
    lines: &Octets,
    end: RunEnd,
) -> Result<Answer, AllocError>
    requires world { IsWorld world.now }
    requires legal { IsLegal world.now books.now }
    requires timed { IsTimed world.now books.now }
    requires text { text ≡ history_text books.now }
    requires lines { lines.now ≡ summary world.now books.now }
    requires end { EndsSo world.now (after world.now books.now) end }
    ensures { IfOk result (λ answer. IsRunAnswer world.now answer) }
{
    legal_histories_keep_it();
    legal_histories_are_plain();
    printed_runs_tell();
    histories_are_wide(books);
    text.append(lines.as_slice())?;
    Ok(Answer::new(run_status(end), text))
}

/// Lines with a newline behind each.
fn text_of_lines(alloc: Global, lines: &Lines) -> Result<Octets, AllocError>
    ensures { IfOk result (λ text. text ≡ flat_map spec.ended lines.now) }
{
    let mut text = Octets::new(alloc);
    for line in lines.as_slice() {
        text.append(line.as_slice())?;
        text.push(b'\n')?;
    }
    Ok(text)
}

/// The summary of a run, by what it knows.
fn summary_of_run(alloc: Global, world: &World, run: &BookedRun) -> Result<Octets, AllocError>
    requires legal { IsLegal world.now run.now.books }
    requires answered { run.now.answered ≡ answered_steps world.now run.now.books }
    requires end { EndsSo world.now (after world.now run.now.books) run.now.end }
    ensures { IfOk result (λ text. text ≡ summary world.now run.now.books) }
{
    let status = RunStatus {
        answered: run.answered,
        end: Some(run.end),
    };
    summary_by(alloc, world, &run.books, status)
}

/// Adds the summary of a run.
fn put_ending(
    alloc: Global,
    text: &mut Octets,
    world: &World,
    run: &BookedRun,
) -> Result<(), AllocError>
    requires legal { IsLegal world.now run.now.books }
    requires answered { run.now.answered ≡ answered_steps world.now run.now.books }
    requires end { EndsSo world.now (after world.now run.now.books) run.now.end }
    ensures { OnOk result (text.new ≡ text.old ++ summary world.now run.now.books) }
{
    let lines = summary_of_run(alloc, world, run)?;
    text.append(lines.as_slice())
}

/// The status by how a run ends.
fn run_status(end: RunEnd) -> u8
    ensures { result ≡ status_of end }
{
    match end {
        RunEnd::Done => 0,
        RunEnd::Stopped => 3,
        RunEnd::Limit => 4,
    }
}

/// What a query is refused for, in words.
fn refusal_text(error: CsError) -> &'static str
    requires { error ≢ CsError.Memory }
    ensures { result.now ≡ spec.refusal_text (error_number error) }
{
    match error {
        CsError::Memory => unreachable!(),
        CsError::BadQuery => "bad query",
        CsError::NoNet => "no net",
        CsError::NoHost => "no host",
        CsError::NoService => "no service",
        CsError::NoValue => "no value",
    }
}
