//! The top call: words and an input in, a status and a text out.
ghost use Rattle.std.specs.Prelude.{◌≡◌, ◌≢◌, ◌<◌, ◌≤◌, ◌↔◌, ◌⊎◌, ◌+◌, ℕ, map, string_bytes, length, IsNone, IfNone, IfSome, IfOk, IsTrue, Some, None, false};
ghost use Rattle.net_model.specs.Words.{Big as AnyBig, Command as AnyCommand, Export as AnyExport, Run as AnyRun, command_of, reads_input, words_wait};
ghost use Rattle.net_model.specs.Calls.{Intake, IsUnread};
ghost use Rattle.netsh.specs.Ends.{Causes, Ends, EndsWell, HasGood, IsAnswered, most_reads};
ghost use Rattle.net_model.specs.Answers.{input_limit};
ghost use Rattle.netsh.specs.Built.{IsAnswer};
ghost use Rattle.netsh.specs.Commands.{question_read};

use crate::command::{Command, Question, has_input, read_words};
use crate::{
    big, check, cs, dns, export_over, make, query_beside, query_tuples, run_over, translate,
    values_are_answers,
};
use net_model::{Answer, tell_answer, tell_usage};
use outside::{Gate, Sink, Source, SureSink, SureSource, TakeError, read_to_end};
use std::alloc::{AllocError, Global};
use std::sync::Wait;
use std::thread::Threads;

/// The most bytes of an input, 4 MiB.
const INPUT_LIMIT: usize = 4194304;

/// The most bytes of an input that has a run's output in it, 64 MiB.
const HISTORY_LIMIT: usize = 67108864;

/// The answer to a command that never waits and to its input, if it has one, which is within the limit.
fn answer_over(alloc: Global, question: Question<'_>, input: &[u8]) -> Result<Answer, AllocError>
    requires { length input.now ≤ input_limit (question_read question) }
    ensures { IfOk result (λ answer. IsAnswer (question_read question.entry) input.now answer) }
{
    values_are_answers();
    match question {
        Question::Cs(sys, query) => cs(alloc, sys, query, input),
        Question::Tuples(attr, value) => query_tuples(alloc, attr, value, input),
        Question::Beside(attr, value, other) => query_beside(alloc, attr, value, other, input),
        Question::Dns(word) => dns(alloc, word, input),
        Question::Make(messages) => make(alloc, messages),
        Question::Check => check(alloc, input),
        Question::Translate => translate(alloc, input),
    }
}

/// The most bytes that the input of a command that never waits may have.
fn limit_of(question: Question<'_>) -> usize
    ensures { result ≡ input_limit (question_read question.entry) }
{
    match question {
        Question::Cs(_, _) => INPUT_LIMIT,
        Question::Tuples(_, _) => INPUT_LIMIT,
        Question::Beside(_, _, _) => INPUT_LIMIT,
        Question::Dns(_) => INPUT_LIMIT,
        Question::Make(_) => INPUT_LIMIT,
        Question::Check => HISTORY_LIMIT,
        Question::Translate => INPUT_LIMIT,
    }
}

/// Reads the input of a command that never waits, where it has one, and makes the answer.
fn read_and_answer<S: Source>(
    alloc: Global,
    question: Question<'_>,
    source: &mut S,
) -> Result<Answer, TakeError>
    ensures answered { IsAnswered (question_read question.entry)
        (record {
          left = S.left source.old;
          rest = S.left source.new;
          before = S.faults source.old;
          after = S.faults source.new;
        }) result }
    ensures reads { S.reads source.new ≤ S.reads source.old + most_reads (Some (question_read question.entry)) }
{
    if !has_input(question) {
        return Ok(answer_over(alloc, question, b"")?);
    }
    let input = read_to_end(alloc, source, limit_of(question))?;
    Ok(answer_over(alloc, question, input.as_slice())?)
}

/// Reads a world, and runs it.
fn read_and_run<R: Threads + Wait + Sync, S: Source, G: Gate + Sync>(
    rt: &R,
    alloc: Global,
    workers: u32,
    source: &mut S,
    gate: &G,
) -> Result<Answer, TakeError>
    requires some { 0 < workers }
    requires few { workers ≤ 16 }
    ensures answered { IsAnswered (AnyRun workers)
        (record {
          left = S.left source.old;
          rest = S.left source.new;
          before = S.faults source.old;
          after = S.faults source.new;
        }) result }
    ensures reads { S.reads source.new ≤ S.reads source.old + most_reads (Some (AnyRun workers)) }
{
    let input = read_to_end(alloc, source, INPUT_LIMIT)?;
    Ok(run_over(rt, alloc, workers, input.as_slice(), gate)?)
}

/// Reads a world with sessions, runs it, and answers its sessions.
fn read_and_export<R: Threads + Wait + Sync, S: Source, G: Gate + Sync>(
    rt: &R,
    alloc: Global,
    workers: u32,
    source: &mut S,
    gate: &G,
) -> Result<Answer, TakeError>
    requires some { 0 < workers }
    requires few { workers ≤ 16 }
    ensures answered { IsAnswered (AnyExport workers)
        (record {
          left = S.left source.old;
          rest = S.left source.new;
          before = S.faults source.old;
          after = S.faults source.new;
        }) result }
    ensures reads { S.reads source.new ≤ S.reads source.old + most_reads (Some (AnyExport workers)) }
{
    let input = read_to_end(alloc, source, INPUT_LIMIT)?;
    Ok(export_over(rt, alloc, workers, input.as_slice(), gate)?)
}

/// Runs the made world of so many messages. Nothing is read.
fn run_made<R: Threads + Wait + Sync, G: Gate + Sync>(
    rt: &R,
    alloc: Global,
    messages: u32,
    gate: &G,
) -> Result<Answer, TakeError>
    ensures { (intake : Intake) → IsUnread intake → IsAnswered (AnyBig messages) intake result }
{
    Ok(big(rt, alloc, messages, gate)?)
}

/// What became of words.
enum Asked {
    /// They were answered, with this status.
    Answered(u8),
    /// They ask for a run on so many workers, which is still to do.
    Run(u32),
    /// They ask for a run of the made world of so many messages, which is still to do.
    Big(u32),
    /// They ask for a run over a world with sessions on so many workers, which is still to do.
    Export(u32),
}

/// Does the command of these words, unless it may wait, or tells the usage.
fn ask_words<S: Source, K: Sink>(
    alloc: Global,
    words: &[String],
    source: &mut S,
    sink: &mut K,
) -> Asked
    ensures answered { (status : ℕ) → result ≡ Asked.Answered status
        → Ends (command_of (map string_bytes words.now)) status
        (record {
          left = S.left source.old;
          rest = S.left source.new;
          before = S.faults source.old;
          after = S.faults source.new;
        })
        (record {
          held = K.held sink.old;
          holds = K.held sink.new;
          before = K.faults sink.old;
          after = K.faults sink.new;
        })
        × (words_wait (command_of (map string_bytes words.now)) ≡ false) }
    ensures run { (workers : ℕ) → result ≡ Asked.Run workers
        → (command_of (map string_bytes words.now) ≡ Some (AnyRun workers))
        × (source.new ≡ source.old) × (sink.new ≡ sink.old) }
    ensures big { (messages : ℕ) → result ≡ Asked.Big messages
        → (command_of (map string_bytes words.now) ≡ Some (AnyBig messages))
        × (source.new ≡ source.old) × (sink.new ≡ sink.old) }
    ensures export { (workers : ℕ) → result ≡ Asked.Export workers
        → (command_of (map string_bytes words.now) ≡ Some (AnyExport workers))
        × (source.new ≡ source.old) × (sink.new ≡ sink.old) }
    ensures reads { S.reads source.new ≤ S.reads source.old + most_reads (command_of (map string_bytes words.now)) }
{
    match read_words(words) {
        Some(Command::Question(question)) => {
            Asked::Answered(tell_answer(sink, read_and_answer(alloc, question, source)))
        }
        Some(Command::Run(workers)) => Asked::Run(workers),
        Some(Command::Big(messages)) => Asked::Big(messages),
        Some(Command::Export(workers)) => Asked::Export(workers),
        None => Asked::Answered(tell_usage(sink)),
    }
}

/// Does the command of these words, unless it may wait.
pub fn ask<S: Source, K: Sink>(
    alloc: Global,
    words: &[String],
    source: &mut S,
    sink: &mut K,
) -> Option<u8>
    ensures waits { IsNone result ↔ IsTrue (words_wait (command_of (map string_bytes words.now))) }
    ensures untouched { IfNone result ((source.new ≡ source.old) × (sink.new ≡ sink.old)) }
    ensures ends { IfSome result (λ status. Ends (command_of (map string_bytes words.now)) status
        (record {
          left = S.left source.old;
          rest = S.left source.new;
          before = S.faults source.old;
          after = S.faults source.new;
        })
        (record {
          held = K.held sink.old;
          holds = K.held sink.new;
          before = K.faults sink.old;
          after = K.faults sink.new;
        })) }
    ensures causes { IfSome result (λ status. Causes (command_of (map string_bytes words.now)) status
        (record {
          left = S.left source.old;
          rest = S.left source.new;
          before = S.faults source.old;
          after = S.faults source.new;
        })
        (record {
          held = K.held sink.old;
          holds = K.held sink.new;
          before = K.faults sink.old;
          after = K.faults sink.new;
        })) }
    ensures reads { S.reads source.new ≤ S.reads source.old + most_reads (command_of (map string_bytes words.now)) }
{
    match ask_words(alloc, words, source, sink) {
        Asked::Answered(status) => Some(status),
        Asked::Run(_) | Asked::Big(_) | Asked::Export(_) => None,
    }
}

/// Does the command of these words. It waits only where the command runs hosts.
pub fn netsh<R: Threads + Wait + Sync, S: Source, K: Sink, G: Gate + Sync>(
    rt: &R,
    alloc: Global,
    words: &[String],
    source: &mut S,
    sink: &mut K,
    gate: &G,
) -> u8
    ensures ends { Ends (command_of (map string_bytes words.now)) result
        (record {
          left = S.left source.old;
          rest = S.left source.new;
          before = S.faults source.old;
          after = S.faults source.new;
        })
        (record {
          held = K.held sink.old;
          holds = K.held sink.new;
          before = K.faults sink.old;
          after = K.faults sink.new;
        }) }
    ensures causes { Causes (command_of (map string_bytes words.now)) result
        (record {
          left = S.left source.old;
          rest = S.left source.new;
          before = S.faults source.old;
          after = S.faults source.new;
        })
        (record {
          held = K.held sink.old;
          holds = K.held sink.new;
          before = K.faults sink.old;
          after = K.faults sink.new;
        }) }
    ensures reads { S.reads source.new ≤ S.reads source.old + most_reads (command_of (map string_bytes words.now)) }
{
    match ask_words(alloc, words, source, sink) {
        Asked::Answered(status) => status,
        Asked::Run(workers) => tell_answer(sink, read_and_run(rt, alloc, workers, source, gate)),
        Asked::Big(messages) => tell_answer(sink, run_made(rt, alloc, messages, gate)),
        Asked::Export(workers) => tell_answer(
            sink,
            read_and_export(rt, alloc, workers, source, gate),
        ),
    }
}

/// Does the command of these words over a source and a sink that never fail.
pub fn ask_surely(
    alloc: Global,
    words: &[String],
    source: &mut SureSource,
    sink: &mut SureSink,
) -> Option<u8>
    ensures waits { IsNone result ↔ IsTrue (words_wait (command_of (map string_bytes words.now))) }
    ensures untouched { IfNone result ((source.new ≡ source.old) × (sink.new ≡ sink.old)) }
    ensures ends { IfSome result (λ status. Ends (command_of (map string_bytes words.now)) status
        (record { left = Some source.old; rest = Some source.new; before = 0; after = 0 })
        (record { held = None; holds = None; before = 0; after = 0 })) }
    ensures causes { IfSome result (λ status. Causes (command_of (map string_bytes words.now)) status
        (record { left = Some source.old; rest = Some source.new; before = 0; after = 0 })
        (record { held = None; holds = None; before = 0; after = 0 })) }
    ensures surely { IfSome result (λ status. (status ≢ 6) × (status ≢ 7)) }
{
    ask(alloc, words, source, sink)
}

/// Does the command of these words, whichever it is, over a source and a sink that never fail.
pub fn netsh_surely<R: Threads + Wait + Sync, G: Gate + Sync>(
    rt: &R,
    alloc: Global,
    words: &[String],
    source: &mut SureSource,
    sink: &mut SureSink,
    gate: &G,
) -> u8
    ensures ends { Ends (command_of (map string_bytes words.now)) result
        (record { left = Some source.old; rest = Some source.new; before = 0; after = 0 })
        (record { held = None; holds = None; before = 0; after = 0 }) }
    ensures causes { Causes (command_of (map string_bytes words.now)) result
        (record { left = Some source.old; rest = Some source.new; before = 0; after = 0 })
        (record { held = None; holds = None; before = 0; after = 0 }) }
    ensures surely { (result ≢ 6) × (result ≢ 7) }
    ensures well { (asked : AnyCommand) → command_of (map string_bytes words.now) ≡ Some asked
        → HasGood (reads_input asked) asked (record {
          left = Some source.old;
          rest = Some source.new;
          before = 0;
          after = 0;
        })
        → EndsWell asked result ⊎ (result ≡ 8) }
{
    netsh(rt, alloc, words, source, sink, gate)
}
