//! The top call: words and an input in, a status and a text out.
ghost use Rattle.std.specs.Prelude.{◌≡◌, ◌≢◌, ◌≤◌, ◌+◌, IfOk, length, map, string_bytes, None, Some};
ghost use Rattle.netview.specs.Commands.{command_read, view_read};
ghost use Rattle.netview.specs.Ends.{Causes, Ends, IsAnswered, most_reads};
ghost use Rattle.netview.specs.Views.{IsAnswer, input_limit, view_limit};
ghost use Rattle.netview.specs.Words.{command_of};

use crate::command::{Command, View, read_words};
use crate::notes::notes_over;
use crate::view::view_over;
use net_model::{Answer, tell_answer, tell_usage};
use outside::{Sink, Source, SureSink, SureSource, TakeError, read_to_end};
use std::alloc::{AllocError, Global};

/// The most bytes of a world with a history, 64 MiB.
const HISTORY_LIMIT: usize = 67108864;

/// The most bytes of a world with a history of which a page is made, 16 MiB.
const PAGE_LIMIT: usize = 16777216;

/// The most bytes of a bundle, 4 MiB.
const BUNDLE_LIMIT: usize = 4194304;

/// The answer to a command and its input, which is within the limit.
fn answer_over(alloc: Global, command: Command<'_>, input: &[u8]) -> Result<Answer, AllocError>
    requires { length input.now ≤ input_limit (command_read command) }
    ensures { IfOk result (λ answer. IsAnswer (command_read command.entry) input.now answer) }
{
    match command {
        Command::Show(asked) => view_over(alloc, asked, input),
        Command::Lint => notes_over(alloc, input),
    }
}

/// The most bytes that the input of a command may have.
fn limit_of(command: Command<'_>) -> usize
    ensures { result ≡ input_limit (command_read command.entry) }
{
    match command {
        Command::Show(asked) => limit_of_view(asked),
        Command::Lint => BUNDLE_LIMIT,
    }
}

/// The most bytes of the input of a view.
fn limit_of_view(asked: View<'_>) -> usize
    ensures { result ≡ view_limit (view_read asked.entry) }
{
    match asked {
        View::Page { .. } => PAGE_LIMIT,
        _ => HISTORY_LIMIT,
    }
}

/// Reads the input of a command, and makes the answer.
fn read_and_answer<S: Source>(
    alloc: Global,
    command: Command<'_>,
    source: &mut S,
) -> Result<Answer, TakeError>
    ensures answered { IsAnswered (command_read command.entry)
        (record {
          left = S.left source.old;
          rest = S.left source.new;
          before = S.faults source.old;
          after = S.faults source.new;
        }) result }
    ensures reads { S.reads source.new ≤ S.reads source.old + most_reads (Some (command_read command.entry)) }
{
    let input = read_to_end(alloc, source, limit_of(command))?;
    Ok(answer_over(alloc, command, input.as_slice())?)
}

/// Does the command of these words, and gives the status that the call ends with. A page has this head and this tail.
pub fn netview<S: Source, K: Sink>(
    alloc: Global,
    words: &[String],
    head: &[u8],
    tail: &[u8],
    source: &mut S,
    sink: &mut K,
) -> u8
    ensures ends { Ends (command_of head.now tail.now (map string_bytes words.now)) result
        (record {
          left = S.left source.old;
          rest = S.left source.new;
          before = S.faults source.old;
          after = S.faults source.new;
        })
        (record {
          held = K.held sink.old;
          holds = K.held sink.new;
          before = K.faults sink.old;
          after = K.faults sink.new;
        }) }
    ensures causes { Causes (command_of head.now tail.now (map string_bytes words.now)) result
        (record {
          left = S.left source.old;
          rest = S.left source.new;
          before = S.faults source.old;
          after = S.faults source.new;
        })
        (record {
          held = K.held sink.old;
          holds = K.held sink.new;
          before = K.faults sink.old;
          after = K.faults sink.new;
        }) }
    ensures reads { S.reads source.new ≤ S.reads source.old + most_reads (command_of head.now tail.now (map string_bytes words.now)) }
{
    match read_words(words, head, tail) {
        Some(command) => tell_answer(sink, read_and_answer(alloc, command, source)),
        None => tell_usage(sink),
    }
}

/// Does the command of these words over a source and a sink that never fail.
pub fn show_surely(
    alloc: Global,
    words: &[String],
    head: &[u8],
    tail: &[u8],
    source: &mut SureSource,
    sink: &mut SureSink,
) -> u8
    ensures ends { Ends (command_of head.now tail.now (map string_bytes words.now)) result
        (record { left = Some source.old; rest = Some source.new; before = 0; after = 0 })
        (record { held = None; holds = None; before = 0; after = 0 }) }
    ensures causes { Causes (command_of head.now tail.now (map string_bytes words.now)) result
        (record { left = Some source.old; rest = Some source.new; before = 0; after = 0 })
        (record { held = None; holds = None; before = 0; after = 0 }) }
    ensures surely { (result ≢ 6) × (result ≢ 7) }
{
    netview(alloc, words, head, tail, source, sink)
}
