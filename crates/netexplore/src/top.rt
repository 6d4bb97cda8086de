//! The top call: words and an input in, a status and a text out.
ghost use Rattle.std.specs.Prelude.{◌≡◌, ◌≤◌, ◌+◌, length, map, string_bytes, Some};
ghost use Rattle.netexplore.specs.Commands.{command_read};
ghost use Rattle.netexplore.specs.Ends.{Causes, Ends, IsAnswered, most_reads};
ghost use Rattle.netexplore.specs.Words.{command_of};

use crate::answers::answer_over;
use crate::command::{Command, read_words};
use net_model::{Answer, tell_answer, tell_usage};
use order_search::Watch;
use outside::{Sink, Source, TakeError, read_to_end};
use std::alloc::Global;

/// The most bytes of a world, 4 MiB.
const INPUT_LIMIT: usize = 4194304;

/// Reads the input of a command, and makes the answer.
fn read_and_answer<W: Watch, S: Source>(
    alloc: Global,
    command: Command,
    watch: &W,
    source: &mut S,
) -> Result<Answer, TakeError>
    ensures answered { IsAnswered (command_read command)
        (record {
          left = S.left source.old;
          rest = S.left source.new;
          before = S.faults source.old;
          after = S.faults source.new;
        }) result }
    ensures reads { S.reads source.new ≤ S.reads source.old + most_reads (Some (command_read command)) }
{
    let input = read_to_end(alloc, source, INPUT_LIMIT)?;
    Ok(answer_over(alloc, command, input.as_slice(), watch)?)
}

/// Does the command of these words, and gives the status that the call ends with.
pub fn netexplore<W: Watch, S: Source, K: Sink>(
    alloc: Global,
    words: &[String],
    watch: &W,
    source: &mut S,
    sink: &mut K,
) -> u8
    ensures ends { Ends (command_of (map string_bytes words.now)) result
        (record {
          left = S.left source.old;
          rest = S.left source.new;
          before = S.faults source.old;
          after = S.faults source.new;
        })
        (record {
          held = K.held sink.old;
          holds = K.held sink.new;
          before = K.faults sink.old;
          after = K.faults sink.new;
        }) }
    ensures causes { Causes (command_of (map string_bytes words.now)) result
        (record {
          left = S.left source.old;
          rest = S.left source.new;
          before = S.faults source.old;
          after = S.faults source.new;
        })
        (record {
          held = K.held sink.old;
          holds = K.held sink.new;
          before = K.faults sink.old;
          after = K.faults sink.new;
        }) }
    ensures reads { S.reads source.new ≤ S.reads source.old + most_reads (command_of (map string_bytes words.now)) }
{
    match read_words(words) {
        Some(command) => tell_answer(sink, read_and_answer(alloc, command, watch, source)),
        None => tell_usage(sink),
    }
}
