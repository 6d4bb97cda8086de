//! One line of standard input.
ghost use Rattle.std.specs.Prelude.{◌≡◌, Ok};
ghost use Rattle.world_text.specs.WorldWords.{words_in_line};
ghost use Rattle.live_lines.specs.LiveLines as spec;
ghost use Rattle.live_lines.specs.Results.{Tells, TellsLine};

use crate::action::{Action, first_word, read_action};
use crate::cause::{LiveCause, LiveFault};
use std::alloc::Global;
use words::number_in;

// The largest number of bytes of a line, without its newline.
const LONGEST: usize = 65_536;

/// A line for a place.
#[derive(Debug, Drop)]
pub struct LiveLine {
    pub place: u32,
    pub action: Action,
}

/// Reads one line, without its newline. Returns `None` for an empty line and for a comment.
///
/// Reports the causes 9, 12 and 13. For cause 9 the first 65,537 bytes of a line are enough.
#[tactic(auto, using(crate::proofs::Results::some_err))]
pub fn read_line(alloc: Global, line: &[u8]) -> Result<Option<LiveLine>, LiveFault>
    ensures { Tells result (spec.read_line line.now) }
{
    if LONGEST < line.len() {
        return Err(LiveFault::Cause(LiveCause::TooLong));
    }
    if is_ignored(line) {
        return Ok(None);
    }
    let line = read_words(alloc, line)?;
    Ok(Some(line))
}

// Returns true for an empty line and for a comment.
fn is_ignored(line: &[u8]) -> bool
    ensures { result ≡ spec.is_ignored line.now }
{
    line.is_empty() || line[0] == b'#'
}

// Reads the number of a place, and what the line asks of it.
#[tactic(auto, using(crate::proofs::Results::placed_err, crate::proofs::Results::placed_ok))]
fn read_words(alloc: Global, line: &[u8]) -> Result<LiveLine, LiveFault>
    ensures { TellsLine result (spec.line_of (words_in_line line.now)) }
{
    let (place, text) = first_word(line);
    let Some(text) = text else {
        return Err(LiveFault::Cause(LiveCause::UnknownWord));
    };
    let action = read_action(alloc, text)?;
    placed(place, action)
}

// Returns the line if the word is the number of a place.
fn placed(word: &[u8], action: Action) -> Result<LiveLine, LiveFault>
    ensures { TellsLine result (spec.placed (Ok action) (spec.place_in word.now)) }
{
    match number_in(0, 31, word) {
        Some(place) => Ok(LiveLine {
            place: place as u32,
            action,
        }),
        None => Err(LiveFault::Cause(LiveCause::WrongArgument)),
    }
}
