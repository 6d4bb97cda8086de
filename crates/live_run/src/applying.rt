//! A line of input is read, and applied to its place.
ghost use Rattle.std.specs.Prelude.{◌≡◌, OnOk};
ghost use Rattle.live_answers.specs.Speech.{speech};
ghost use Rattle.live_run.specs.Hearing.{SaysNoAnswer};
ghost use Rattle.live_run.specs.LiveWorlds.{Narrows};

use crate::places::Places;
use live_answers::Voice;
use live_lines::{
    Action, LineReader, LiveCause, LiveFault, LiveLine, cause_at, read_line, read_steps_are_steps,
};
use outside::{Sink, Source};
use std::alloc::{AllocError, Global};

/// Reads a line, and applies it. Returns the script whose current step a `cancel` withdraws. At the end of the input all places end.
pub fn apply_next<S: Source, K: Sink>(
    alloc: Global,
    places: &mut Places,
    reader: &mut LineReader<'_, S>,
    voice: &mut Voice<K>,
) -> Result<Option<usize>, AllocError>
    ensures narrows { Narrows places.old.grows.items places.new.grows.items }
    ensures deadlines { places.new.deadlines ≡ places.old.deadlines }
    ensures currents { places.new.currents ≡ places.old.currents }
    ensures says { OnOk result (SaysNoAnswer (speech K.held voice.old) (speech K.held voice.new)) }
{
    match reader.next(alloc)? {
        Some(line) => apply(alloc, places, line.as_slice(), reader.number(), voice),
        None => {
            places.end_all();
            Ok(None)
        }
    }
}

// Applies a line, or reports that it is invalid. Returns the script whose current step it withdraws.
fn apply<K: Sink>(
    alloc: Global,
    places: &mut Places,
    text: &[u8],
    number: u64,
    voice: &mut Voice<K>,
) -> Result<Option<usize>, AllocError>
    ensures narrows { Narrows places.old.grows.items places.new.grows.items }
    ensures deadlines { places.new.deadlines ≡ places.old.deadlines }
    ensures currents { places.new.currents ≡ places.old.currents }
    ensures says { OnOk result (SaysNoAnswer (speech K.held voice.old) (speech K.held voice.new)) }
{
    read_steps_are_steps();
    let read = match read_line(alloc, text) {
        Ok(read) => read,
        Err(LiveFault::Cause(cause)) => return refuse(alloc, number, cause, voice),
        Err(LiveFault::Memory) => return Err(AllocError),
    };
    let Some(line) = read else {
        return Ok(None);
    };
    let state = places.state(line.place);
    if let Some(cause) = cause_at(&line, state, places.accepted, text.len()) {
        return refuse(alloc, number, cause, voice);
    }
    let LiveLine { place, action } = line;
    match action {
        Action::Step { by, step } => {
            places.accept(place, step, by, text.len())?;
            Ok(None)
        }
        Action::End => {
            places.end(place as usize);
            Ok(None)
        }
        Action::Cancel => Ok(Some(place as usize)),
    }
}

// Reports an invalid line.
fn refuse<K: Sink>(
    alloc: Global,
    number: u64,
    cause: LiveCause,
    voice: &mut Voice<K>,
) -> Result<Option<usize>, AllocError>
    ensures { OnOk result (SaysNoAnswer (speech K.held voice.old) (speech K.held voice.new)) }
{
    voice.say_bad_line(alloc, number, cause)?;
    Ok(None)
}
