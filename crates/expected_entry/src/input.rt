//! What was expected in an input that `check` refuses.
ghost use Rattle.std.specs.Prelude.{◌≡◌, slice_get, IfOk, drop, take};
ghost use Rattle.std.specs.Option.{option_map};
ghost use Rattle.net_base.specs.declared.history.Entry.{Entry as AnyEntry};
ghost use Rattle.net_base.specs.World.{IsWorld};
ghost use Rattle.expected_entry.specs.Expected.{HasFault, IsExpectedIn, IsExpectedOf, line_after};

use crate::expecting::expected_entry;
use history_reader::read_transcript;
use net_base::{Entry, History, Octets, World};
use netcheck::{CheckError, check, split};
use plain_runner::summary_of;
use std::alloc::{AllocError, Global};
use transcript::text_of;
use world_file::read_world;

/// The most bytes of an input that is played again, 4 MiB.
const MOST: usize = 4_194_304;

/// The entry or the summary that was expected.
#[derive(Debug, Drop)]
pub enum Expected {
    /// The line of an entry, with its newline.
    Entry(Octets),
    /// The four lines of a summary.
    Summary(Octets),
}

impl Expected {
    /// Returns its text.
    pub fn text(&self) -> &[u8] {
        match self {
            Expected::Entry(text) | Expected::Summary(text) => text.as_slice(),
        }
    }
}

/// Returns what was expected in an input of a world, the line `%history` and a history: the entry in the place of the first one that breaks a rule, or the
/// summary if no entry does. Returns nothing if the input has a bad line or more than 4 MiB, or if the run has ended before that entry.
pub fn expected_in(alloc: Global, input: &[u8]) -> Result<Option<Expected>, AllocError>
    ensures { IfOk result (IsExpectedIn input.now) }
{
    if MOST < input.len() {
        return Ok(None);
    }
    let Ok(parts) = split(input) else {
        return Ok(None);
    };
    let Ok(world) = read_world(alloc, parts.world) else {
        return Ok(None);
    };
    let Ok((history, _)) = read_transcript(alloc, parts.history) else {
        return Ok(None);
    };
    expected_of(alloc, &world, history)
}

// What was expected in a history of a world.
fn expected_of(
    alloc: Global,
    world: &World,
    history: History,
) -> Result<Option<Expected>, AllocError>
    requires { IsWorld world.now }
    ensures { IfOk result (IsExpectedOf world.now history) }
{
    match check(alloc, world, &history) {
        Ok(()) => Ok(Some(Expected::Summary(summary_of(alloc, world, &history)?))),
        Err(CheckError::Fault { stamp, .. }) => expected_at(alloc, world, history, stamp as usize),
        Err(CheckError::Memory) => Err(AllocError),
    }
}

// What was expected in the place of the entry with this stamp, which is the first that breaks a rule.
fn expected_at(
    alloc: Global,
    world: &World,
    history: History,
    stamp: usize,
) -> Result<Option<Expected>, AllocError>
    requires world { IsWorld world.now }
    requires fault { HasFault world.now history stamp }
    ensures { IfOk result (IsExpectedOf world.now history) }
{
    let Some(wanted) = caller_at(&history, stamp) else {
        return Ok(None);
    };
    let found = expected_entry(alloc, world, &history.as_slice()[..stamp], wanted)?;
    match found {
        Some(entry) => Ok(Some(Expected::Entry(line_of(alloc, history, stamp, entry)?))),
        None => Ok(None),
    }
}

// The caller of an entry.
fn caller_at(history: &History, stamp: usize) -> Option<u32>
    ensures { result ≡ option_map (λ (x : AnyEntry). x.caller) (slice_get history.now stamp) }
{
    match history.as_slice().get(stamp) {
        Some(entry) => Some(entry.caller),
        None => None,
    }
}

// The line that an entry adds to the text of the history before this stamp.
fn line_of(
    alloc: Global,
    history: History,
    stamp: usize,
    entry: Entry,
) -> Result<Octets, AllocError>
    ensures { IfOk result (λ text. text ≡ line_after (take stamp history) entry) }
{
    let mut entries = history.into_vec();
    entries.truncate(stamp);
    let mut history = History::from_vec(entries);
    let before = text_of(alloc, &history)?.len();
    history.push(entry)?;
    let text = text_of(alloc, &history)?;
    Octets::from_slice(alloc, from(text.as_slice(), before))
}

// The bytes from a place on.
fn from(text: &[u8], place: usize) -> &[u8]
    ensures { result.now ≡ drop place text.now }
{
    text.get(place..).unwrap_or(b"")
}
