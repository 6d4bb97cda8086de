//! The text of a history, line by line.
ghost use Rattle.std.specs.Prelude.{◌≡◌, ◌+◌, ◌<◌, ◌^◌, IfOk, IfErr, List, ℕ, Option, Some};
ghost use Rattle.net_base.specs.declared.history.Entry.{Entry};
ghost use Rattle.history_reader.specs.LineReading as spec;
ghost use Rattle.history_reader.specs.Spelling.{SpellsHistory, IsBadText};
ghost use Rattle.history_reader.specs.Told.{Tells, TellsBad, Refuses};

use crate::cursor::{Words, cut_line};
use crate::entries::read_entry;
use crate::fault::LineError;
use crate::summary::{is_numeral, is_steps, read_summary};
use net_base::{Entry, History, Octets};
use std::alloc::Global;
use words::number_in;

/// The history that a text spells, with the summary behind it, if there is one, or the first bad line. It goes once
/// through the bytes.
#[tactic(auto, using(crate::proofs::Told::found_by, crate::proofs::Told::only_by, crate::proofs::Told::refused_by, crate::proofs::Told::bad_by))]
pub fn read_transcript(alloc: Global, bytes: &[u8]) -> Result<(History, Option<Octets>), LineError>
    ensures found { IfOk result (λ read. SpellsHistory bytes.now read.0 read.1) }
    ensures only { (h : List Entry) (summary : Option (List ℕ)) → SpellsHistory bytes.now h summary
        → Tells h summary result }
    ensures refused { IfErr result (Refuses (IsBadText bytes.now)) }
    ensures bad { (line cause : ℕ) → IsBadText bytes.now line cause → TellsBad line cause result }
{
    read_lines(alloc, bytes)
}

#[tactic(auto, using(crate::proofs::Readings::entry_on, crate::proofs::Readings::refused_tells, crate::proofs::Readings::summary_on, crate::proofs::Readings::fault_on, crate::proofs::Readings::end_on, crate::proofs::Readings::unended_on, crate::proofs::Loops::shorter))]
fn read_lines(alloc: Global, bytes: &[u8]) -> Result<(History, Option<Octets>), LineError>
    ensures ok { IfOk result (λ read. spec.reading_line bytes.now ≡ spec.Whole read.0 read.1) }
    ensures bad { IfErr result (λ e. spec.TellsReading e (spec.reading_line bytes.now)) }
{
    let mut history = History::new(alloc);
    let mut rest = bytes;
    while let Some((line, behind)) = cut_line(rest) {
        if is_steps(line) {
            read_summary(history.len() as u64, rest)?;
            let summary = Octets::from_slice(alloc, rest)?;
            return Ok((history, Some(summary)));
        }
        match read_line(alloc, history.len() as u64, line) {
            Ok(entry) => history.push(entry)?,
            Err(error) => return Err(error),
        }
        rest = behind;
    }
    if rest.is_empty() {
        Ok((history, None))
    } else {
        Err(LineError::Bad {
            line: history.len() as u64 + 1,
            cause: 41,
        })
    }
}

/// The entry of a line, behind so many.
fn read_line(alloc: Global, stamp: u64, line: &[u8]) -> Result<Entry, LineError>
    requires room { stamp + 1 < 2 ^ 64 }
    ensures ok { IfOk result (λ x. spec.entry_verdict stamp line.now ≡ spec.Good x) }
    ensures bad { IfErr result (λ e. spec.TellsVerdict e stamp (spec.entry_verdict stamp line.now)) }
{
    let words = Words::of(line, b' ');
    let Some((word, words)) = words.next() else {
        return Err(LineError::Bad {
            line: stamp + 1,
            cause: 41,
        });
    };
    match read_entry(alloc, &words)? {
        Some(entry) => stamped(stamp, word, entry),
        None => Err(LineError::Bad {
            line: stamp + 1,
            cause: 41,
        }),
    }
}

/// An entry by the word of its stamp.
fn stamped(stamp: u64, word: &[u8], entry: Entry) -> Result<Entry, LineError>
    requires room { stamp + 1 < 2 ^ 64 }
    ensures ok { IfOk result (λ x. spec.line_stamped stamp word.now (Some entry) ≡ spec.Good x) }
    ensures bad { IfErr result (λ e. spec.TellsVerdict e stamp (spec.line_stamped stamp word.now (Some entry))) }
{
    if is_stamp(stamp, word) {
        return Ok(entry);
    }
    Err(LineError::Bad {
        line: stamp + 1,
        cause: cause_of(word),
    })
}

fn is_stamp(stamp: u64, word: &[u8]) -> bool
    ensures { result ≡ spec.is_stamp stamp word.now }
{
    match number_in(0, u64::MAX, word) {
        Some(number) => number == stamp,
        None => false,
    }
}

/// The cause of a line that is bad by the word of its stamp alone.
fn cause_of(word: &[u8]) -> u32
    ensures { result ≡ spec.stamp_cause word.now }
{
    if is_numeral(word) { 42 } else { 41 }
}
