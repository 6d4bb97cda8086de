//! What is written on standard output, line by line.
ghost use Rattle.std.specs.Prelude.{◌≡◌, [], IfOk, OnOk, false};
ghost use Rattle.live_answers.specs.Lines as a_line;
ghost use Rattle.live_answers.specs.Speech.{Says, Writes, speech};
ghost use Rattle.live_answers.specs.Steps.{answer_of, ended_word, removed_line};
ghost use Rattle.live_answers.specs.Steps as spec;
ghost use Rattle.live_lines.specs.declared.answer.StepWord.TheVariants as a_word;

use crate::current::Current;
use crate::ghost_lines::{GhostLines, OutputLine};
use crate::output_lines::{BadInputLine, FirstLine, LastLine, RemovedLine, StepLine};
use live_lines::{AnswerHead, LiveCause, StepWord};
use net_base::{History, Octets, RunEnd};
use outside::{Sink, write_all};
use replay_views::{Ending, ending_of};
use std::alloc::{AllocError, Global};

/// A writer of lines to a sink. Once a write has failed it writes no more.
#[derive(Drop)]
pub struct Voice<K> {
    pub sink: K,
    pub failed: bool,
    pub said: GhostLines,
}

impl<K: Sink> Voice<K> {
    /// Returns a voice that has written nothing.
    pub fn new(sink: K) -> Voice<K>
        ensures sink { result.sink ≡ sink }
        ensures failed { result.failed ≡ false }
        ensures said { result.said.list ≡ [] }
    {
        Voice {
            sink,
            failed: false,
            said: GhostLines::fresh(),
        }
    }

    /// Returns whether a write has failed.
    pub fn has_failed(&self) -> bool
        ensures { result ≡ self.now.failed }
    {
        self.failed
    }

    // Says a line.
    fn say<L: OutputLine>(&mut self, alloc: Global, line: &L) -> Result<(), AllocError>
        ensures { OnOk result (Says (speech K.held self.old) (speech K.held self.new) (L.line line.now)) }
    {
        let mut text = Octets::new(alloc);
        line.put(&mut text)?;
        self.failed = write_on(&mut self.sink, self.failed, text.as_slice());
        self.said = self.said.with(line);
        Ok(())
    }

    /// Writes the first line, with the numbers of the places.
    pub fn say_places(&mut self, alloc: Global, places: &[u32]) -> Result<(), AllocError>
        ensures { OnOk result (Says (speech K.held self.old) (speech K.held self.new) (a_line.First places.now)) }
    {
        self.say(alloc, &FirstLine { places })
    }

    /// Reports an invalid line, by its number from 1.
    pub fn say_bad_line(
        &mut self,
        alloc: Global,
        number: u64,
        cause: LiveCause,
    ) -> Result<(), AllocError>
        ensures { OnOk result (Says (speech K.held self.old) (speech K.held self.new) (a_line.BadInput number cause)) }
    {
        self.say(alloc, &BadInputLine { number, cause })
    }

    /// Writes the last line: how the run has ended, and when, in ms.
    pub fn say_end(&mut self, alloc: Global, end: RunEnd, moment: u64) -> Result<(), AllocError>
        ensures { OnOk result (Says (speech K.held self.old) (speech K.held self.new) (a_line.Last end moment)) }
    {
        self.say(alloc, &LastLine { end, moment })
    }

    /// Reports that the current step of a place was removed, at moment 0.
    pub fn say_removed(&mut self, alloc: Global, place: u32) -> Result<(), AllocError>
        ensures { OnOk result (Says (speech K.held self.old) (speech K.held self.new) (removed_line place)) }
    {
        self.say(alloc, &RemovedLine { place })
    }

    /// Reports a step that is complete at a moment, in ms.
    pub fn say_complete(
        &mut self,
        alloc: Global,
        place: u32,
        moment: u64,
        step: &Current,
        history: &History,
    ) -> Result<(), AllocError>
        ensures { OnOk result (Says (speech K.held self.old) (speech K.held self.new)
            (answer_of place moment (spec.word_of step.now history.now) step.now history.now)) }
    {
        let word = word_of(alloc, step, history)?;
        self.say_step(alloc, place, moment, word, step, history)
    }

    /// Reports a step that the end of the run, at this moment in ms, left incomplete.
    pub fn say_unanswered(
        &mut self,
        alloc: Global,
        place: u32,
        moment: u64,
        step: &Current,
        history: &History,
    ) -> Result<(), AllocError>
        ensures { OnOk result (Says (speech K.held self.old) (speech K.held self.new)
            (answer_of place moment a_word.Unanswered step.now history.now)) }
    {
        self.say_step(alloc, place, moment, StepWord::Unanswered, step, history)
    }

    fn say_step(
        &mut self,
        alloc: Global,
        place: u32,
        moment: u64,
        word: StepWord,
        step: &Current,
        history: &History,
    ) -> Result<(), AllocError>
        ensures { OnOk result (Says (speech K.held self.old) (speech K.held self.new)
            (answer_of place moment word step.now history.now)) }
    {
        let head = AnswerHead {
            place,
            step: Some(step.number as u64),
            moment,
            word,
        };
        let line = StepLine {
            head,
            stamps: step.stamps.as_slice(),
            history,
        };
        self.say(alloc, &line)
    }
}

// Writes a text, unless a write has failed. Returns whether one has failed now.
fn write_on<K: Sink>(sink: &mut K, failed: bool, text: &[u8]) -> bool
    ensures { Writes failed result (K.held sink.old) (K.held sink.new) text.now }
{
    if failed {
        return true;
    }
    match write_all(sink, text) {
        Ok(()) => false,
        Err(_) => true,
    }
}

// The way in which a step became complete.
fn word_of(alloc: Global, step: &Current, history: &History) -> Result<StepWord, AllocError>
    ensures { IfOk result (λ word. word ≡ spec.word_of step.now history.now) }
{
    if let Some(word) = step.replaced {
        return Ok(word);
    }
    let ending = ending_of(alloc, step.kind, history.as_slice(), step.latest)?;
    Ok(ended(ending))
}

fn ended(ending: Option<Ending>) -> StepWord
    ensures { result ≡ ended_word ending }
{
    match ending {
        Some(ending) => {
            if ending.refused {
                return StepWord::Refused;
            }
            StepWord::Answered
        }
        None => StepWord::Answered,
    }
}
