//! The lines that a voice writes.
ghost use Rattle.std.specs.Prelude.{◌≡◌, ◌++◌, OnOk, slice_get};
ghost use Rattle.live_lines.specs.AnswerLines.{replies_text};
ghost use Rattle.live_answers.specs.Lines as a_line;
ghost use Rattle.live_answers.specs.Steps.{removed_line, replies_at, reply_at};

use crate::ghost_lines::OutputLine;
use live_lines::{
    AnswerHead, LiveCause, StepWord, put_bad_line, put_end, put_head, put_places, put_reply_after,
};
use net_base::{History, Octets, RunEnd};
use std::alloc::AllocError;

/// The first line, with the numbers of the places.
#[derive(Clone, Copy)]
pub struct FirstLine<'a> {
    pub places: &'a [u32],
}

impl OutputLine for FirstLine<'_> {
    ghost line = { λ l. a_line.First l.places.now };

    fn put(&self, out: &mut Octets) -> Result<(), AllocError> {
        put_places(out, self.places)
    }
}

/// The line of an invalid input line, by its number from 1.
#[derive(Clone, Copy)]
pub struct BadInputLine {
    pub number: u64,
    pub cause: LiveCause,
}

impl OutputLine for BadInputLine {
    ghost line = { λ l. a_line.BadInput l.number l.cause };

    fn put(&self, out: &mut Octets) -> Result<(), AllocError> {
        put_bad_line(out, self.number, self.cause)
    }
}

/// The last line: how the run has ended, and when, in ms.
#[derive(Clone, Copy)]
pub struct LastLine {
    pub end: RunEnd,
    pub moment: u64,
}

impl OutputLine for LastLine {
    ghost line = { λ l. a_line.Last l.end l.moment };

    fn put(&self, out: &mut Octets) -> Result<(), AllocError> {
        put_end(out, self.end, self.moment)
    }
}

/// The line of a step that was removed, at moment 0.
#[derive(Clone, Copy)]
pub struct RemovedLine {
    pub place: u32,
}

impl OutputLine for RemovedLine {
    ghost line = { λ l. removed_line l.place };

    fn put(&self, out: &mut Octets) -> Result<(), AllocError> {
        let head = AnswerHead {
            place: self.place,
            step: None,
            moment: 0,
            word: StepWord::Cancelled,
        };
        put_head(out, head)?;
        out.push(b'\n')
    }
}

/// The line of a step, with the replies of the entries with these stamps.
#[derive(Clone, Copy)]
pub struct StepLine<'a> {
    pub head: AnswerHead,
    pub stamps: &'a [usize],
    pub history: &'a History,
}

impl OutputLine for StepLine<'_> {
    ghost line = { λ l. a_line.Answer l.head (replies_at l.history.now l.stamps.now) };

    fn put(&self, out: &mut Octets) -> Result<(), AllocError> {
        put_head(out, self.head)?;
        put_replies(out, self.stamps, self.history)?;
        out.push(b'\n')
    }
}

fn put_replies(line: &mut Octets, stamps: &[usize], history: &History) -> Result<(), AllocError>
    ensures { OnOk result (line.new ≡ line.old ++ replies_text (replies_at history.now stamps.now)) }
{
    for stamp in stamps {
        put_reply_at(line, *stamp, history)?;
    }
    Ok(())
}

fn put_reply_at(line: &mut Octets, stamp: usize, history: &History) -> Result<(), AllocError>
    ensures { OnOk result (line.new ≡ line.old ++ replies_text (reply_at (slice_get history.now stamp))) }
{
    match history.as_slice().get(stamp) {
        Some(entry) => put_reply_after(line, &entry.reply),
        None => Ok(()),
    }
}
