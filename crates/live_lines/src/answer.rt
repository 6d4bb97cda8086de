//! The line of a complete step.
ghost use Rattle.std.specs.Prelude.{◌≡◌, ◌++◌, ◌∷◌, [], OnOk};
ghost use Rattle.net_base.specs.Transcript.{number_or_dash, spaced};
ghost use Rattle.live_lines.specs.AnswerLines as spec;

use net_base::{Octets, Reply};
use std::alloc::AllocError;
use transcript::put_reply;
use words::{put_decimal, put_number, put_word};

/// The way in which a step became complete.
#[derive(Clone, Copy, Debug, PartialEq, Eq)]
pub enum StepWord {
    /// The step did what it says.
    Answered,
    /// The step failed.
    Refused,
    /// The deadline came first: `until` replaces the step.
    Late,
    /// A `cancel` withdrew the step.
    Cancelled,
    /// The run ended before the step was complete.
    Unanswered,
}

/// The words of an answer line before the replies.
#[derive(Clone, Copy, Debug, PartialEq, Eq)]
pub struct AnswerHead {
    /// The number of the place.
    pub place: u32,
    /// The number of the step in its script, from 0. `None` if the step was removed.
    pub step: Option<u64>,
    /// When the step was complete, in ms.
    pub moment: u64,
    pub word: StepWord,
}

/// Writes the line of a step: `C K M WORD = REPLY ..`
pub fn put_answer(out: &mut Octets, head: AnswerHead, replies: &[Reply]) -> Result<(), AllocError>
    ensures { OnOk result (out.new ≡ out.old ++ spec.answer_text head replies.now) }
{
    put_head(out, head)?;
    put_replies(out, replies)?;
    out.push(b'\n')
}

/// Writes `C K M WORD`.
pub fn put_head(out: &mut Octets, head: AnswerHead) -> Result<(), AllocError>
    ensures { OnOk result (out.new ≡ out.old ++ spec.head_text head) }
{
    put_decimal(out, u64::from(head.place))?;
    put_step(out, head.step)?;
    put_number(out, head.moment)?;
    put_word(out, step_word(head.word))
}

fn put_step(out: &mut Octets, step: Option<u64>) -> Result<(), AllocError>
    ensures { OnOk result (out.new ≡ out.old ++ spaced (number_or_dash step ∷ [])) }
{
    match step {
        Some(step) => put_number(out, step),
        None => put_word(out, b"-"),
    }
}

fn step_word(word: StepWord) -> &'static [u8]
    ensures { result.now ≡ spec.step_word word }
{
    match word {
        StepWord::Answered => b"answered",
        StepWord::Refused => b"refused",
        StepWord::Late => b"late",
        StepWord::Cancelled => b"cancelled",
        StepWord::Unanswered => b"unanswered",
    }
}

fn put_replies(out: &mut Octets, replies: &[Reply]) -> Result<(), AllocError>
    ensures { OnOk result (out.new ≡ out.old ++ spec.replies_text replies.now) }
{
    for reply in replies {
        put_reply_after(out, reply)?;
    }
    Ok(())
}

/// Writes ` = REPLY`.
pub fn put_reply_after(out: &mut Octets, reply: &Reply) -> Result<(), AllocError>
    ensures { OnOk result (out.new ≡ out.old ++ spec.reply_text reply.now) }
{
    put_word(out, b"=")?;
    put_reply(out, reply)
}
