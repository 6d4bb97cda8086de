//! Answers, and how they are told.
ghost use Rattle.std.specs.Prelude.{◌≡◌, [], Err, IfOk};
ghost use Rattle.net_model.specs.Calls.{Told};
ghost use Rattle.net_model.specs.Ends.{IsTold};
ghost use Rattle.net_model.specs.Answers as spec;

use net_base::Octets;
use outside::{Failed, Sink, TakeError, write_all};
use std::alloc::{AllocError, Global};
use std::marker::Model;

/// A status and a text.
#[derive(Debug, Drop)]
pub struct Answer {
    status: u8,
    text: Octets,
}

impl Model for Answer {
    ghost use Rattle.net_model.specs.Answers as spec;

    ghost Value = { spec.Answer };

    ghost view = { λ answer. record { status = answer.status; text = answer.text } };
}

impl Answer {
    /// A text with a status.
    pub fn new(status: u8, text: Octets) -> Answer
        ensures { result ≡ record { status = status; text = text } }
    {
        Answer { status, text }
    }

    /// A text that is what was asked for.
    pub fn whole(text: Octets) -> Answer
        ensures { result ≡ record { status = 0; text = text } }
    {
        Answer { status: 0, text }
    }

    /// Nothing was found.
    pub fn nothing(alloc: Global) -> Result<Answer, AllocError>
        ensures { IfOk result (λ answer. answer ≡ spec.lines_answer []) }
    {
        let text = Octets::from_slice(alloc, b"! no answer\n")?;
        Ok(Answer { status: 5, text })
    }

    /// The input has a bad line, the first one, and its least cause.
    pub fn bad_input(alloc: Global, line: u64, cause: u32) -> Result<Answer, AllocError>
        ensures { IfOk result (λ answer. answer ≡ spec.bad_input line cause) }
    {
        let text = format!(in alloc; "! line {line} cause {cause}\n")?;
        Ok(Answer {
            status: 2,
            text: Octets::from_vec(text.into_bytes()),
        })
    }

    /// A rule is broken at a stamp.
    pub fn rule_broken(alloc: Global, stamp: u64, rule: u32) -> Result<Answer, AllocError>
        ensures { IfOk result (λ answer. answer ≡ spec.rule_broken stamp rule) }
    {
        let text = format!(in alloc; "! stamp {stamp} rule {rule}\n")?;
        Ok(Answer {
            status: 5,
            text: Octets::from_vec(text.into_bytes()),
        })
    }
}

/// Tells that words give no command, and gives the status that the call ends with.
pub fn tell_usage<K: Sink>(sink: &mut K) -> u8
    ensures { Told spec.usage result
        (record {
          held = K.held sink.old;
          holds = K.held sink.new;
          before = K.faults sink.old;
          after = K.faults sink.new;
        }) }
{
    tell(sink, 1, b"! usage\n")
}

/// Tells an answer, or why there is none, and gives the status that the call ends with.
pub fn tell_answer<K: Sink>(sink: &mut K, answered: Result<Answer, TakeError>) -> u8
    ensures { IsTold answered result
        (record {
          held = K.held sink.old;
          holds = K.held sink.new;
          before = K.faults sink.old;
          after = K.faults sink.new;
        }) }
{
    match answered {
        Ok(answer) => tell(sink, answer.status, answer.text.as_slice()),
        Err(error) => tell_error(sink, error),
    }
}

// Tells why there is no answer. An input over the limit is answered as a bad one.
fn tell_error<K: Sink>(sink: &mut K, error: TakeError) -> u8
    ensures { IsTold (Err error) result
        (record {
          held = K.held sink.old;
          holds = K.held sink.new;
          before = K.faults sink.old;
          after = K.faults sink.new;
        }) }
{
    match error {
        TakeError::TooLarge => tell(sink, 2, b"! line 0 cause 9\n"),
        TakeError::Failed => tell(sink, 6, b"! read fault\n"),
        TakeError::Memory => 8,
    }
}

// Writes a text, and gives the status where it is written whole.
fn tell<K: Sink>(sink: &mut K, status: u8, text: &[u8]) -> u8
    ensures { Told (record { status = status; text = text.now }) result
        (record {
          held = K.held sink.old;
          holds = K.held sink.new;
          before = K.faults sink.old;
          after = K.faults sink.new;
        }) }
{
    match write_all(sink, text) {
        Ok(()) => status,
        Err(Failed) => 7,
    }
}
