//! Which case a status and an answer are.
ghost use Rattle.std.specs.Prelude.{◌≡◌, Some};
ghost use Rattle.diagnosis.specs.Cases as spec;

use crate::told::Told;
use std::fmt;

/// A case that has an explanation.
#[derive(Clone, Copy, Debug, PartialEq, Eq)]
pub enum Case {
    /// All went well.
    Nothing,
    /// The words are no command.
    Usage,
    /// The input is too long.
    TooLong,
    /// A line of the input is bad.
    BadLine { line: u64, cause: u64 },
    /// A run reached its end moment.
    Stopped,
    /// A caller of a run has no room.
    Limited,
    /// An entry or a summary breaks a rule.
    BrokenRule { stamp: u64, rule: u64 },
    /// Nothing was found.
    NoAnswer,
    /// The connection server refuses the query.
    Refused { number: u64 },
    /// The input can't be read.
    Unread,
    /// The answer can't be written.
    Unwritten,
    /// Memory ran out.
    NoMemory,
}

/// The case of a status and of what the answer tells, if it was written.
pub fn case_of(status: u8, told: Option<Told>) -> Case
    ensures { result ≡ spec.case_of status told }
{
    match status {
        1 => Case::Usage,
        2 => case_of_input(told),
        3 => Case::Stopped,
        4 => Case::Limited,
        5 => case_of_refusal(told),
        6 => Case::Unread,
        7 => Case::Unwritten,
        8 => Case::NoMemory,
        _ => Case::Nothing,
    }
}

// The case of a bad input.
fn case_of_input(told: Option<Told>) -> Case
    ensures { result ≡ spec.case_of_input told }
{
    match told {
        Some(Told::BadLine { line: 0, cause: _ }) => Case::TooLong,
        Some(Told::BadLine { line, cause }) => Case::BadLine { line, cause },
        _ => Case::Nothing,
    }
}

// The case of an input without an answer.
fn case_of_refusal(told: Option<Told>) -> Case
    ensures { result ≡ spec.case_of_refusal told }
{
    match told {
        Some(Told::BrokenRule { stamp, rule }) => Case::BrokenRule { stamp, rule },
        Some(Told::NoAnswer) => Case::NoAnswer,
        Some(Told::Refused { number }) => Case::Refused { number },
        _ => Case::Nothing,
    }
}

impl fmt::Display for Case {
    ghost output = { λ case. Some (spec.case_text case) };

    fn fmt<W: fmt::Write>(&self, f: &mut fmt::Formatter<W>) -> fmt::Result {
        match self {
            Case::Stopped => write!(
                f,
                "the run reached its end moment before every step was done"
            ),
            Case::Limited => write!(
                f,
                "a caller has 131072 entries, the most that it may have, and could go on"
            ),
            Case::Unread => write!(f, "standard input cannot be read"),
            Case::Unwritten => write!(f, "the answer cannot be written whole"),
            Case::NoMemory => write!(f, "out of memory"),
            _ => write!(f, "the status says what happened"),
        }
    }
}
