//! What a call that has ended is explained by.
ghost use Rattle.std.specs.Prelude.{◌≡◌};

use crate::asked::{Input, Program, command_word, input_of};
use crate::broken_rules::{BrokenRule, broken_rule};
use crate::cases::{Case, case_of};
use crate::causes::{Cause, cause_numbered};
use crate::database_lines::database_hint;
use crate::findings::{Finding, finding_of};
use crate::hints::Hint;
use crate::history_lines::{MARK, history_hint};
use crate::kept::Kept;
use crate::lines::{line_at, number_of_line};
use crate::seen::{RunEnd, Seen};
use crate::told::told_in;
use crate::usages::{Usage, usage_of};
use crate::world_lines::{Advice, WorldLine, world_advice};
use std::fmt;

/// A call that has ended.
#[derive(Clone, Copy)]
pub struct Call<'a> {
    pub program: Program,
    pub words: &'a [String],
    pub kept: Kept<'a>,
    pub seen: Seen<'a>,
    pub status: u8,
    /// What was expected in the place of an entry that breaks a rule, or of a summary, with a newline after each line, if it is known.
    pub expected: Option<&'a [u8]>,
}

/// An explanation of a call that has ended: its case, and what is known of it.
#[derive(Clone, Copy, Debug)]
pub struct Explanation<'a> {
    pub case: Case,
    detail: Detail<'a>,
}

/// What is known of a case.
#[derive(Clone, Copy, Debug)]
enum Detail<'a> {
    Nothing,
    Usage(Usage<'a>),
    MostBytes(u32),
    Line(BadLine<'a>),
    End(Option<RunEnd>),
    Rule(BrokenRule<'a>),
    Finding(Finding<'a>),
}

/// A bad line: its number, its cause, the word at fault, and what to do.
#[derive(Clone, Copy, Debug)]
struct BadLine<'a> {
    line: u64,
    cause: Cause,
    number: u64,
    word: Option<&'a str>,
    hint: Hint<'a>,
}

/// Explains how a call ended.
pub fn explain<'a>(call: Call<'a>) -> Explanation<'a> {
    explain_case(call, case_of(call.status, told_in(call.seen.front)))
}

// Says what is known of a case.
fn explain_case<'a>(call: Call<'a>, case: Case) -> Explanation<'a>
    ensures { result.case ≡ case }
{
    Explanation {
        case,
        detail: detail_of(call, case),
    }
}

fn detail_of<'a>(call: Call<'a>, case: Case) -> Detail<'a> {
    let name = command_word(call.words, 0);
    let input = input_of(call.program, name);
    match case {
        Case::Usage => Detail::Usage(usage_of(call.program, call.words)),
        Case::TooLong => Detail::MostBytes(most_bytes(input, name)),
        Case::BadLine { line, cause } => Detail::Line(bad_line(input, call.kept, line, cause)),
        Case::Stopped => Detail::End(call.seen.end),
        Case::BrokenRule { stamp, rule } => {
            Detail::Rule(broken_rule(call.kept, stamp, rule, call.expected))
        }
        Case::NoAnswer => Detail::Finding(finding_of(input, call.words, call.kept, None)),
        Case::Refused { number } => {
            Detail::Finding(finding_of(input, call.words, call.kept, Some(number)))
        }
        _ => Detail::Nothing,
    }
}

// The most MiB of an input of the command with this name.
fn most_bytes(input: Input, name: &[u8]) -> u32 {
    match input {
        Input::History if name == b"page".as_slice() => 16,
        Input::History => 64,
        _ => 4,
    }
}

fn bad_line(input: Input, kept: Kept<'_>, line: u64, number: u64) -> BadLine<'_>
    ensures line { result.line ≡ line }
{
    let cause = cause_numbered(number);
    let (word, hint) = advice(input, kept, line, cause);
    BadLine {
        line,
        cause,
        number,
        word,
        hint,
    }
}

fn advice(input: Input, kept: Kept<'_>, number: u64, cause: Cause) -> Advice<'_> {
    if lacks_history(input, kept, cause) {
        return (
            None,
            Hint::Do(
                "the input is a world, a line %history and a history, and it has no line %history",
            ),
        );
    }
    let line = line_at(kept, number);
    match cause {
        Cause::NoEntry | Cause::Stamp => (None, history_hint(kept, number, line, cause)),
        Cause::NoTuple
        | Cause::OpenQuote
        | Cause::NoAttribute
        | Cause::AfterQuote
        | Cause::ZeroByte
        | Cause::PercentLine => (None, database_hint(input, line, cause)),
        _ => world_advice(
            WorldLine {
                input,
                kept,
                number,
                line: line.unwrap_or(b""),
            },
            cause,
        ),
    }
}

// Whether a world was given in place of a world with a history.
fn lacks_history(input: Input, kept: Kept<'_>, cause: Cause) -> bool {
    input == Input::History
        && kept.whole
        && is_of_end(cause)
        && number_of_line(kept.text, MARK).is_none()
}

// Whether a world that goes on into a history, or ends without one, is bad for this cause.
fn is_of_end(cause: Cause) -> bool {
    matches!(
        cause,
        Cause::NoTuple
            | Cause::OpenQuote
            | Cause::NoAttribute
            | Cause::AfterQuote
            | Cause::ZeroByte
            | Cause::PercentLine
            | Cause::MissingPart
    )
}

impl fmt::Display for Explanation<'_> {
    fn fmt<W: fmt::Write>(&self, f: &mut fmt::Formatter<W>) -> fmt::Result {
        match self.detail {
            Detail::Nothing => write!(f, "{}", self.case),
            Detail::Usage(usage) => write!(f, "{usage}"),
            Detail::MostBytes(most) => {
                write!(
                    f,
                    "the input is too long (cause 9); it may have at most {most} MiB"
                )
            }
            Detail::Line(bad) => write!(f, "{bad}"),
            Detail::End(Some(end)) => write!(
                f,
                "the run reached its end moment, {} ms, with {} of {} steps done; netview steps shows the step that waits",
                end.moment, end.answered, end.steps
            ),
            Detail::End(None) => write!(f, "{}", self.case),
            Detail::Rule(broken) => write!(f, "{broken}"),
            Detail::Finding(finding) => write!(f, "{finding}"),
        }
    }
}

impl fmt::Display for BadLine<'_> {
    fn fmt<W: fmt::Write>(&self, f: &mut fmt::Formatter<W>) -> fmt::Result {
        write!(f, "line {}: {}", self.line, self.cause)?;
        if let Some(word) = self.word {
            write!(f, ": \"{word}\"")?;
        }
        write!(f, " (cause {}); {}", self.number, self.hint)
    }
}
