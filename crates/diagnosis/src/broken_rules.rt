//! An entry that breaks a rule, or a summary.
ghost use Rattle.std.specs.Prelude.{◌≡◌};

use crate::history_lines::MARK;
use crate::kept::Kept;
use crate::lines::{line_at, number_of_line, shown, word_at};
use crate::rules::{Rule, rule_numbered};
use std::fmt;
use words::split_first;

/// The most bytes of an entry that is quoted.
const MOST_QUOTED: usize = 160;

/// A broken rule: the stamp of the entry, its line in the input and its text, and what was expected, if they are known.
#[derive(Clone, Copy, Debug)]
pub struct BrokenRule<'a> {
    pub stamp: u64,
    pub rule: Rule,
    pub number: u64,
    pub line: Option<u64>,
    pub text: Option<&'a str>,
    pub expected: Option<Lines<'a>>,
}

/// Lines of which each ends with a newline, shown in one line.
#[derive(Clone, Copy, Debug)]
pub struct Lines<'a>(&'a [u8]);

/// What is known of the entry with a stamp, which breaks a rule.
pub fn broken_rule<'a>(
    kept: Kept<'a>,
    stamp: u64,
    number: u64,
    expected: Option<&'a [u8]>,
) -> BrokenRule<'a>
    ensures { result.stamp ≡ stamp }
{
    let line = line_of(kept, stamp);
    let text = match line {
        Some(line) => entry_text(kept, line),
        None => None,
    };
    BrokenRule {
        stamp,
        rule: rule_numbered(number),
        number,
        line,
        text,
        expected: lines_in(expected),
    }
}

// Lines that are not too long to be shown.
fn lines_in(text: Option<&[u8]>) -> Option<Lines<'_>> {
    let text = text?;
    if MOST_QUOTED < text.len() {
        return None;
    }
    Some(Lines(text))
}

// The line of an entry, if the mark before the history was kept.
fn line_of(kept: Kept<'_>, stamp: u64) -> Option<u64> {
    number_of_line(kept.text, MARK)?
        .checked_add(stamp)?
        .checked_add(1)
}

fn entry_text(kept: Kept<'_>, line: u64) -> Option<&str> {
    let text = line_at(kept, line)?;
    word_at(text, 1)?;
    if MOST_QUOTED < text.len() {
        return None;
    }
    shown(text)
}

impl fmt::Display for BrokenRule<'_> {
    fn fmt<W: fmt::Write>(&self, f: &mut fmt::Formatter<W>) -> fmt::Result {
        if let Some(line) = self.line {
            write!(f, "line {line}: ")?;
        }
        if self.rule != Rule::Summary {
            write!(f, "entry {}: ", self.stamp)?;
        }
        write!(f, "{} (rule {})", self.rule, self.number)?;
        match (self.rule, self.text) {
            (Rule::Summary, Some(text)) => write!(f, "; it begins with \"{text}\"")?,
            (_, Some(text)) => write!(f, "; the entry is \"{text}\"")?,
            (_, None) => {}
        }
        match self.expected {
            Some(lines) => write!(f, "; expected: \"{lines}\""),
            None => Ok(()),
        }
    }
}

impl fmt::Display for Lines<'_> {
    fn fmt<W: fmt::Write>(&self, f: &mut fmt::Formatter<W>) -> fmt::Result {
        let (mut line, mut rest) = split_first(self.0, b'\n');
        write!(f, "{}", shown(line).unwrap_or(""))?;
        for _ in 0..self.0.len() {
            (line, rest) = match rest {
                Some(text) if !text.is_empty() => split_first(text, b'\n'),
                _ => return Ok(()),
            };
            write!(f, ", {}", shown(line).unwrap_or(""))?;
        }
        Ok(())
    }
}
