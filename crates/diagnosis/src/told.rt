//! The first line of an answer that begins with `!`.

use crate::lines::{decimal_in, first_line, word_at};

/// An answer that reports an error.
#[derive(Clone, Copy, Debug, PartialEq, Eq)]
pub enum Told {
    /// `! line LINE cause CAUSE`
    BadLine { line: u64, cause: u64 },
    /// `! stamp STAMP rule RULE`
    BrokenRule { stamp: u64, rule: u64 },
    /// `! no answer`
    NoAnswer,
    /// `! NUMBER TEXT`
    Refused { number: u64 },
}

/// What the front of an answer tells, if it begins with `!`.
pub fn told_in(front: &[u8]) -> Option<Told> {
    let line = first_line(front);
    if word_at(line, 0)? != b"!".as_slice() {
        return None;
    }
    match word_at(line, 1)? {
        b"line" => Some(Told::BadLine {
            line: decimal_in(word_at(line, 2)?)?,
            cause: decimal_in(word_at(line, 4)?)?,
        }),
        b"stamp" => Some(Told::BrokenRule {
            stamp: decimal_in(word_at(line, 2)?)?,
            rule: decimal_in(word_at(line, 4)?)?,
        }),
        b"no" => Some(Told::NoAnswer),
        number => Some(Told::Refused {
            number: decimal_in(number)?,
        }),
    }
}
