//! What is wrong with a line of a history, and what to do.

use crate::causes::Cause;
use crate::hints::Hint;
use crate::kept::Kept;
use crate::lines::{number_of_line, word_at};

/// The line before a history.
pub const MARK: &[u8] = b"%history";

/// What to do about a line of a history that is bad for this cause.
pub fn history_hint(
    kept: Kept<'_>,
    number: u64,
    line: Option<&[u8]>,
    cause: Cause,
) -> Hint<'static> {
    match (cause, stamp_at(kept, number)) {
        (Cause::Stamp, Some(stamp)) => Hint::Stamp(stamp),
        (Cause::Stamp, None) => Hint::Do("the stamps count the entries from 0"),
        _ => entry_hint(line),
    }
}

// The stamp of the entry on a line.
fn stamp_at(kept: Kept<'_>, number: u64) -> Option<u64> {
    let mark = number_of_line(kept.text, MARK)?;
    number.checked_sub(mark)?.checked_sub(1)
}

fn entry_hint(line: Option<&[u8]>) -> Hint<'static> {
    let Some(line) = line else {
        return Hint::Do(FORM);
    };
    if line.ends_with(b"\r") {
        return Hint::Do(
            "the line ends with a carriage return: remove it, as by tr -d '\\r' < FILE",
        );
    }
    match word_at(line, 0) {
        Some(b"9p") => Hint::Do("remove the lines 9p of netsh export"),
        Some(b"") => Hint::Do("remove empty lines, and end the last line with a newline"),
        _ => Hint::Do(FORM),
    }
}

const FORM: &str = "the form is: STAMP MOMENT CALLER ACTOR CITED EVENT = REPLY";
