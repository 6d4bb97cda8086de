//! What is wrong with a line of a database, and what to do.

use crate::asked::Input;
use crate::causes::Cause;
use crate::hints::Hint;
use crate::lines::first_word;

/// What to do about a line of a database that is bad for this cause.
pub fn database_hint(input: Input, line: Option<&[u8]>, cause: Cause) -> Hint<'static> {
    match cause {
        Cause::NoTuple => Hint::Do(
            "remove the white space at its beginning, or write the first line of its tuple above it",
        ),
        Cause::OpenQuote => Hint::Do("close it on the same line with a double quote"),
        Cause::NoAttribute => Hint::Do("write ATTR=VALUE without white space around ="),
        Cause::AfterQuote => Hint::Do("write white space after the closing quote"),
        Cause::ZeroByte => Hint::Do("remove it: the input may be no text"),
        _ => percent_hint(input, line.unwrap_or(b"")),
    }
}

fn percent_hint(input: Input, line: &[u8]) -> Hint<'static> {
    match first_word(line) {
        b"%history" => Hint::Do("a history is for netsh check and netview"),
        b"%at" => at_hint(input),
        _ => Hint::Do("the form is: %file NAME, one blank and one word"),
    }
}

fn at_hint(input: Input) -> Hint<'static> {
    match input {
        Input::Database => Hint::Do("%at is for the database of a world"),
        _ => Hint::Do("the form is: %at M"),
    }
}
