//! The lines of a summary, whatever it tells.
ghost use Rattle.std.specs.Prelude.{◌≡◌, ◌+◌, ◌<◌, ◌^◌, Some, None, MatchOption, IfOk, IfErr};
ghost use Rattle.net_base.specs.Addresses.{parts_at};
ghost use Rattle.history_reader.specs.LineReading as spec;

use crate::cursor::{Words, cut_line};
use crate::entries::behind_word;
use crate::fault::LineError;

/// The lines of a summary and nothing behind them, which follow so many lines.
#[tactic(auto, using(crate::proofs::Readings::fifth_bad))]
pub(crate) fn read_summary(before: u64, text: &[u8]) -> Result<(), LineError>
    requires room { before + 5 < 2 ^ 64 }
    ensures ok { IfOk result (λ _. spec.fault_from spec.summary_tests before (parts_at 10 text.now) ≡ None) }
    ensures bad { IfErr result (λ e. spec.TellsFault e
        (spec.fault_from spec.summary_tests before (parts_at 10 text.now))) }
{
    let Some(rest) = behind_steps(text) else {
        return bad_behind(before);
    };
    let Some(rest) = behind_both(b"messages", rest) else {
        return bad_behind(before + 1);
    };
    let Some(rest) = behind_both(b"bytes", rest) else {
        return bad_behind(before + 2);
    };
    let Some(rest) = behind_end(rest) else {
        return bad_behind(before + 3);
    };
    if rest.is_empty() {
        Ok(())
    } else {
        bad_behind(before + 4)
    }
}

/// The line behind so many lines is bad.
fn bad_behind(before: u64) -> Result<(), LineError>
    requires room { before + 1 < 2 ^ 64 }
    ensures bad { IfErr result (λ e. spec.TellsFault e (Some (before + 1))) }
    ensures err { IfOk result (λ _. ⊥) }
{
    Err(LineError::Bad {
        line: before + 1,
        cause: 41,
    })
}

/// What stands behind the line of steps, if it comes first.
fn behind_steps(text: &[u8]) -> Option<&[u8]>
    ensures { MatchOption result
        (spec.passed spec.is_steps (parts_at 10 text.now) ≡ None)
        (λ rest. spec.passed spec.is_steps (parts_at 10 text.now) ≡ Some (parts_at 10 rest.now)) }
{
    let (line, rest) = cut_line(text)?;
    if is_steps(line) { Some(rest) } else { None }
}

/// What stands behind a line of two numbers.
fn behind_both<'a>(word: &[u8], text: &'a [u8]) -> Option<&'a [u8]>
    ensures { MatchOption result
        (spec.passed (spec.are_both_words word.now) (parts_at 10 text.now) ≡ None)
        (λ rest. spec.passed (spec.are_both_words word.now) (parts_at 10 text.now) ≡ Some (parts_at 10 rest.now)) }
{
    let (line, rest) = cut_line(text)?;
    if is_both(word, line) {
        Some(rest)
    } else {
        None
    }
}

/// What stands behind the line of the end.
fn behind_end(text: &[u8]) -> Option<&[u8]>
    ensures { MatchOption result
        (spec.passed spec.is_end (parts_at 10 text.now) ≡ None)
        (λ rest. spec.passed spec.is_end (parts_at 10 text.now) ≡ Some (parts_at 10 rest.now)) }
{
    let (line, rest) = cut_line(text)?;
    if is_end(line) { Some(rest) } else { None }
}

/// `steps N of M`, which begins a summary.
pub(crate) fn is_steps(line: &[u8]) -> bool
    ensures { result ≡ spec.is_steps line.now }
{
    match steps_passed(&Words::of(line, b' ')) {
        Some(words) => words.is_empty(),
        None => false,
    }
}

fn steps_passed<'a>(words: &Words<'a>) -> Option<Words<'a>>
    ensures { result ≡ spec.steps_passed words.now }
{
    let words = behind_word(b"steps", words)?;
    let words = behind_number(&words)?;
    let words = behind_word(b"of", &words)?;
    behind_number(&words)
}

/// A word with two numbers.
fn is_both(word: &[u8], line: &[u8]) -> bool
    ensures { result ≡ spec.are_both_words word.now line.now }
{
    match both_passed(word, &Words::of(line, b' ')) {
        Some(words) => words.is_empty(),
        None => false,
    }
}

fn both_passed<'a>(word: &[u8], words: &Words<'a>) -> Option<Words<'a>>
    ensures { result ≡ spec.both_passed word.now words.now }
{
    let words = behind_word(word, words)?;
    let words = behind_number(&words)?;
    behind_number(&words)
}

/// `end WORD M`
fn is_end(line: &[u8]) -> bool
    ensures { result ≡ spec.is_end line.now }
{
    match end_passed(&Words::of(line, b' ')) {
        Some(words) => words.is_empty(),
        None => false,
    }
}

fn end_passed<'a>(words: &Words<'a>) -> Option<Words<'a>>
    ensures { result ≡ spec.end_passed words.now }
{
    let words = behind_word(b"end", words)?;
    let words = behind_end_word(&words)?;
    behind_number(&words)
}

/// What stands behind one of the words that a run ends with.
fn behind_end_word<'a>(words: &Words<'a>) -> Option<Words<'a>>
    ensures { result ≡ spec.behind_end words.now }
{
    let (word, words) = words.next()?;
    if is_end_word(word) { Some(words) } else { None }
}

fn is_end_word(word: &[u8]) -> bool
    ensures { result ≡ spec.is_end_word word.now }
{
    if word == b"done".as_slice() {
        true
    } else if word == b"stopped".as_slice() {
        true
    } else if word == b"limit".as_slice() {
        true
    } else {
        word == b"unfinished".as_slice()
    }
}

/// What stands behind a number of any length.
fn behind_number<'a>(words: &Words<'a>) -> Option<Words<'a>>
    ensures { result ≡ spec.behind_number words.now }
{
    let (word, words) = words.next()?;
    if is_numeral(word) { Some(words) } else { None }
}

/// A number of any length, without leading zeros.
pub(crate) fn is_numeral(word: &[u8]) -> bool
    ensures { result ≡ spec.is_numeral word.now }
{
    !word.is_empty() && !is_padded(word) && are_digits(word)
}

fn is_padded(word: &[u8]) -> bool
    ensures { result ≡ spec.is_padded word.now }
{
    1 < word.len() && word[0] == b'0'
}

fn are_digits(word: &[u8]) -> bool
    ensures { result ≡ spec.list_all spec.is_ascii_digit word.now }
{
    word.iter().all(|byte| byte.is_ascii_digit())
}
