//! Lines of a text, and their words.
ghost use Rattle.std.specs.Prelude.{◌≡◌, ◌≤◌, length};

use crate::kept::Kept;
use std::str;
use words::{number_in, split_first};

/// The most bytes of a word that is quoted.
const MOST_QUOTED: usize = 60;

/// The word of a line at a place, from 0, where one blank ends a word.
pub fn word_at(line: &[u8], place: usize) -> Option<&[u8]> {
    Some(first_word(rest_at(line, place)?))
}

/// What a line has from a word on.
pub fn rest_at(line: &[u8], place: usize) -> Option<&[u8]> {
    let mut rest = line;
    for _ in 0..place {
        rest = split_first(rest, b' ').1?;
    }
    Some(rest)
}

/// The first word of a line.
pub fn first_word(line: &[u8]) -> &[u8] {
    split_first(line, b' ').0
}

/// A number in decimal.
pub fn decimal_in(word: &[u8]) -> Option<u64> {
    number_in(0, u64::MAX, word)
}

/// A line of what was kept, by its number from 1. The last one may lack its newline only if it is known to be the last.
pub fn line_at<'a>(kept: Kept<'a>, number: u64) -> Option<&'a [u8]> {
    let mut rest = kept.text;
    for _ in 1..number {
        rest = split_first(rest, b'\n').1?;
    }
    let (line, behind) = split_first(rest, b'\n');
    if behind.is_some() || kept.whole {
        Some(line)
    } else {
        None
    }
}

/// The last line of a text that ends with a newline, and the text before it.
pub fn last_line(text: &[u8]) -> Option<(&[u8], &[u8])> {
    let (last, lines) = text.split_last()?;
    if *last != b'\n' {
        return None;
    }
    let start = last_start(lines);
    Some((&lines[..start], &lines[start..]))
}

// Where the last line of some lines begins.
fn last_start(lines: &[u8]) -> usize
    ensures { result ≤ length lines.now }
{
    for back in 0..lines.len() {
        let at = lines.len() - back;
        if lines[at - 1] == b'\n' {
            return at;
        }
    }
    0
}

/// A word as text, if it is short and every byte of it can be shown.
pub fn quotable(word: &[u8]) -> Option<&str> {
    if word.is_empty() || MOST_QUOTED < word.len() || !are_shown(word) {
        return None;
    }
    str::from_utf8(word).ok()
}

fn are_shown(word: &[u8]) -> bool {
    word.iter().all(|byte| byte.is_ascii_graphic())
}

/// A line as text, if every byte of it can be shown.
pub fn shown(line: &[u8]) -> Option<&str> {
    if line.is_empty() || !line.iter().all(is_shown) {
        return None;
    }
    str::from_utf8(line).ok()
}

fn is_shown(byte: &u8) -> bool {
    byte.is_ascii_graphic() || *byte == b' '
}

/// The first line of a text, without its newline.
pub fn first_line(text: &[u8]) -> &[u8] {
    split_first(text, b'\n').0
}

/// The first line that is neither empty nor a comment.
pub fn first_spoken(text: &[u8]) -> Option<&[u8]> {
    let mut rest = Some(text);
    for _ in 0..text.len() {
        let (line, behind) = split_first(rest?, b'\n');
        if !line.is_empty() && !line.starts_with(b"#") {
            return Some(line);
        }
        rest = behind;
    }
    None
}

/// Whether two bytes stand next to each other in a text.
pub fn has_pair(text: &[u8], first: u8, second: u8) -> bool {
    let mut last = None;
    for byte in text {
        if last == Some(first) && *byte == second {
            return true;
        }
        last = Some(*byte);
    }
    false
}

/// The number of the first line that is exactly this one.
pub fn number_of_line(text: &[u8], wanted: &[u8]) -> Option<u64> {
    let mut rest = Some(text);
    let mut number: u64 = 0;
    for _ in 0..usize::MAX {
        let (line, behind) = split_first(rest?, b'\n');
        number = number.saturating_add(1);
        if line == wanted {
            return Some(number);
        }
        rest = behind;
    }
    None
}
