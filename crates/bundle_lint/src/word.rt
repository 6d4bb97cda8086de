//! The words of a good line.

/// A word of a line, `ATTR` or `ATTR=VALUE`, and the bytes after it.
#[derive(Clone, Copy)]
pub struct Word<'a> {
    pub attr: &'a [u8],
    pub value: &'a [u8],
    pub rest: &'a [u8],
}

fn is_white(byte: u8) -> bool {
    byte == b' ' || byte == b'\t' || byte == b'\r'
}

/// Whether a line begins with white space.
pub fn is_indented(line: &[u8]) -> bool {
    match line {
        [first, ..] => is_white(*first),
        [] => false,
    }
}

// The bytes after the first `count`.
fn behind(text: &[u8], count: usize) -> &[u8] {
    text.get(count..).unwrap_or(&[])
}

// The first `count` bytes.
fn before(text: &[u8], count: usize) -> &[u8] {
    text.get(..count).unwrap_or(text)
}

fn skip_white(text: &[u8]) -> &[u8] {
    let count = text
        .iter()
        .position(|byte| !is_white(*byte))
        .unwrap_or(text.len());
    behind(text, count)
}

// The bytes before a byte, or all.
fn until(text: &[u8], end: u8) -> &[u8] {
    let count = text
        .iter()
        .position(|byte| *byte == end)
        .unwrap_or(text.len());
    before(text, count)
}

fn until_white(text: &[u8]) -> &[u8] {
    let count = text
        .iter()
        .position(|byte| is_white(*byte))
        .unwrap_or(text.len());
    before(text, count)
}

/// The next word of a line, unless only white space or a comment is left.
pub fn next_word(line: &[u8]) -> Option<Word<'_>> {
    let text = skip_white(line);
    if text.is_empty() || text[0] == b'#' {
        return None;
    }
    let attr = until(until_white(text), b'=');
    let left = behind(text, attr.len());
    match left {
        [b'=', b'"', quoted @ ..] => {
            let value = until(quoted, b'"');
            Some(Word {
                attr,
                value,
                rest: behind(behind(quoted, value.len()), 1),
            })
        }
        [b'=', bare @ ..] => {
            let value = until_white(bare);
            Some(Word {
                attr,
                value,
                rest: behind(bare, value.len()),
            })
        }
        _ => Some(Word {
            attr,
            value: &[],
            rest: left,
        }),
    }
}
