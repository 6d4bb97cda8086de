//! A bundle as it is written: its files, tuples, lines and pairs in order, with the numbers of the lines.
use crate::attribute::{Attr, attr_of};
use crate::word::{is_indented, next_word};
use std::alloc::{AllocError, Global};

/// A pair of a line.
#[derive(Clone, Copy)]
pub struct Pair<'a> {
    /// What its attribute means.
    pub kind: Attr,
    /// The attribute as it is written.
    pub attr: &'a [u8],
    /// The value, without quotes.
    pub value: &'a [u8],
}

/// A line with pairs: its number, from 1, and the places of its pairs.
#[derive(Clone, Copy)]
pub struct Line {
    /// The number of the line in the text.
    pub number: u64,
    /// The place of its first pair.
    pub first: usize,
    /// The place after its last pair.
    pub end: usize,
}

/// The line that begins a file, or the places of the lines of a tuple.
#[derive(Clone, Copy)]
pub enum Part<'a> {
    /// A line `%file NAME`.
    File { line: u64, name: &'a [u8] },
    /// A tuple.
    Tuple(Tuple),
}

/// The lines of a tuple, by their places.
#[derive(Clone, Copy)]
pub struct Tuple {
    first: usize,
    end: usize,
}

/// The files, tuples and lines of a text without bad lines.
#[derive(Drop)]
pub struct Bundle<'a> {
    pairs: Vec<Pair<'a>>,
    lines: Vec<Line>,
    /// Its files and tuples, in order.
    pub parts: Vec<Part<'a>>,
}

impl<'a> Bundle<'a> {
    /// The lines of a tuple.
    pub fn lines_of(&self, tuple: Tuple) -> &[Line] {
        self.lines.get(tuple.first..tuple.end).unwrap_or(&[])
    }

    /// The pair at a place, one of those from `first` up to `end` of a line.
    pub fn pair_at(&self, place: usize) -> Option<Pair<'a>> {
        self.pairs.get(place).copied()
    }
}

/// The bundle of a text without bad lines, whose first line has the number after `before`.
pub fn bundle_of<'a>(alloc: Global, text: &'a [u8], before: u64) -> Result<Bundle<'a>, AllocError> {
    let mut bundle = Bundle {
        pairs: Vec::new(alloc),
        lines: Vec::new(alloc),
        parts: Vec::new(alloc),
    };
    let mut begun = 0;
    let mut number = before;
    for line in text.split(|byte| *byte == b'\n') {
        number = number.saturating_add(1);
        if let Some(name) = line.strip_prefix(b"%file ") {
            begun = close(&mut bundle, begun)?;
            add_file(&mut bundle, number, name)?;
            continue;
        }
        let first = bundle.pairs.len();
        add_pairs(&mut bundle.pairs, line)?;
        let end = bundle.pairs.len();
        if first == end {
            continue;
        }
        if !is_indented(line) {
            begun = close(&mut bundle, begun)?;
        }
        add_line(&mut bundle, number, first, end)?;
    }
    close(&mut bundle, begun)?;
    Ok(bundle)
}

fn add_file<'a>(bundle: &mut Bundle<'a>, line: u64, name: &'a [u8]) -> Result<(), AllocError> {
    bundle.parts.push(Part::File { line, name })?;
    Ok(())
}

fn add_line<'a>(
    bundle: &mut Bundle<'a>,
    number: u64,
    first: usize,
    end: usize,
) -> Result<(), AllocError> {
    bundle.lines.push(Line { number, first, end })?;
    Ok(())
}

// Ends a tuple that has lines. The result is the place at which the next one begins.
fn close<'a>(bundle: &mut Bundle<'a>, first: usize) -> Result<usize, AllocError> {
    let end = bundle.lines.len();
    if first != end {
        bundle.parts.push(Part::Tuple(Tuple { first, end }))?;
    }
    Ok(end)
}

// Adds the pairs of a line.
fn add_pairs<'a>(pairs: &mut Vec<Pair<'a>>, text: &'a [u8]) -> Result<(), AllocError> {
    let mut rest = text;
    // each turn but the last takes a byte at least
    for _ in 0..text.len() {
        let Some(word) = next_word(rest) else {
            return Ok(());
        };
        pairs.push(Pair {
            kind: attr_of(word.attr),
            attr: word.attr,
            value: word.value,
        })?;
        rest = word.rest;
    }
    Ok(())
}
