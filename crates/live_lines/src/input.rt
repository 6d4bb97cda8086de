//! Lines of standard input.

use net_base::Octets;
use outside::{Source, TakeError};
use std::alloc::{AllocError, Global};

// How many bytes are asked for at once.
const PIECE: usize = 4096;

// The most bytes that are kept of a line: one more than a valid line can have.
const MOST_KEPT: usize = 65_537;

/// A reader that counts the lines of a source.
#[derive(Drop)]
pub struct LineReader<'a, S> {
    source: &'a mut S,
    piece: [u8; PIECE],
    // the bytes of the piece that are not used yet
    start: usize,
    end: usize,
    lines: u64,
    failed: bool,
    at_end: bool,
}

impl<'a, S: Source> LineReader<'a, S> {
    /// Returns a reader that has read nothing.
    pub fn new(source: &'a mut S) -> LineReader<'a, S> {
        LineReader {
            source,
            piece: [0; PIECE],
            start: 0,
            end: 0,
            lines: 0,
            failed: false,
            at_end: false,
        }
    }

    /// Returns whether reading has failed. That is the end of the lines.
    pub fn has_failed(&self) -> bool {
        self.failed
    }

    /// Returns the number of the last line, from 1.
    pub fn number(&self) -> u64 {
        self.lines
    }

    /// Reads the next line, without its newline, of a long line the first 65,537 bytes. Returns `None` at the end.
    /// Bytes without a newline before the end are a line too.
    pub fn next(&mut self, alloc: Global) -> Result<Option<Octets>, AllocError> {
        let mut line = Octets::new(alloc);
        for _ in 0..u64::MAX {
            if self.at_end {
                return Ok(None);
            }
            if self.take_to_newline(&mut line)? || self.fill_or_end(&line) {
                self.lines = self.lines.saturating_add(1);
                return Ok(Some(line));
            }
        }
        Ok(None)
    }

    // Adds what is left of the piece to the line, up to a newline. Returns true if it came to a newline.
    fn take_to_newline(&mut self, line: &mut Octets) -> Result<bool, AllocError> {
        let left = self.piece.get(self.start..self.end).unwrap_or(b"");
        match left.iter().position(|byte| *byte == b'\n') {
            Some(count) => {
                keep(line, left.get(..count).unwrap_or(b""))?;
                self.start = self.start.saturating_add(count).saturating_add(1);
                Ok(true)
            }
            None => {
                keep(line, left)?;
                self.start = self.end;
                Ok(false)
            }
        }
    }

    // Reads the next piece. Returns true if there is none and the line has bytes: then it ends here.
    fn fill_or_end(&mut self, line: &Octets) -> bool {
        match self.source.read(&mut self.piece) {
            Ok(0) => self.at_end = true,
            Ok(count) => {
                self.start = 0;
                self.end = count;
            }
            Err(_) => {
                self.failed = true;
                self.at_end = true;
            }
        }
        self.at_end && line.len() != 0
    }
}

// Adds bytes to a line as far as it is kept.
fn keep(line: &mut Octets, bytes: &[u8]) -> Result<(), AllocError> {
    let room = MOST_KEPT.saturating_sub(line.len());
    let count = bytes.len().min(room);
    line.append(bytes.get(..count).unwrap_or(b""))
}
