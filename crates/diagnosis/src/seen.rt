//! A sink that keeps the front of what was written, how a run ended, and what was refused in it.
ghost use Rattle.std.specs.Prelude.{◌≡◌, ◌≤◌, length};

use crate::lines::{decimal_in, last_line, word_at};
use crate::refusals::Refusals;
use net_base::Octets;
use outside::{Failed, Sink};
use std::alloc::Global;

/// How many bytes of the front are kept: the first line of an answer that begins with `!` has fewer.
const FRONT: usize = 80;

/// The end of a run, by its summary.
#[derive(Clone, Copy, Debug, PartialEq, Eq)]
pub struct RunEnd {
    pub answered: u64,
    pub steps: u64,
    pub moment: u64,
}

/// The part of an answer that was seen.
#[derive(Clone, Copy)]
pub struct Seen<'a> {
    pub front: &'a [u8],
    pub end: Option<RunEnd>,
    pub refusals: &'a Refusals,
}

/// A sink that writes to another one, and keeps the front of what was written, and the end of a run's summary.
#[derive(Drop)]
pub struct SeenSink<K> {
    sink: K,
    front: Octets,
    end: Option<RunEnd>,
    refusals: Refusals,
}

impl<K: Sink> SeenSink<K> {
    /// Sees what is written to this sink.
    pub fn new(alloc: Global, sink: K) -> SeenSink<K> {
        SeenSink {
            sink,
            front: Octets::new(alloc),
            end: None,
            refusals: Refusals::new(alloc),
        }
    }

    /// What was seen.
    pub fn seen(&self) -> Seen<'_> {
        Seen {
            front: self.front.as_slice(),
            end: self.end,
            refusals: &self.refusals,
        }
    }
}

impl<K: Sink> Sink for SeenSink<K> {
    ghost held = { λ k. K.held k.sink };

    ghost faults = { λ k. K.faults k.sink };

    fn write(&mut self, bytes: &[u8]) -> Result<usize, Failed> {
        let n = self.sink.write(bytes)?;
        keep_front(&mut self.front, &bytes[..n]);
        self.refusals.note(&bytes[..n]);
        self.end = run_end_in(&bytes[..n]);
        Ok(n)
    }
}

// Adds to the front what it lacks. Without memory it stays short.
fn keep_front(front: &mut Octets, piece: &[u8]) {
    let room = FRONT.saturating_sub(front.len());
    let n = room.min(piece.len());
    let _ = front.append(&piece[..n]);
}

/// The end of a run, if a text ends with its summary. Lines `9p` may follow.
pub fn run_end_in(text: &[u8]) -> Option<RunEnd> {
    let mut rest = text;
    let mut moment = 0;
    for _ in 0..text.len() {
        let (before, line) = last_line(rest)?;
        match word_at(line, 0)? {
            b"9p" | b"bytes" | b"messages" => {}
            b"end" => moment = decimal_in(word_at(line, 2)?)?,
            b"steps" => {
                return Some(RunEnd {
                    answered: decimal_in(word_at(line, 1)?)?,
                    steps: decimal_in(word_at(line, 3)?)?,
                    moment,
                });
            }
            _ => return None,
        }
        rest = before;
    }
    None
}
