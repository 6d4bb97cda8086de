//! A sink that notes which outcome is stopped.

use net_base::Octets;
use outside::{Failed, Sink};
use std::alloc::Global;

/// The first outcome of the lines so far that is stopped, and whether the list of histories is whole.
#[derive(Clone, Copy)]
pub struct Stopped {
    pub number: Option<u64>,
    pub whole: bool,
}

/// The lines so far: the one that is not whole yet, and how many outcomes there are.
#[derive(Drop)]
struct LineNotes {
    alloc: Global,
    line: Octets,
    outcomes: u64,
    stopped: Stopped,
}

impl LineNotes {
    // Notes more bytes.
    fn note(&mut self, bytes: &[u8]) {
        for byte in bytes {
            if *byte == b'\n' {
                self.note_line();
                self.line = Octets::new(self.alloc);
            } else {
                let _ = self.line.push(*byte);
            }
        }
    }

    // Notes a whole line.
    fn note_line(&mut self) {
        let line = self.line.as_slice();
        if line.starts_with(b"outcome ") {
            self.outcomes = self.outcomes.saturating_add(1);
        } else if line.starts_with(b"end stopped ") {
            self.stopped.number = self
                .stopped
                .number
                .or(Some(self.outcomes.saturating_sub(1)));
        } else if line.starts_with(b"histories ") {
            self.stopped.whole = line.ends_with(b" all");
        }
    }
}

/// A sink that writes to another one, and notes the first outcome that is stopped.
#[derive(Drop)]
pub struct StoppedSink<K> {
    sink: K,
    notes: LineNotes,
}

impl<K: Sink> StoppedSink<K> {
    /// Notes what is written to this sink.
    pub fn new(alloc: Global, sink: K) -> StoppedSink<K> {
        StoppedSink {
            sink,
            notes: LineNotes {
                alloc,
                line: Octets::new(alloc),
                outcomes: 0,
                stopped: Stopped {
                    number: None,
                    whole: false,
                },
            },
        }
    }

    /// What was noted.
    pub fn stopped(&self) -> Stopped {
        self.notes.stopped
    }

    /// The sink below.
    pub fn below(&self) -> &K {
        &self.sink
    }
}

impl<K: Sink> Sink for StoppedSink<K> {
    ghost held = { λ k. K.held k.sink };

    ghost faults = { λ k. K.faults k.sink };

    fn write(&mut self, bytes: &[u8]) -> Result<usize, Failed> {
        let n = self.sink.write(bytes)?;
        self.notes.note(&bytes[..n]);
        Ok(n)
    }
}
