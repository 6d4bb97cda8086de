//! A step that has begun and is not complete.
ghost use Rattle.std.specs.Prelude.{◌≡◌, [], None, OnOk, true};
ghost use Rattle.live_answers.specs.Steps.{IsNoted};

use live_lines::StepWord;
use net_base::{Entry, Step};
use replay_views::{Latest, StepKind, is_close, kind_of, noted_by};
use std::alloc::{AllocError, Global};
use std::slice;

/// The entries that a step recorded itself so far.
#[derive(Drop)]
pub struct Current {
    /// The number of the step in its script, from 0.
    pub number: usize,
    pub kind: StepKind,
    /// The stamps of its entries.
    pub stamps: Vec<usize>,
    /// The last of them.
    pub latest: Option<Latest>,
    /// Why `until` replaced the step, if it did.
    pub replaced: Option<StepWord>,
    /// When `until` replaces it, in ms, if it has no entry by then.
    pub deadline: Option<u64>,
}

impl Current {
    /// Returns a step before its first entry.
    pub fn new(alloc: Global, number: usize, step: &Step) -> Current
        ensures number { result.number ≡ number }
        ensures stamps { result.stamps.items ≡ [] }
        ensures replaced { result.replaced ≡ None }
    {
        Current {
            number,
            kind: kind_of(slice::from_ref(step), 0),
            stamps: Vec::new(alloc),
            latest: None,
            replaced: None,
            deadline: None,
        }
    }

    /// Returns whether the history has no entry of it.
    pub fn is_waiting(&self) -> bool
        ensures { result ≡ true → self.now.stamps.items ≡ [] }
    {
        self.stamps.len() == 0
    }

    /// Returns the deadline in ms, if it still counts.
    pub fn due(&self) -> Option<u64> {
        if self.is_waiting() {
            self.deadline
        } else {
            None
        }
    }

    /// Notes an entry of the script, unless it is a follow-up event.
    pub fn note(&mut self, stamp: usize, entry: &Entry) -> Result<(), AllocError>
        ensures { OnOk result (IsNoted stamp entry.now self.old self.new) }
    {
        if entry.cites.is_some() {
            return Ok(());
        }
        self.stamps.push(stamp)?;
        self.latest = Some(noted_by(self.latest, stamp, is_close(&entry.event)));
        Ok(())
    }
}
