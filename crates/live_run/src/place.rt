//! A place: a script that gets its steps one at a time.

use crate::queue::StepQueue;
use std::alloc::Global;

/// The lines that a place has and gets.
#[derive(Drop)]
pub struct Place {
    /// It gets no more lines.
    pub ended: bool,
    /// The steps that have not begun.
    pub queue: StepQueue,
}

impl Place {
    /// A place without steps.
    pub fn new(alloc: Global) -> Place {
        Place {
            ended: false,
            queue: StepQueue::new(alloc),
        }
    }

    /// Whether it waits for a line if no step is current.
    pub fn needs_line(&self) -> bool {
        !self.ended && self.queue.is_empty()
    }

    /// Whether more of its steps can begin at some time.
    pub fn can_grow(&self) -> bool {
        !self.ended || !self.queue.is_empty()
    }
}
