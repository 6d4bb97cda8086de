//! How many entries each actor has had, so that who waits for one need not ask it again meanwhile.

use std::alloc::{AllocError, Global};
use std::sync::atomic::{AtomicU64, Ordering};

/// A count for each actor.
#[derive(Drop)]
pub struct Marks {
    marks: Vec<Mark>,
}

// How many entries an actor has had: those after which there may be more to read, and the others. No other actor's are near
// enough to share their line of a cache: else each entry would slow down whoever looks at another actor.
#[derive(Drop)]
struct Mark {
    giving: AtomicU64,
    others: AtomicU64,
    _apart: [u64; 6],
}

impl Mark {
    fn new() -> Mark {
        Mark {
            giving: AtomicU64::new(0),
            others: AtomicU64::new(0),
            _apart: [0; 6],
        }
    }

    // How many entries it has had of those that are waited for.
    fn count(&self, awaited: Awaited) -> u64 {
        let giving = self.giving.load(Ordering::SeqCst);
        match awaited {
            Awaited::Entry => giving.wrapping_add(self.others.load(Ordering::SeqCst)),
            Awaited::Text => giving,
        }
    }
}

/// What is waited for at an actor.
#[derive(Clone, Copy, Debug, PartialEq, Eq)]
pub enum Awaited {
    /// An entry, whichever it is.
    Entry,
    /// An entry after which there may be more to read.
    Text,
}

/// An actor, and how many entries it had of those that are waited for when it was last looked at. Who waits there needn't ask
/// again while it stands.
#[derive(Clone, Copy, Debug, PartialEq, Eq)]
pub struct Spot {
    place: usize,
    awaited: Awaited,
    count: u64,
}

impl Spot {
    /// At no actor: nothing is ever recorded there.
    pub fn nowhere() -> Spot {
        Spot {
            place: usize::MAX,
            awaited: Awaited::Entry,
            count: 0,
        }
    }
}

impl Marks {
    /// For so many actors, none of which has an entry.
    pub fn new(alloc: Global, actors: usize) -> Result<Marks, AllocError> {
        let mut marks = Vec::with_capacity(alloc, actors)?;
        for _ in 0..actors {
            marks.push(Mark::new())?;
        }
        Ok(Marks { marks })
    }

    /// The actor has an entry more, after which there may be more to read or not.
    pub fn add(&self, place: usize, gives: bool) {
        if let Some(mark) = self.marks.get(place) {
            let count = if gives { &mark.giving } else { &mark.others };
            count.fetch_add(1, Ordering::SeqCst);
        }
    }

    /// The spot of an actor, as it is now, for one who waits for this.
    pub fn spot(&self, place: usize, awaited: Awaited) -> Spot {
        Spot {
            place,
            awaited,
            count: self.count(place, awaited),
        }
    }

    /// Whether the actor has had no entry since of those that are waited for.
    pub fn stands(&self, spot: Spot) -> bool {
        self.count(spot.place, spot.awaited) == spot.count
    }

    fn count(&self, place: usize, awaited: Awaited) -> u64 {
        match self.marks.get(place) {
            Some(mark) => mark.count(awaited),
            None => 0,
        }
    }
}
