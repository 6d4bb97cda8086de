//! A pass of a search: its path, and what was left out.
ghost use Rattle.std.specs.Prelude.{◌≡◌, [], None, false, true};
ghost use Rattle.order_search.specs.Exact.{IsWhole};

use crate::losses::Frame;
use crate::path::{Loss, Path};
use std::alloc::Global;

/// A part of the histories: those whose beginning has a number that leaves `rest`, divided by `parts`.
#[derive(Clone, Copy, Debug, PartialEq, Eq)]
pub struct Part {
    pub rest: u64,
    pub parts: u64,
}

/// How many entries the beginnings have that parts deal out.
const BEGINNING: usize = 48;

/// The part that is looked at, how many beginnings were dealt out, and whether one was left out.
#[derive(Drop)]
pub struct Deal {
    pub part: Part,
    pub cut: bool,
    beginnings: u64,
}

/// How many frames a run has lost so far, and whether a loss was refused.
#[derive(Drop)]
pub struct Losing {
    pub refused: bool,
    lost: u64,
}

/// The path of a pass, whether a preemption was refused, and what was left out of the losses and beginnings.
#[derive(Drop)]
pub struct Trail {
    pub path: Path,
    pub refused: bool,
    pub losing: Losing,
    pub deal: Deal,
}

impl Trail {
    /// A trail before its first pass.
    pub fn new(alloc: Global, part: Part) -> Trail
        ensures forks { result.path.forks.items ≡ [] }
        ensures pending { result.path.pending ≡ None }
        ensures refused { result.refused ≡ false }
        ensures part { result.deal.part ≡ part }
    {
        Trail {
            path: Path::new(alloc),
            refused: false,
            losing: Losing {
                refused: false,
                lost: 0,
            },
            deal: Deal {
                part,
                cut: false,
                beginnings: 0,
            },
        }
    }

    /// A pass begins.
    pub fn begin(&mut self)
        ensures forks { self.new.path.forks.items ≡ [] }
        ensures pending { self.new.path.pending ≡ None }
        ensures refused { self.new.refused ≡ false }
        ensures part { self.new.deal.part ≡ self.old.deal.part }
    {
        self.path.clear();
        self.refused = false;
        self.losing.refused = false;
        self.deal.cut = false;
        self.deal.beginnings = 0;
    }
}

impl Losing {
    /// A run of the pass begins.
    pub fn begin_run(&mut self) {
        self.lost = 0;
    }

    /// The entry at a place lays a frame, in a pass with so many losses.
    pub fn lay(&mut self, path: &mut Path, place: usize, frame: Frame, losses: u64)
        ensures { losses ≡ 0 → path.new ≡ path.old }
    {
        if loses(path, place) {
            self.lost = self.lost.saturating_add(1);
        } else if self.lost < losses {
            path.open_loss(place, frame);
        } else {
            self.refused = true;
        }
    }
}

// Whether the frame of the entry at a place is lost.
fn loses(path: &Path, place: usize) -> bool {
    let Some(fork) = path.at(place) else {
        return false;
    };
    match fork.loss {
        Loss::Lost(_) => true,
        _ => false,
    }
}

impl Deal {
    /// Whether the run is at a new beginning that is left to another part.
    pub fn leaves(&mut self, place: usize, same: usize) -> bool
        ensures part { self.new.part ≡ self.old.part }
        ensures whole { IsWhole self.old.part → result ≡ false }
    {
        if place != BEGINNING || BEGINNING <= same {
            return false;
        }
        !self.is_own()
    }

    /// Whether a run that ends here is one of the part.
    pub fn keeps(&mut self, place: usize) -> bool
        ensures part { self.new.part ≡ self.old.part }
        ensures whole { IsWhole self.old.part → result ≡ true }
    {
        if BEGINNING <= place {
            return true;
        }
        self.is_own()
    }

    // Whether the next beginning is one of the part.
    fn is_own(&mut self) -> bool
        ensures part { self.new.part ≡ self.old.part }
        ensures whole { IsWhole self.old.part → result ≡ true }
    {
        let number = self.beginnings;
        self.beginnings = number.saturating_add(1);
        if self.part.parts <= 1 {
            return true;
        }
        if number % self.part.parts == self.part.rest {
            return true;
        }
        self.cut = true;
        false
    }
}
