//! The path of a search: for each entry its choice, and those that are left in its place.
ghost use Rattle.std.specs.Prelude.{◌≡◌, ◌<◌, ◌∷◌, ◌++◌, [], Bool, List, None, ℕ, length, slice_get, take, IfOk, OnOk};
ghost use Rattle.net_base.specs.declared.world.World.{World as AnyWorld};
ghost use Rattle.turn_orders.specs.Orders.{too_many};
ghost use Rattle.order_search.specs.Choices.{AreForks, GoesBack, IsKept, fork_kept};
ghost use Rattle.order_search.specs.Losses.{AreFrames};

use crate::losses::{Frame, add_frame};
use std::alloc::{AllocError, Global};

/// The loss that an entry has or can have.
#[derive(Clone, Copy, Debug)]
pub enum Loss {
    /// Its frame is kept: the choice to lose it is not left, or it lays none.
    Kept,
    /// Its frame is kept, and can be lost.
    Open(Frame),
    Lost(Frame),
}

/// The choice of an entry: the caller, the next caller that can take its place, and whether its frame is lost.
#[derive(Clone, Copy, Debug)]
pub struct Fork {
    pub caller: usize,
    pub next: Option<usize>,
    pub loss: Loss,
}

/// The choices of a history, and the caller of the entry after them, if that is chosen.
#[derive(Drop)]
pub struct Path {
    pub forks: Vec<Fork>,
    pub pending: Option<usize>,
    pub same: usize,
}

impl Path {
    /// The path to no entry.
    pub fn new(alloc: Global) -> Path
        ensures forks { result.forks.items ≡ [] }
        ensures pending { result.pending ≡ None }
    {
        Path {
            forks: Vec::new(alloc),
            pending: None,
            same: 0,
        }
    }

    /// The choice at a place.
    pub fn at(&self, place: usize) -> Option<Fork>
        ensures { result ≡ slice_get self.now.forks.items place }
    {
        self.forks.get(place).copied()
    }

    /// The frames that the path loses.
    pub fn lost(&self, alloc: Global) -> Result<Vec<Frame>, AllocError>
        ensures frames { IfOk result (λ lost. AreFrames lost.items) }
        ensures none { IsKept self.now.forks.items → IfOk result (λ lost. lost.items ≡ []) }
    {
        let mut lost = Vec::new(alloc);
        for fork in self.forks.as_slice() {
            let Loss::Lost(frame) = fork.loss else {
                continue;
            };
            add_frame(&mut lost, frame)?;
        }
        Ok(lost)
    }

    /// Sets the choice at a place, with a frame that is kept, and drops those after it.
    pub fn set(
        &mut self,
        place: usize,
        caller: usize,
        next: Option<usize>,
    ) -> Result<(), AllocError>
        ensures forks { OnOk result (self.new.forks.items ≡ take place self.old.forks.items ++ fork_kept caller next ∷ []) }
        ensures pending { OnOk result (self.new.pending ≡ None) }
    {
        self.pending = None;
        self.forks.truncate(place);
        self.forks.push(Fork {
            caller,
            next,
            loss: Loss::Kept,
        })?;
        Ok(())
    }

    /// Leaves the choice to lose the frame of the entry at a place.
    pub fn open_loss(&mut self, place: usize, frame: Frame) {
        if let Some(fork) = self.forks.get_mut(place) {
            fork.loss = Loss::Open(frame);
        }
    }

    /// Goes back to the last choice that has another one, and takes that: the same caller without its frame, or the next caller.
    /// Without one the tree is finished.
    pub fn go_back(&mut self) -> Result<bool, AllocError>
        ensures { (w : AnyWorld) (p : ℕ) (refused : Bool) → AreForks w [] p refused self.old.forks.items → self.old.pending ≡ None
            → length self.old.forks.items < too_many → IfOk result (GoesBack w p refused self.old self.new) }
    {
        while let Some(fork) = self.forks.pop() {
            if let Loss::Open(frame) = fork.loss {
                return self.lose(fork, frame);
            }
            if let Some(caller) = fork.next {
                self.same = self.forks.len();
                self.pending = Some(caller);
                return Ok(true);
            }
        }
        Ok(false)
    }

    // Takes the same caller without its frame.
    fn lose(&mut self, fork: Fork, frame: Frame) -> Result<bool, AllocError> {
        self.same = self.forks.len();
        self.forks.push(Fork {
            caller: fork.caller,
            next: fork.next,
            loss: Loss::Lost(frame),
        })?;
        Ok(true)
    }

    /// Begins anew.
    pub fn clear(&mut self)
        ensures forks { self.new.forks.items ≡ [] }
        ensures pending { self.new.pending ≡ None }
    {
        self.forks.clear();
        self.pending = None;
        self.same = 0;
    }
}
