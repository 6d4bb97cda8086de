//! Entries by stamp, wherever they are kept.
ghost use Rattle.std.specs.Prelude.{◌≡◌, ◌<◌, List, Some, length, slice_get};
ghost use Rattle.net_base.specs.declared.history.Entry.{Entry as AnyEntry};

use crate::{Entry, History};

/// Lends the entries of a history by stamp.
pub trait Entries {
    // the entries in their order
    ghost list: { Self → List AnyEntry };

    /// How many entries there are.
    fn count(&self) -> usize
        ensures { result ≡ length (list self.now) };

    /// The entry of this stamp.
    fn entry(&self, stamp: usize) -> &Entry
        requires within { stamp < length (list self.now) }
        ensures { slice_get (list self.entry.now) stamp ≡ Some result.now };
}

impl Entries for History {
    ghost list = { λ history. history };

    fn count(&self) -> usize {
        self.as_slice().len()
    }

    fn entry(&self, stamp: usize) -> &Entry {
        &self.as_slice()[stamp]
    }
}
