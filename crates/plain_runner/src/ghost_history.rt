//! The entries that a run has recorded, as what only clauses see. At run time they are nothing.
ghost use Rattle.std.specs.Prelude.{◌≡◌, ◌++◌, ◌∷◌, [], List};
ghost use Rattle.std.specs.Borrow.{ftrue};
ghost use Rattle.net_base.specs.declared.history.Entry.{Entry as AnyEntry};

use net_base::Entry;
use std::marker::{Model, PhantomData};

/// A history that has no bytes: clauses alone know its entries.
#[derive(Drop)]
pub struct GhostHistory {
    marker: PhantomData<()>,
    pub ghost entries: { List AnyEntry },
}

impl Model for GhostHistory {
    ghost also_owns = { λ _. ftrue };
}

impl GhostHistory {
    /// The history without entries.
    pub fn fresh() -> GhostHistory
        ensures { result.entries ≡ [] }
    {
        GhostHistory {
            marker: PhantomData,
        }
    }

    /// The history with an entry more.
    pub fn with(&self, entry: &Entry) -> GhostHistory
        ensures { result.entries ≡ self.now.entries ++ entry.now ∷ [] }
    {
        let _ = entry;
        GhostHistory {
            marker: PhantomData,
        }
    }
}
