//! A history in the books that have its entries.
ghost use Rattle.std.specs.Prelude.{◌≡◌, ◌≤◌, ◌<◌, List, length, IfOk, IfSome, IsNone, Some, slice_get};
ghost use Rattle.net_base.specs.declared.history.Entry.{Entry as AnyEntry};
ghost use Rattle.journal.specs.Closing.{AreAt};
ghost use Rattle.journal.specs.Places.{AreThere};

use crate::merging::{merge, opened};
use crate::places::{Place, found_at};
use crate::tokens::Stamped;
use net_base::{Entries, Entry, History, Sequence};
use std::alloc::{AllocError, Global};
use std::marker::Model;

/// The entries of a history by stamp, each where its book has it. Clauses see the list.
#[derive(Debug, Drop)]
pub struct ClosedBooks {
    lists: Vec<Sequence<Stamped>>,
    places: Vec<Place>,
}

impl Model for ClosedBooks {
    ghost use Rattle.std.specs.Prelude.{List};
    ghost use Rattle.net_base.specs.declared.history.Entry.{Entry};
    ghost use Rattle.journal.specs.Places.{AreClosed, entries_at};

    ghost Value = { List Entry };

    ghost view = { λ c. entries_at c.lists.items c.places.items };

    ghost invariant = { λ c. AreClosed c.lists.items c.places.items };
}

impl ClosedBooks {
    // The lists of all books, whose entries are those of one history, each at its stamp's place.
    pub(crate) fn new(lists: Vec<Sequence<Stamped>>, places: Vec<Place>) -> ClosedBooks
        requires all { AreThere lists.items places.items }
        requires only { (log : List AnyEntry) × (length log ≡ length places.items) × AreAt log lists.items }
        ensures { (log : List AnyEntry) → length log ≡ length places.items → AreAt log lists.items → result ≡ log }
    {
        ClosedBooks { lists, places }
    }

    /// How many entries.
    pub fn len(&self) -> usize
        ensures { result ≡ length self.now }
    {
        self.places.len()
    }

    /// The entry of this stamp, if there is one.
    pub fn get(&self, stamp: usize) -> Option<&Entry>
        ensures some { IfSome result (λ x. slice_get self.entry.now stamp ≡ Some x.now) }
        ensures none { IsNone result → length self.now ≤ stamp }
    {
        if stamp >= self.len() {
            return None;
        }
        Some(self.at(stamp))
    }

    // The entry of a stamp that there is.
    fn at(&self, stamp: usize) -> &Entry
        requires within { stamp < length self.now }
        ensures { slice_get self.entry.now stamp ≡ Some result.now }
    {
        match found_at(&self.lists, self.places[stamp]) {
            Some(own) => &own.entry,
            None => unreachable!(),
        }
    }

    /// The history in one piece.
    pub fn into_history(self, alloc: Global) -> Result<History, AllocError>
        ensures { IfOk result (λ history. history ≡ self) }
    {
        let ClosedBooks { lists, places } = self;
        let mut history = Vec::with_capacity(alloc, places.len())?;
        let lists = opened(alloc, lists)?;
        merge(lists, &places, &mut history)?;
        Ok(History::from_vec(history))
    }
}

impl Entries for ClosedBooks {
    ghost list = { λ closed. closed };

    fn count(&self) -> usize {
        self.len()
    }

    fn entry(&self, stamp: usize) -> &Entry {
        self.at(stamp)
    }
}
