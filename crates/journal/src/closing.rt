// The end: the books closed, and the history from them.
ghost use Rattle.std.specs.Prelude.{◌≡◌, ◌++◌, List, [], ◌∷◌, map, length, IfOk, OnOk};
ghost use Rattle.journal.specs.declared.tokens.Stamped.{Stamped};
ghost use Rattle.journal.specs.Rule.{IsSeat};
ghost use Rattle.journal.specs.Tokens.{HoldsAll, stamped};
ghost use Rattle.journal.specs.Closing.{TakenIn, Gathered, IsWhole, AreAllOf};
ghost use Rattle.journal.specs.Places.{ArePlaced};

use crate::closed::ClosedBooks;
use crate::law::Naming;
use crate::places::{Place, note, nowhere};
use crate::tokens::{Book, Pass, Stamped};
use crate::word::{Journal, Token};
use net_base::{History, Sequence};
use std::alloc::{AllocError, Global};

impl<J: Naming> Journal<J> {
    /// The whole history by stamp. It needs the pass of all callers and the books of all actors, in their order.
    pub fn close(
        self,
        alloc: Global,
        pass: Pass<J>,
        books: Vec<Book<J>>,
    ) -> Result<History, AllocError>
        requires callers { HoldsAll J.run.roster pass }
        requires actors { map (λ b. b.actor) books.items ≡ J.run.roster.actors }
        ensures { IfOk result (λ h. IsWhole J.run.roster pass books.items h) }
    {
        let closed = self.close_in_books(alloc, pass, books)?;
        closed.into_history(alloc)
    }

    /// Closes the books, and leaves each entry where its book has it.
    pub fn close_in_books(
        self,
        alloc: Global,
        pass: Pass<J>,
        books: Vec<Book<J>>,
    ) -> Result<ClosedBooks, AllocError>
        requires callers { HoldsAll J.run.roster pass }
        requires actors { map (λ b. b.actor) books.items ≡ J.run.roster.actors }
        ensures { IfOk result (λ closed. IsWhole J.run.roster pass books.items closed) }
    {
        let Pass {
            seat: mut all,
            counts: _,
            of: _,
        } = pass;
        let count = self.watch(&mut all) as usize;
        let mut places = nowhere(alloc, count)?;
        let mut lists = Vec::with_capacity(alloc, books.len())?;
        self.gather(&mut all, books, &mut places, &mut lists)?;
        let Journal { table, of: _ } = self;
        table.close_with(all).free();
        Ok(ClosedBooks::new(lists, places))
    }

    // Takes the books' seats in. Their entries are in the lists, and at each of their stamps is their place.
    fn gather(
        &self,
        all: &mut Token,
        mut books: Vec<Book<J>>,
        places: &mut Vec<Place>,
        lists: &mut Vec<Sequence<Stamped>>,
    ) -> Result<(), AllocError>
        requires seat { IsSeat J.run.table all.old }
        requires none { lists.old.items ≡ [] }
        ensures seat { IsSeat J.run.table all.new }
        ensures long { length places.new.items ≡ length places.old.items }
        ensures gathered { OnOk result ((es : List Stamped) × Gathered all.old.me.0 books.items all.new.me.0 es
            × AreAllOf es lists.new.items) }
        ensures placed { OnOk result (ArePlaced lists.new.items places.new.items) }
    {
        while let Some(book) = books.pop() {
            self.gather_one(all, book, places, lists)?;
        }
        Ok(())
    }

    // Gathers the list of one book, and the places of its entries.
    fn gather_one(
        &self,
        all: &mut Token,
        book: Book<J>,
        places: &mut Vec<Place>,
        lists: &mut Vec<Sequence<Stamped>>,
    ) -> Result<(), AllocError>
        requires { IsSeat J.run.table all.old }
        ensures seat { IsSeat J.run.table all.new }
        ensures long { length places.new.items ≡ length places.old.items }
        ensures taken { OnOk result (TakenIn all.old.me.0 book all.new.me.0) }
        ensures list { OnOk result (lists.new.items ≡ lists.old.items ++ map stamped book.list ∷ []) }
        ensures placed { OnOk result (ArePlaced lists.old.items places.old.items
            → ArePlaced lists.new.items places.new.items) }
    {
        let Book {
            badge,
            actor: _,
            number: _,
            entries,
            of: _,
        } = book;
        let Ok(list) = u32::try_from(lists.len()) else {
            return Err(AllocError);
        };
        self.take_in(all, badge.into_seat());
        self.watch(all);
        note(&entries, list, places);
        Ok(lists.push(Sequence::from_vec(entries))?)
    }
}
