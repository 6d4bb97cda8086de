// The journal's word, and the steps on it by a seat.
ghost use Rattle.std.specs.Prelude.{◌≡◌};
ghost use Rattle.journal.specs.Rule.{IsSeat, Looks, Adds, MayAdd, handed_over, only, both_seen};

use crate::law::{Add, Adding, Hand, Handing, Law, Look, Merge, Naming, Roster, View};
use atomic_table::{Seat, Table};
use net_base::{Entry, Number, Work};
use std::alloc::Global;
use std::marker::PhantomData;

pub(crate) type Token = Seat<(), View>;

/// How many words the table has: as many as two lines of a processor's cache.
pub(crate) const WORDS: usize = 16;

// Which of them is the length of the history. Splits and joins of seats read the first word, and no line that has that is
// ever written.
const COUNT: usize = 8;

/// The word that all threads share: the length of the history. It stands among others that stay 0.
#[derive(Drop)]
pub struct Journal<J: Naming> {
    pub(crate) table: Table<(), View, Roster, Law, Global>,
    pub(crate) of: PhantomData<J>,
    ghost table_is: { table.shared.table_id ≡ J.run.table },
    ghost roster_is: { table.shared.key ≡ J.run.roster },
    ghost words: { table.shared.table_id.words ≡ 16 },
    ghost no_slots: { table.shared.table_id.slots ≡ 0 },
}

impl<J: Naming> Journal<J> {
    // A look: the seat has then seen all.
    pub(crate) fn watch(&self, seat: &mut Token) -> u64
        requires { IsSeat J.run.table seat.old }
        ensures seat { IsSeat J.run.table seat.new }
        ensures seen { Looks J.run.roster seat.old.me.0 result seat.new.me.0 }
    {
        self.table.shared.load::<Look<J>>(seat, COUNT)
    }

    // The one step that changes the history. The entry and its work are named for the proof alone.
    pub(crate) fn add<E: Adding>(&self, seat: &mut Token, _entry: &Entry, _work: &Work) -> u64
        requires seat { IsSeat J.run.table seat.old }
        requires picked { (E.noted.entry ≡ _entry.now) × (E.noted.work ≡ _work.now) }
        requires may { MayAdd J.run.roster seat.old.me.0 E.noted }
        ensures seat { IsSeat J.run.table seat.new }
        ensures added { Adds J.run.roster E.noted seat.old.me.0 result seat.new.me.0 }
    {
        self.table.shared.fetch_add::<Add<J, E>>(seat, COUNT, 1)
    }

    // Hands a number over to a new seat.
    pub(crate) fn hand<N: Handing>(&self, seat: &mut Token, _number: Number) -> Token
        requires { IsSeat J.run.table seat.old × (N.number ≡ _number) }
        ensures seats { IsSeat J.run.table seat.new × IsSeat J.run.table result }
        ensures kept { seat.new.me.0 ≡ handed_over N.number seat.old.me.0 }
        ensures given { result.me.0 ≡ only N.number seat.old.me.0 }
    {
        self.table.shared.split_seat::<Hand<N>>(seat)
    }

    // Takes in another seat, with its numbers.
    pub(crate) fn take_in(&self, seat: &mut Token, other: Token)
        requires { IsSeat J.run.table seat.old × IsSeat J.run.table other }
        ensures seat { IsSeat J.run.table seat.new }
        ensures both { seat.new.me.0 ≡ both_seen seat.old.me.0 other.me.0 }
    {
        self.table.shared.join_seat::<Merge>(seat, other);
    }
}
