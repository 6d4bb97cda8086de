// A journal that was just made, before the run has a name.
ghost use Rattle.std.specs.Prelude.{◌≡◌, ◌<◌, ◌≤◌, [], length, IfOk};
ghost use Rattle.journal.specs.Rule.{caller_numbers};
ghost use Rattle.journal.specs.Tokens.{Distinct, AreBlank};

use crate::law::{Law, Naming, Roster, View};
use crate::tokens::{Book, Pass};
use crate::word::{Journal, Token, WORDS};
use atomic_table::Table;
use net_base::{ActorList, ActorName, Number};
use std::alloc::{AllocError, Global};
use std::marker::{Brand, Model, PhantomData};

/// A journal with an empty history, which has no name yet. Contracts see which one it is, with its callers and actors.
#[derive(Drop)]
pub struct Opened {
    table: Table<(), View, Roster, Law, Global>,
    seat: Token,
    actors: Vec<ActorName>,
}

impl Model for Opened {
    ghost use Rattle.journal.specs.Rule.{Run};
    ghost use Rattle.journal.specs.Tokens.{IsOpened};

    ghost Value = { Run };

    ghost view = { λ o. record { table = o.table.shared.table_id; roster = o.table.shared.key } };

    ghost invariant = { λ o. IsOpened o.table.shared.table_id o.table.shared.key o.seat o.actors.items };
}

impl Opened {
    /// A journal of so many callers and of these actors.
    pub fn new(alloc: Global, callers: u32, actors: &ActorList) -> Result<Opened, AllocError>
        requires { callers ≤ 37 }
        ensures { IfOk result (λ o. o.roster ≡ record { callers = callers; actors = actors.now }) }
    {
        let roster = Roster {
            callers: u64::from(callers),
            actors: actors.clone()?,
        };
        let (table, seat) = Table::of_words(alloc, &[0; WORDS], &roster)?;
        let Roster { callers: _, actors } = roster;
        Ok(Opened {
            table,
            seat,
            actors: actors.into_vec(),
        })
    }

    /// The journal under a name, the pass of all callers, and the books of the actors in their order.
    pub fn named<J: Naming>(
        self,
        alloc: Global,
    ) -> Result<(Journal<J>, Pass<J>, Vec<Book<J>>), AllocError>
        requires name { self ≡ J.run }
        requires distinct { Distinct J.run.roster.actors }
        requires few { length J.run.roster.actors < 2147483648 }
        ensures seen { IfOk result (λ r. r.1.seen ≡ []) }
        ensures held { IfOk result (λ r. r.1.held ≡ caller_numbers J.run.roster.callers) }
        ensures books { IfOk result (λ r. AreBlank 0 J.run.roster.actors r.2.items) }
    {
        let Opened {
            table,
            seat: mut all,
            actors,
        } = self;
        let journal = Journal {
            table,
            of: PhantomData,
        };
        let mut books = Vec::with_capacity(alloc, actors.len())?;
        let mut i = 0;
        while i < actors.len() {
            let actor = actors[i];
            let seat = journal.hand::<Brand>(&mut all, Number::Actor(actor));
            books.push_reserved(Book {
                badge: seat.into_badge(),
                actor,
                number: i as u32,
                entries: Vec::new(alloc),
                of: PhantomData,
            });
            i += 1;
        }
        let pass = Pass {
            seat: all,
            counts: [0; 37],
            of: PhantomData,
        };
        Ok((journal, pass, books))
    }
}
