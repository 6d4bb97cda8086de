// The rule of the journal's word, and what each step on it tells.
use atomic_table::{Join, Play, Split, TableRule};
use net_base::{ActorList, Noted, Number};
use std::collections::LinkedList;
use std::marker::{Brand, PhantomData};

/// How many callers there are, and which actors.
#[derive(Drop)]
pub struct Roster {
    pub callers: u64,
    pub actors: ActorList,
}

/// What a seat of the journal knows of the history. No value of it is made.
pub struct View {
    /// The beginning of the history that the seat has seen.
    pub seen: LinkedList<Noted>,
    /// What two seats had each seen before the one took the other in.
    pub olds: LinkedList<LinkedList<Noted>>,
    /// The callers and actors that the seat acts for, each with all of its entries.
    pub held: LinkedList<(Number, LinkedList<(u64, Noted)>)>,
    /// The clock's entries, by which the seat tells the moment.
    pub clock: LinkedList<(u64, Noted)>,
    /// The clock's entries as two seats each had them before the one took the other in.
    pub clocks: LinkedList<LinkedList<(u64, Noted)>>,
}

/// The rule that every step on the journal's word keeps, over what all seats know.
pub struct Law;

impl TableRule<(), View, Roster> for Law {
    ghost use Rattle.journal.specs.Rule.{KeptBySeat, newcomer};

    ghost holds = { KeptBySeat };

    ghost first = { newcomer };
}

/// Which journal it is. Each run of a program names one.
pub trait Naming {
    ghost use Rattle.journal.specs.Rule.{Run};

    ghost run: { Run };
}

/// A read of the word: the seat has then seen the whole history.
pub struct Look<J: Naming> {
    of: PhantomData<J>,
}

impl<J: Naming> Play<(), View> for Look<J> {
    ghost use Rattle.std.specs.Prelude.{◌≡◌};
    ghost use Rattle.journal.specs.Rule.{Looks};

    ghost then = { λ s me found after. (after.1 ≡ me.1) × Looks J.run.roster me.0 found after.0 };
}

/// Which entry a step adds. Each call names it.
pub trait Adding {
    ghost use Rattle.net_base.specs.declared.noted.Noted.{Noted};

    ghost noted: { Noted };
}

/// Adds an entry.
pub struct Add<J: Naming, E: Adding> {
    run: PhantomData<J>,
    of: PhantomData<E>,
}

impl<J: Naming, E: Adding> Play<(), View> for Add<J, E> {
    ghost use Rattle.std.specs.Prelude.{◌≡◌};
    ghost use Rattle.journal.specs.Rule.{Adds};

    ghost then = { λ s me found after. (after.1 ≡ me.1) × Adds J.run.roster E.noted me.0 found after.0 };
}

/// Which number is handed over. Each call names it.
pub trait Handing {
    ghost use Rattle.net_base.specs.declared.noted.Number.{Number};

    ghost number: { Number };
}

/// A seat hands a number over to a new one.
pub struct Hand<N: Handing> {
    of: PhantomData<N>,
}

impl<N: Handing> Split<View> for Hand<N> {
    ghost use Rattle.journal.specs.Rule.{handed_over, only};

    ghost left = { λ v. handed_over N.number v };

    ghost right = { λ v. only N.number v };
}

/// A seat takes another in.
pub struct Merge;

impl Join<View> for Merge {
    ghost use Rattle.journal.specs.Rule.{both_seen, spent};

    ghost both = { both_seen };

    ghost spent = { spent };
}

impl Naming for Brand {
    ghost use Rattle.journal.specs.Rule.{no_run};

    ghost run = { no_run };
}

impl Adding for Brand {
    ghost use Rattle.journal.specs.Rule.{nothing_noted};

    ghost noted = { nothing_noted };
}

impl Handing for Brand {
    ghost use Rattle.net_base.specs.Stamped.{clock};

    ghost number = { clock };
}
