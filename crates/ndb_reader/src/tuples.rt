//! Tuples that are counted where they are looked at.
ghost use Rattle.std.specs.Prelude.{◌≡◌, ◌+◌, ◌<◌, [], length, get_or};
ghost use Rattle.net_base.specs.Ndb.{NdbPair};
ghost use Rattle.net_base.specs.Store.{all_pairs};
ghost use Rattle.net_base.specs.Spots.{pair_spots};
ghost use Rattle.net_base.specs.declared.ndb.spot.Spot.{Spot as Seen};

use crate::steps::Steps;
use net_base::{Db, NdbPair, Spot, Tuple};
use std::marker::Model;
use std::sync::ledger::Ledger;

/// The tuples of a database, which contracts see as a list. The only way to one costs a step, and the only way to a pair alone a step of its own kind.
#[derive(Drop)]
pub struct Tuples {
    tuples: Db,
}

impl Model for Tuples {
    ghost use Rattle.std.specs.Prelude.{List};
    ghost use Rattle.net_base.specs.Ndb.{NdbPair};

    ghost Value = { List (List (List NdbPair)) };

    ghost view = { λ t. t.tuples };
}

impl Tuples {
    /// The tuples of a database. It takes no memory.
    pub fn new(db: Db) -> Tuples
        ensures { result ≡ db }
    {
        Tuples { tuples: db }
    }

    /// How many tuples there are.
    pub fn len(&self) -> usize
        ensures { result ≡ length self.now }
    {
        self.tuples.len()
    }

    /// The tuple at a place, for one step.
    pub fn at<L: Ledger>(&self, place: u64, steps: &mut Steps<L>) -> Tuple<'_>
        requires { place < length self.now }
        ensures tuple { result ≡ get_or self.now place [] }
        ensures cost { steps.new ≡ steps.old + 1 }
    {
        steps.tick();
        self.tuples.tuple(place as usize)
    }

    /// How many pairs all tuples have together.
    #[inline(always)]
    pub fn pair_count(&self) -> usize
        ensures { result ≡ length (all_pairs self.now) }
    {
        self.tuples.pair_count()
    }

    /// The pair with this number, where all pairs are counted in a row, for one step. It looks at no tuple.
    #[inline(always)]
    pub fn pair<P: Ledger>(&self, number: usize, steps: &mut Steps<P>) -> NdbPair<'_>
        requires { number < length (all_pairs self.now) }
        ensures pair { (d : NdbPair) → result ≡ get_or (all_pairs self.now) number d }
        ensures cost { steps.new ≡ steps.old + 1 }
    {
        steps.tick();
        self.tuples.pair(number)
    }

    /// Where the pair with this number stands.
    pub fn spot(&self, number: usize) -> Spot
        requires { number < length (all_pairs self.now) }
        ensures { (d : Seen) → result ≡ get_or (pair_spots self.now) number d }
    {
        self.tuples.spot(number)
    }
}
