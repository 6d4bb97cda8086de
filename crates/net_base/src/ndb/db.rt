//! A database in one piece.
ghost use Rattle.std.specs.Prelude.{◌≡◌, ◌<◌, [], length, slice_range, get_or, ◌≤◌};
ghost use Rattle.std.specs.List.{list_any};
ghost use Rattle.net_base.specs.Ndb.{NdbPair};
ghost use Rattle.net_base.specs.Search as spec;
ghost use Rattle.net_base.specs.Store.{all_pairs};
ghost use Rattle.net_base.specs.declared.ndb.spot.Spot.{Spot as Seen};
ghost use Rattle.net_base.specs.Spots.{pair_spots};

use crate::ndb::pair::NdbPair;
use crate::ndb::runs::{Runs, begin_of};
use crate::ndb::spot::Spot;
use crate::ndb::tuple::Tuple;
use std::alloc::{AllocError, Global};
use std::marker::Model;

/// A database, which contracts see as the list of its tuples of lines of pairs.
#[derive(Debug, Drop)]
pub struct Db {
    pub(crate) runs: Runs,
}

impl Model for Db {
    ghost use Rattle.std.specs.Prelude.{List};
    ghost use Rattle.net_base.specs.Ndb.{NdbPair};
    ghost use Rattle.net_base.specs.Store.{tuples_in, AreSound, AreWhole};

    ghost Value = { List (List (List NdbPair)) };

    ghost view = { λ d. tuples_in d.runs };

    ghost invariant = { λ d. AreSound d.runs × AreWhole d.runs };
}

impl Db {
    /// No tuples, which take no memory yet.
    pub fn new(alloc: Global) -> Db
        ensures { result ≡ [] }
    {
        Db {
            runs: Runs::new(alloc),
        }
    }

    /// How many tuples there are.
    #[tactic(auto, using(crate::proofs::Found::tuples_len))]
    pub fn len(&self) -> usize
        ensures { result ≡ length self.now }
    {
        self.runs.tuples.len()
    }

    /// The tuple at a place.
    #[tactic(auto, using(crate::proofs::Found::tuples_len, crate::proofs::Found::tuple_found, crate::proofs::Found::tuple_within))]
    pub fn tuple(&self, place: usize) -> Tuple<'_>
        requires { place < length self.now }
        ensures { result ≡ get_or self.now place [] }
    {
        Tuple {
            runs: &self.runs,
            first: begin_of(&self.runs.tuples, place),
            end: self.runs.tuples[place] as usize,
        }
    }

    /// Keeps the tuples from a place to another. It takes no memory.
    #[tactic(auto, using(crate::proofs::Found::tuples_len))]
    pub fn keep(&mut self, first: usize, end: usize)
        requires rise { first ≤ end }
        requires within { end ≤ length self.old }
        ensures { self.new ≡ slice_range self.old first end }
    {
        self.runs.keep(first, end);
    }

    /// How many pairs all tuples have together.
    #[tactic(auto, using(crate::proofs::Flat::all_count))]
    #[inline(always)]
    pub fn pair_count(&self) -> usize
        ensures { result ≡ length (all_pairs self.now) }
    {
        self.runs.pairs.len()
    }

    /// The pair with this number, where all pairs are counted in a row.
    #[tactic(auto, using(crate::proofs::Flat::all_within, crate::proofs::Flat::all_at))]
    #[inline(always)]
    pub fn pair(&self, number: usize) -> NdbPair<'_>
        requires { number < length (all_pairs self.now) }
        ensures { (d : NdbPair) → result ≡ get_or (all_pairs self.now) number d }
    {
        self.runs.pair(number)
    }

    /// Whether the attribute stands anywhere.
    pub fn names(&self, attr: &[u8]) -> bool
        ensures { result ≡ list_any (spec.has_attr attr.now) (all_pairs self.now) }
    {
        for number in 0..self.pair_count() {
            if self.pair(number).has_attr(attr) {
                return true;
            }
        }
        false
    }

    /// Where the pair with this number stands, where all pairs are counted in a row.
    #[tactic(auto, using(crate::proofs::Flat::all_within))]
    pub fn spot(&self, number: usize) -> Spot
        requires { number < length (all_pairs self.now) }
        ensures { (d : Seen) → result ≡ get_or (pair_spots self.now) number d }
    {
        self.runs.spot(number)
    }
}

impl Clone for Db {
    ghost is_clone = { λ d copy. copy ≡ d };

    fn clone(&self) -> Result<Db, AllocError> {
        let runs = self.runs.copied()?;
        Ok(Db { runs })
    }
}
