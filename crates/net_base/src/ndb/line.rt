//! Lines as they are lent.
ghost use Rattle.std.specs.Prelude.{◌≡◌, ◌<◌, length, get_or};
ghost use Rattle.std.specs.List.{list_any};
ghost use Rattle.net_base.specs.Search as spec;
ghost use Rattle.net_base.specs.Ndb.{NdbPair};

use crate::ndb::pair::NdbPair;
use crate::ndb::runs::Runs;
use std::marker::Model;

/// A line of a tuple, which contracts see as the list of its pairs.
#[derive(Drop)]
pub struct Line<'a> {
    pub(crate) runs: &'a Runs,
    pub(crate) first: usize,
    pub(crate) end: usize,
}

impl<'a> Model for Line<'a> {
    ghost use Rattle.std.specs.Prelude.{◌≤◌, List, length, slice_range};
    ghost use Rattle.net_base.specs.Ndb.{NdbPair};
    ghost use Rattle.net_base.specs.Store.{pairs_in, AreSound};

    ghost Value = { List NdbPair };

    ghost view = { λ l. slice_range (pairs_in l.runs.now) l.first l.end };

    ghost invariant = { λ l. AreSound l.runs.now × (l.first ≤ l.end) × (l.end ≤ length l.runs.now.pairs.items) };
}

impl<'a> Line<'a> {
    /// How many pairs it has.
    #[tactic(auto, using(crate::proofs::Found::line_len))]
    #[inline(always)]
    pub fn len(&self) -> usize
        ensures { result ≡ length self.now }
    {
        self.end - self.first
    }

    /// The pair with this number, from 0.
    #[inline(always)]
    pub fn pair(&self, number: usize) -> NdbPair<'a>
        requires { number < length self.now }
        ensures { (d : NdbPair) → result ≡ get_or self.now number d }
    {
        self.runs.pair(self.first + number)
    }

    /// Whether the pair stands on the line.
    pub fn has(&self, attr: &[u8], value: &[u8]) -> bool
        ensures { result ≡ spec.line_has attr.now value.now self.now }
    {
        for number in 0..self.len() {
            if self.pair(number).is(attr, value) {
                return true;
            }
        }
        false
    }

    /// Whether the attribute stands on the line.
    pub fn names(&self, attr: &[u8]) -> bool
        ensures { result ≡ list_any (spec.has_attr attr.now) self.now }
    {
        for number in 0..self.len() {
            if self.pair(number).has_attr(attr) {
                return true;
            }
        }
        false
    }
}
