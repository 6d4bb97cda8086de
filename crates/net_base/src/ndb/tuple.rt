//! Tuples as they are lent.
ghost use Rattle.std.specs.Prelude.{◌≡◌, ◌<◌, [], length, get_or};
ghost use Rattle.std.specs.List.{list_any};
ghost use Rattle.net_base.specs.Search as spec;

use crate::ndb::line::Line;
use crate::ndb::runs::{Runs, begin_of};
use std::marker::Model;

/// A tuple of a database, which contracts see as the list of its lines.
#[derive(Drop)]
pub struct Tuple<'a> {
    pub(crate) runs: &'a Runs,
    pub(crate) first: usize,
    pub(crate) end: usize,
}

impl<'a> Model for Tuple<'a> {
    ghost use Rattle.std.specs.Prelude.{◌≤◌, List, length, slice_range};
    ghost use Rattle.net_base.specs.Ndb.{NdbPair};
    ghost use Rattle.net_base.specs.Store.{lines_in, AreSound};

    ghost Value = { List (List NdbPair) };

    ghost view = { λ t. slice_range (lines_in t.runs.now) t.first t.end };

    ghost invariant = { λ t. AreSound t.runs.now × (t.first ≤ t.end) × (t.end ≤ length t.runs.now.lines.items) };
}

impl<'a> Tuple<'a> {
    /// This tuple, lent once more.
    pub fn again(&self) -> Tuple<'a>
        ensures { result ≡ self.now }
    {
        Tuple {
            runs: self.runs,
            first: self.first,
            end: self.end,
        }
    }

    /// How many lines it has.
    #[tactic(auto, using(crate::proofs::Found::tuple_len))]
    #[inline(always)]
    pub fn len(&self) -> usize
        ensures { result ≡ length self.now }
    {
        self.end - self.first
    }

    /// The line with this number, from 0.
    #[tactic(auto, using(crate::proofs::Found::tuple_len, crate::proofs::Found::line_found, crate::proofs::Found::line_within))]
    #[inline(always)]
    pub fn line(&self, number: usize) -> Line<'a>
        requires { number < length self.now }
        ensures { result ≡ get_or self.now number [] }
    {
        let place = self.first + number;
        Line {
            runs: self.runs,
            first: begin_of(&self.runs.lines, place),
            end: self.runs.lines[place] as usize,
        }
    }

    /// Whether the pair stands in the tuple.
    pub fn has(&self, attr: &[u8], value: &[u8]) -> bool
        ensures { result ≡ spec.tuple_has attr.now value.now self.now }
    {
        for number in 0..self.len() {
            if self.line(number).has(attr, value) {
                return true;
            }
        }
        false
    }

    /// Whether the attribute stands in the tuple.
    pub fn names(&self, attr: &[u8]) -> bool
        ensures { result ≡ list_any (list_any (spec.has_attr attr.now)) self.now }
    {
        for number in 0..self.len() {
            if self.line(number).names(attr) {
                return true;
            }
        }
        false
    }
}
