//! A database that grows pair by pair.
ghost use Rattle.std.specs.Prelude.{◌≡◌, [], length, OnOk, OnErr};
ghost use Rattle.net_base.specs.Store.{pair_with, empty, with_pair, line_ended, tuple_ended};

use crate::ndb::db::Db;
use crate::ndb::runs::{Runs, begin_of};
use std::alloc::{AllocError, Global};
use std::marker::Model;

/// A database that grows: its tuples, and behind them a tuple and a line that are open.
#[derive(Drop)]
pub struct Growing {
    runs: Runs,
}

impl Model for Growing {
    ghost use Rattle.net_base.specs.Store.{Grown, grown, AreSound};

    ghost Value = { Grown };

    ghost view = { λ g. grown g.runs };

    ghost invariant = { λ g. AreSound g.runs };
}

impl Growing {
    /// Nothing, which takes no memory yet.
    pub fn new(alloc: Global) -> Growing
        ensures { result ≡ empty }
    {
        Growing {
            runs: Runs::new(alloc),
        }
    }

    /// Adds a pair to the line that is open.
    pub fn push(&mut self, attr: &[u8], value: &[u8]) -> Result<(), AllocError>
        ensures ok { OnOk result (self.new ≡ with_pair (pair_with attr.now value.now) self.old) }
        ensures err { OnErr result (self.new ≡ self.old) }
    {
        self.runs.push(attr, value)
    }

    /// Ends the line that is open, with the pairs that it has.
    pub fn end_line(&mut self) -> Result<(), AllocError>
        ensures ok { OnOk result (self.new ≡ line_ended self.old) }
        ensures err { OnErr result (self.new ≡ self.old) }
    {
        self.runs.end_line()
    }

    /// Ends the tuple that is open, with the lines that it has.
    pub fn end_tuple(&mut self) -> Result<(), AllocError>
        ensures ok { OnOk result (self.new ≡ tuple_ended self.old) }
        ensures err { OnErr result (self.new ≡ self.old) }
    {
        self.runs.end_tuple()
    }

    /// How many tuples have ended.
    #[tactic(auto, using(crate::proofs::Found::tuples_len))]
    pub fn tuple_count(&self) -> usize
        ensures { result ≡ length self.now.tuples }
    {
        self.runs.tuples.len()
    }

    /// How many lines the tuple that is open has.
    #[tactic(auto, using(crate::proofs::Found::first_within, crate::proofs::Found::open_count))]
    pub fn line_count(&self) -> usize
        ensures { result ≡ length self.now.lines }
    {
        let first = begin_of(&self.runs.tuples, self.runs.tuples.len());
        self.runs.lines.len() - first
    }

    /// The database. It takes no memory.
    #[tactic(auto, using(crate::proofs::Found::is_whole))]
    pub fn finish(self) -> Db
        requires lines { self.lines ≡ [] }
        requires pairs { self.pairs ≡ [] }
        ensures { result ≡ self.tuples }
    {
        let Growing { runs } = self;
        Db { runs }
    }
}
