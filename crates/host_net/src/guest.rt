//! A guest: what a caller keeps.
ghost use Rattle.std.specs.Prelude.{◌≡◌, ◌<◌, [], not, length, ◌==◌, IfOk};
ghost use Rattle.std.specs.Arc.{arc_value};
ghost use Rattle.net_base.specs.declared.noted.Number.TheVariants.{Caller};
ghost use Rattle.net_base.specs.declared.world.Script.{Script};
ghost use Rattle.net_base.specs.Callers.{IsScript, caller_of};
ghost use Rattle.net_base.specs.Next.{zone_of};
ghost use Rattle.net_base.specs.Stamped.{In};
ghost use Rattle.duties.specs.Marks.{Covers};
ghost use Rattle.net_locks.specs.Guests.{IsGuest};
ghost use Rattle.net_guests.specs.Visits.{IsFresh, IsWith, Visit};
ghost use Rattle.net_locks.specs.Turns.{own_seen};

use duties::Touched;
use journal::{Journal, Naming, Pass};
use ndb_index::IndexedVersions;
use net_guests::Bundle;
use net_locks::Placing;
use script_task::Names;
use std::alloc::{AllocError, Global};
use std::marker::Model;
use std::sync::Arc;

/// A caller's pass, what it owes, and the names that it has bound. Clauses see these, its number and the moment.
#[derive(Drop)]
pub struct Guest<J: Naming + Placing> {
    pub(crate) bundle: Bundle<J>,
}

impl<J: Naming + Placing> Model for Guest<J> {
    ghost use Rattle.net_guests.specs.Visits.{IsComplete, Visit};

    ghost Value = { Visit };

    ghost view = { λ g. g.bundle.visit };

    ghost invariant = { λ g. IsComplete J.world J.run.roster g.bundle };
}

impl<J: Naming + Placing> Guest<J> {
    // The guest of a caller to whom nothing has happened, of a script's host.
    pub(crate) fn fresh(
        alloc: Global,
        dbs: Arc<IndexedVersions, Global>,
        pass: Pass<J>,
        caller: u32,
        host: u32,
    ) -> Guest<J>
        requires dbs { arc_value dbs ≡ J.world.dbs }
        requires some { 0 < length (arc_value dbs) }
        requires seen { pass.seen ≡ [] }
        requires held { In (Caller caller, []) pass.held }
        requires known { caller < J.run.roster.callers }
        requires home { (s : Script) → caller_of J.world caller ≡ IsScript s → s.host ≡ host }
        ensures { IsFresh (zone_of J.world) caller result }
    {
        Guest {
            bundle: Bundle::fresh(alloc, dbs, pass, caller, host),
        }
    }

    // The pass alone.
    pub(crate) fn into_pass(self) -> Pass<J>
        ensures same { result ≡ self.sight }
        ensures guest { IsGuest J.world J.run.roster self.caller result self.owed }
    {
        let Guest { bundle } = self;
        bundle.into_pass()
    }

    // The pass takes that of this guest in.
    pub(crate) fn meet(self, journal: &Journal<J>, all: &mut Pass<J>)
        ensures kept { (v : Visit) → IsWith J.world J.run.roster v all.old → IsWith J.world J.run.roster v all.new }
        ensures taken { IsWith J.world J.run.roster self all.new }
    {
        let Guest { bundle } = self;
        bundle.meet(journal, all);
    }

    // The conversations at which something was recorded since the clock last moved.
    pub(crate) fn touched(&self, alloc: Global) -> Result<Touched, AllocError>
        ensures { IfOk result (Covers (own_seen self.entry.now.caller self.entry.now.sight)) }
    {
        self.bundle.touched(alloc)
    }

    /// Which caller.
    pub fn caller(&self) -> u32
        ensures { result ≡ self.entry.now.caller }
    {
        self.bundle.caller()
    }

    // The host of a script.
    pub(crate) fn host(&self) -> u32
        ensures { (s : Script) → caller_of J.world self.entry.now.caller ≡ IsScript s → s.host ≡ result }
    {
        self.bundle.host()
    }

    /// The moment.
    pub fn now(&self) -> u64
        ensures { result ≡ self.entry.now.now }
    {
        self.bundle.now()
    }

    /// Whether a duty is owed.
    pub fn owes(&self) -> bool
        ensures { result ≡ not (length self.entry.now.owed == 0) }
    {
        self.bundle.owes()
    }

    // Whether the caller has recorded as much as it may.
    pub(crate) fn is_full(&self) -> bool
        ensures { result ≡ (length (own_seen self.entry.now.caller self.entry.now.sight) == 131072) }
    {
        self.bundle.is_full()
    }

    /// The names that are bound.
    pub fn fids(&self) -> &Names
        ensures { result.now.names ≡ self.entry.now.names }
    {
        self.bundle.fids()
    }
}
