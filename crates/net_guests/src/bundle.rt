//! A bundle: what a guest carries.
ghost use Rattle.std.specs.Prelude.{◌≡◌, ◌<◌, [], not, length, ◌==◌, IfOk};
ghost use Rattle.std.specs.Arc.{arc_value};
ghost use Rattle.net_base.specs.declared.noted.Number.TheVariants.{Caller};
ghost use Rattle.net_base.specs.declared.world.Script.{Script};
ghost use Rattle.net_base.specs.Callers.{IsScript, caller_of};
ghost use Rattle.net_base.specs.Next.{zone_of};
ghost use Rattle.net_base.specs.Stamped.{In};
ghost use Rattle.duties.specs.Marks.{Covers};
ghost use Rattle.net_guests.specs.Visits.{IsComplete, IsFresh, IsWith, Visit};
ghost use Rattle.net_locks.specs.Turns.{own_seen};

use duties::{Duties, Touched};
use journal::{Journal, Naming, Pass};
use ndb_index::IndexedVersions;
use net_locks::{Bearer, Calendar, Placing, Visitor, guests_begin, guests_meet};
use script_task::Names;
use std::alloc::{AllocError, Global};
use std::marker::Model;
use std::sync::Arc;

/// A caller with what it has at the locks, and the names that it has bound. Clauses see these, its number and the moment, and
/// what else is known of it. It may be without its number while the clock has that, so whether it is complete is said of each
/// call.
#[derive(Drop)]
pub struct Bundle<J: Naming + Placing> {
    pub(crate) visitor: Visitor<J>,
    pub(crate) fids: Names,
    pub(crate) host: u32,
}

impl<J: Naming + Placing> Model for Bundle<J> {
    ghost use Rattle.net_guests.specs.Visits.{Carried, visit_of};

    ghost Value = { Carried };

    ghost view = { λ b. record {
      visit = visit_of b.visitor b.fids.names;
      host = b.host;
      touched = b.visitor.touched;
      calendar = b.visitor.calendar;
    } };
}

impl<J: Naming + Placing> Bundle<J> {
    /// That of a caller to whom nothing has happened, of a script's host.
    pub fn fresh(
        alloc: Global,
        dbs: Arc<IndexedVersions, Global>,
        pass: Pass<J>,
        caller: u32,
        host: u32,
    ) -> Bundle<J>
        requires dbs { arc_value dbs ≡ J.world.dbs }
        requires some { 0 < length (arc_value dbs) }
        requires seen { pass.seen ≡ [] }
        requires held { In (Caller caller, []) pass.held }
        requires known { caller < J.run.roster.callers }
        requires home { (s : Script) → caller_of J.world caller ≡ IsScript s → s.host ≡ host }
        ensures complete { IsComplete J.world J.run.roster result }
        ensures fresh { IsFresh (zone_of J.world) caller result.visit }
    {
        guests_begin();
        let bearer = Bearer {
            pass,
            caller,
            now: 0,
        };
        Bundle {
            visitor: Visitor {
                bearer,
                duties: Duties::new(alloc),
                touched: Touched::new(alloc),
                calendar: Calendar::new(alloc),
            },
            fids: Names::new(alloc, dbs),
            host,
        }
    }

    /// The pass alone.
    pub fn into_pass(self) -> Pass<J>
        ensures same { result ≡ self.visit.sight }
    {
        let Bundle {
            visitor,
            fids: _,
            host: _,
        } = self;
        let Visitor {
            bearer,
            duties: _,
            touched: _,
            calendar: _,
        } = visitor;
        let Bearer {
            pass,
            caller: _,
            now: _,
        } = bearer;
        pass
    }

    /// The pass takes this one in: who was with it is still, and this caller is.
    pub fn meet(self, journal: &Journal<J>, all: &mut Pass<J>)
        requires complete { IsComplete J.world J.run.roster self }
        ensures kept { (v : Visit) → IsWith J.world J.run.roster v all.old → IsWith J.world J.run.roster v all.new }
        ensures taken { IsWith J.world J.run.roster self.visit all.new }
    {
        guests_meet();
        journal.meet(all, self.into_pass());
    }

    /// The conversations at which something was recorded since the clock last moved.
    pub fn touched(&self, alloc: Global) -> Result<Touched, AllocError>
        requires complete { IsComplete J.world J.run.roster self.now }
        ensures { IfOk result (Covers (own_seen self.entry.now.visit.caller self.entry.now.visit.sight)) }
    {
        self.visitor.touched.copy(alloc)
    }

    /// Which caller.
    pub fn caller(&self) -> u32
        ensures { result ≡ self.entry.now.visit.caller }
    {
        self.visitor.bearer.caller
    }

    /// The host of a script.
    pub fn host(&self) -> u32
        ensures { result ≡ self.entry.now.host }
    {
        self.host
    }

    /// The moment.
    pub fn now(&self) -> u64
        ensures { result ≡ self.entry.now.visit.now }
    {
        self.visitor.bearer.now
    }

    /// Whether a duty is owed.
    pub fn owes(&self) -> bool
        ensures { result ≡ not (length self.entry.now.visit.owed == 0) }
    {
        !self.visitor.duties.is_empty()
    }

    /// Whether the caller has recorded as much as it may.
    pub fn is_full(&self) -> bool
        requires complete { IsComplete J.world J.run.roster self.now }
        ensures { result ≡ (length (own_seen self.entry.now.visit.caller self.entry.now.visit.sight) == 131072) }
    {
        let bearer = &self.visitor.bearer;
        bearer.pass.room(bearer.caller) == 0
    }

    /// The names that are bound.
    pub fn fids(&self) -> &Names
        ensures { result.now.names ≡ self.entry.now.visit.names }
    {
        &self.fids
    }
}
