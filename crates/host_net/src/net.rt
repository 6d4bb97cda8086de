//! The net behind locks, with a guest for each caller.
ghost use Rattle.std.specs.Prelude.{◌≡◌, ◌≢◌, ◌<◌, ℕ, [], None, Some, IfOk, slice_get, length};
ghost use Rattle.std.specs.Arc.{arc_value};
ghost use Rattle.net_base.specs.declared.actor.ActorName.TheVariants as name;
ghost use Rattle.net_base.specs.declared.event.Event.TheVariants as event;
ghost use Rattle.net_base.specs.declared.world.Script.{Script as AnyScript};
ghost use Rattle.net_base.specs.Callers.{IsClock, IsCourier, IsScript, caller_count as callers_in, caller_of};
ghost use Rattle.net_base.specs.Duties.{Duty as AnyDuty};
ghost use Rattle.net_base.specs.Next.{zone_of};
ghost use Rattle.net_base.specs.World.{IsWorld};
ghost use Rattle.journal.specs.Rule.{caller_numbers};
ghost use Rattle.duties.specs.Queue.{work_of_duty};
ghost use Rattle.net_locks.specs.Guests.{IsOfGuests};
ghost use Rattle.net_locks.specs.Rosters.{IsRosterOf};
ghost use Rattle.net_locks.specs.Standings.{AllStand};
ghost use Rattle.net_guests.specs.Deciding.{LeavesGuest};
ghost use Rattle.net_guests.specs.Visits.{AreFresh, Finished, HasGuest, IsSameVisit, Operated, TakesPasses};
ghost use Rattle.net_locks.specs.Turns.{bare};

use crate::finishing::gather;
use crate::guest::Guest;
use journal::{ClosedBooks, Journal, Naming, Pass};
use locked::Machine;
use ndb_index::IndexedVersions;
use net_base::{History, World};
use net_guests::first_spot;
use net_locks::{
    Advance, Locks, NetOpened, Placing, Spot, Standing, Turn, WorldActor, caller_count,
    histories_of_guests_are_legal,
};
use outside::Gate;
use script_task::Request;
use std::alloc::{AllocError, Global};
use std::sync::{Arc, Wait};

/// Every actor of a world behind its lock, each at its number.
#[derive(Drop)]
pub struct Net<J: Naming + Placing, M: Machine> {
    pub(crate) locks: Locks<J, M>,
}

impl<J: Naming + Placing> Net<J, WorldActor<J>> {
    /// The actors of a world behind their locks, and a guest for each caller in the order of their numbers.
    pub fn named(
        alloc: Global,
        world: &World,
        opened: NetOpened,
    ) -> Result<(Net<J, WorldActor<J>>, Vec<Guest<J>>), AllocError>
        requires name { opened ≡ J.run }
        requires world { J.world ≡ world.now }
        requires is { IsWorld world.now }
        requires roster { IsRosterOf J.world J.run.roster }
        ensures many { IfOk result (λ r. length r.1.items ≡ J.run.roster.callers) }
        ensures fresh { IfOk result (λ r. AreFresh (zone_of J.world) 0 r.1.items) }
    {
        let dbs = Arc::new(alloc, IndexedVersions::new(alloc, world.dbs.as_slice())?)?;
        let (locks, pass) = Locks::<J, WorldActor<J>>::named(alloc, world, &dbs, opened)?;
        let guests = guests_of(alloc, world, &dbs, locks.journal(), pass)?;
        Ok((Net { locks }, guests))
    }

    // Where the actor of a guest's first duty stands.
    pub(crate) fn first_spot(&self, guest: &Guest<J>) -> Spot {
        first_spot(&self.locks, &guest.bundle)
    }

    /// The first duty of a guest is recorded.
    pub fn serve<R: Wait, G: Gate>(&self, rt: &R, gate: &G, guest: &mut Guest<J>) -> Turn
        requires owes { guest.old.owed ≢ [] }
        ensures same { IsSameVisit guest.old guest.new }
        ensures names { guest.new.names ≡ guest.old.names }
        ensures turn { (d : AnyDuty) → slice_get guest.old.owed 0 ≡ Some d
            → TakesPasses J.tasks J.world d.actor (work_of_duty d) (Some d.cites) guest.old result guest.new }
    {
        guest.bundle.serve(rt, gate, &self.locks)
    }

    /// A guest serves its first duty, or takes a copy of its medium where it owes nothing.
    pub fn courier_turn<R: Wait, G: Gate>(
        &self,
        rt: &R,
        gate: &G,
        guest: &mut Guest<J>,
        medium: u32,
    ) -> Turn
        requires courier { caller_of J.world guest.old.caller ≡ IsCourier medium }
        ensures same { IsSameVisit guest.old guest.new }
        ensures names { guest.new.names ≡ guest.old.names }
        ensures duty { (d : AnyDuty) → slice_get guest.old.owed 0 ≡ Some d
            → TakesPasses J.tasks J.world d.actor (work_of_duty d) (Some d.cites) guest.old result guest.new }
        ensures free { guest.old.owed ≡ []
            → TakesPasses J.tasks J.world (name.Medium medium) (bare event.Take) None guest.old result guest.new }
    {
        guest.bundle.courier_turn(rt, gate, &self.locks, medium)
    }

    /// The event of a request of a script is recorded, and the names are those after its reply.
    pub fn operate<R: Wait, G: Gate>(
        &self,
        rt: &R,
        gate: &G,
        guest: &mut Guest<J>,
        request: &Request,
    ) -> Turn
        requires script { (s : AnyScript) × (caller_of J.world guest.old.caller ≡ IsScript s) }
        ensures same { IsSameVisit guest.old guest.new }
        ensures turn { (s : AnyScript) → caller_of J.world guest.old.caller ≡ IsScript s
            → Operated J.tasks J.world s.host request.now guest.old result guest.new }
    {
        guest
            .bundle
            .operate(rt, gate, &self.locks, request, &mut Spot::nowhere())
    }

    // Plays a turn of a request that nobody needs any longer. The spot is then that of the actor, where the turn came so far.
    pub(crate) fn operate_at<R: Wait, G: Gate>(
        &self,
        rt: &R,
        gate: &G,
        guest: &mut Guest<J>,
        request: Request,
        spot: &mut Spot,
    ) -> Turn
        requires script { (s : AnyScript) × (caller_of J.world guest.old.caller ≡ IsScript s) }
        ensures same { IsSameVisit guest.old guest.new }
        ensures turn { (s : AnyScript) → caller_of J.world guest.old.caller ≡ IsScript s
            → Operated J.tasks J.world s.host request guest.old result guest.new }
    {
        guest
            .bundle
            .operate_once(rt, gate, &self.locks, request, spot)
    }

    // What the clock does, where its guest's pass holds the numbers of all callers and they stand so.
    pub(crate) fn decide<R: Wait, G: Gate>(
        &self,
        rt: &R,
        gate: &G,
        world: &World,
        standings: &[Standing],
        clock: &mut Guest<J>,
    ) -> Advance
        requires world { J.world ≡ world.now }
        requires is { IsWorld world.now }
        requires clock { caller_of J.world clock.old.caller ≡ IsClock }
        requires all { AllStand J.tasks J.world J.run.roster clock.old.sight standings.now }
        ensures guests { IsOfGuests J.world J.run.roster clock.old.sight.seen }
        ensures leaves { LeavesGuest J.tasks J.world J.run.roster clock.old result clock.new }
    {
        clock.bundle.decide(rt, gate, &self.locks, world, standings)
    }

    /// The history, by the guests of all callers.
    pub fn finish(self, alloc: Global, guests: Vec<Guest<J>>) -> Result<History, AllocError>
        requires all { (c : ℕ) → c < J.run.roster.callers → HasGuest c guests.items }
        ensures { IfOk result (Finished J.tasks J.world guests.items) }
    {
        let books = self.finish_in_books(alloc, guests)?;
        books.into_history(alloc)
    }

    /// Ends the run, and leaves each entry where its actor's book has it.
    pub fn finish_in_books(
        self,
        alloc: Global,
        mut guests: Vec<Guest<J>>,
    ) -> Result<ClosedBooks, AllocError>
        requires all { (c : ℕ) → c < J.run.roster.callers → HasGuest c guests.items }
        ensures { IfOk result (Finished J.tasks J.world guests.items) }
    {
        histories_of_guests_are_legal();
        let Net { locks } = self;
        let (journal, books) = locks.into_parts(alloc)?;
        let Some(last) = guests.pop() else {
            return Err(AllocError);
        };
        let mut all = last.into_pass();
        gather(&journal, &mut all, guests);
        journal.close_in_books(alloc, all, books)
    }
}

// A guest for each caller.
fn guests_of<J: Naming + Placing>(
    alloc: Global,
    world: &World,
    dbs: &Arc<IndexedVersions, Global>,
    journal: &Journal<J>,
    mut pass: Pass<J>,
) -> Result<Vec<Guest<J>>, AllocError>
    requires world { J.world ≡ world.now }
    requires is { IsWorld world.now }
    requires dbs { arc_value dbs.now ≡ world.now.dbs }
    requires callers { J.run.roster.callers ≡ callers_in J.world }
    requires seen { pass.seen ≡ [] }
    requires held { pass.held ≡ caller_numbers J.run.roster.callers }
    ensures many { IfOk result (λ guests. length guests.items ≡ J.run.roster.callers) }
    ensures fresh { IfOk result (λ guests. AreFresh (zone_of J.world) 0 guests.items) }
{
    let callers = caller_count(world);
    let mut guests = Vec::with_capacity(alloc, callers as usize)?;
    for caller in 0..callers {
        let own = journal.split_pass(&mut pass, caller);
        let dbs = Arc::try_clone(dbs)?;
        guests.push(Guest::fresh(alloc, dbs, own, caller, host_of(world, caller)))?;
    }
    Ok(guests)
}

// The host of a script, or 0 for another caller.
fn host_of(world: &World, caller: u32) -> u32
    ensures { (s : AnyScript) → caller_of world.now caller ≡ IsScript s → s.host ≡ result }
{
    match world.scripts.as_slice().get(caller as usize) {
        Some(script) => script.host,
        None => 0,
    }
}
