//! A guest's turns at the locks.
ghost use Rattle.std.specs.Prelude.{◌≡◌, ◌≢◌, [], None, Some, OnOk, slice_get};
ghost use Rattle.net_base.specs.declared.actor.ActorName.TheVariants as name;
ghost use Rattle.net_base.specs.declared.event.Event.TheVariants as event;
ghost use Rattle.net_base.specs.declared.world.Script.{Script as AnyScript};
ghost use Rattle.net_base.specs.Callers.{IsCourier, IsScript, caller_of};
ghost use Rattle.net_base.specs.Duties.{Duty as AnyDuty};
ghost use Rattle.script_task.specs.Effects as effects;
ghost use Rattle.duties.specs.Queue.{work_of_duty};
ghost use Rattle.net_guests.specs.Visits.{IsComplete, IsSameVisit, Operated, TakesPasses, settled_by};
ghost use Rattle.net_locks.specs.Turns.{bare};

use crate::bundle::Bundle;
use journal::Naming;
use net_base::{ActorName, Event};
use net_locks::{Locks, Placing, Spot, Turn, WorldActor, turns_are_these};
use outside::Gate;
use script_task::{Effect, Names, Planned, Request, effects_settle, plan};
use std::alloc::AllocError;
use std::sync::Wait;

/// Where the actor of a guest's first duty stands.
pub fn first_spot<J: Naming + Placing>(
    locks: &Locks<J, WorldActor<J>>,
    bundle: &Bundle<J>,
) -> Spot {
    match bundle.visitor.duties.first() {
        Some(duty) => locks.spot_of(duty.actor, &duty.work().event),
        None => Spot::nowhere(),
    }
}

impl<J: Naming + Placing> Bundle<J> {
    /// The first duty is recorded.
    pub fn serve<R: Wait, G: Gate>(
        &mut self,
        rt: &R,
        gate: &G,
        locks: &Locks<J, WorldActor<J>>,
    ) -> Turn
        requires complete { IsComplete J.world J.run.roster self.old }
        requires owes { self.old.visit.owed ≢ [] }
        ensures complete { IsComplete J.world J.run.roster self.new }
        ensures same { IsSameVisit self.old.visit self.new.visit }
        ensures names { self.new.visit.names ≡ self.old.visit.names }
        ensures turn { (d : AnyDuty) → slice_get self.old.visit.owed 0 ≡ Some d
            → TakesPasses J.tasks J.world d.actor (work_of_duty d) (Some d.cites) self.old.visit result self.new.visit }
    {
        locks.serve(rt, gate, &mut self.visitor)
    }

    /// The first duty is recorded, or a copy of a courier's medium is taken where nothing is owed.
    pub fn courier_turn<R: Wait, G: Gate>(
        &mut self,
        rt: &R,
        gate: &G,
        locks: &Locks<J, WorldActor<J>>,
        medium: u32,
    ) -> Turn
        requires complete { IsComplete J.world J.run.roster self.old }
        requires courier { caller_of J.world self.old.visit.caller ≡ IsCourier medium }
        ensures complete { IsComplete J.world J.run.roster self.new }
        ensures same { IsSameVisit self.old.visit self.new.visit }
        ensures names { self.new.visit.names ≡ self.old.visit.names }
        ensures duty { (d : AnyDuty) → slice_get self.old.visit.owed 0 ≡ Some d
            → TakesPasses J.tasks J.world d.actor (work_of_duty d) (Some d.cites) self.old.visit result self.new.visit }
        ensures free { self.old.visit.owed ≡ []
            → TakesPasses J.tasks J.world (name.Medium medium) (bare event.Take) None self.old.visit result
            self.new.visit }
    {
        turns_are_these();
        if self.owes() {
            return self.serve(rt, gate, locks);
        }
        let actor = ActorName::Medium(medium);
        locks.own(rt, gate, &mut self.visitor, actor, Event::Take)
    }

    /// The event of a script's request is recorded, and the names are those after its reply. The spot is then that of the
    /// actor, where the turn came so far.
    pub fn operate<R: Wait, G: Gate>(
        &mut self,
        rt: &R,
        gate: &G,
        locks: &Locks<J, WorldActor<J>>,
        request: &Request,
        spot: &mut Spot,
    ) -> Turn
        requires complete { IsComplete J.world J.run.roster self.old }
        requires script { (s : AnyScript) × (caller_of J.world self.old.visit.caller ≡ IsScript s) }
        ensures complete { IsComplete J.world J.run.roster self.new }
        ensures same { IsSameVisit self.old.visit self.new.visit }
        ensures turn { (s : AnyScript) → caller_of J.world self.old.visit.caller ≡ IsScript s
            → Operated J.tasks J.world s.host request.now self.old.visit result self.new.visit }
    {
        if self.owes() {
            return Turn::Owes;
        }
        if self.visitor.bearer.pass.room(self.visitor.bearer.caller) == 0 {
            return Turn::Limit;
        }
        match request.clone() {
            Ok(request) => self.operate_once(rt, gate, locks, request, spot),
            Err(_) => Turn::Memory,
        }
    }

    /// Plays a turn of a request that nobody needs any longer: no text of it is copied on the way to the actor.
    pub fn operate_once<R: Wait, G: Gate>(
        &mut self,
        rt: &R,
        gate: &G,
        locks: &Locks<J, WorldActor<J>>,
        request: Request,
        spot: &mut Spot,
    ) -> Turn
        requires complete { IsComplete J.world J.run.roster self.old }
        requires script { (s : AnyScript) × (caller_of J.world self.old.visit.caller ≡ IsScript s) }
        ensures complete { IsComplete J.world J.run.roster self.new }
        ensures same { IsSameVisit self.old.visit self.new.visit }
        ensures turn { (s : AnyScript) → caller_of J.world self.old.visit.caller ≡ IsScript s
            → Operated J.tasks J.world s.host request self.old.visit result self.new.visit }
    {
        turns_are_these();
        effects_settle();
        if self.owes() {
            return Turn::Owes;
        }
        if self.visitor.bearer.pass.room(self.visitor.bearer.caller) == 0 {
            return Turn::Limit;
        }
        let Planned {
            actor,
            event,
            effect,
        } = plan(self.host, &self.fids, request);
        if reserve(&mut self.fids, &effect).is_err() {
            return Turn::Memory;
        }
        *spot = locks.spot_of(actor, &event);
        let turn = locks.own(rt, gate, &mut self.visitor, actor, event);
        settle_turn(&mut self.fids, effect, &turn);
        turn
    }
}

// Room for the name that a reply may bind.
fn reserve(fids: &mut Names, effect: &Effect) -> Result<(), AllocError>
    ensures names { fids.new.names ≡ fids.old.names }
    ensures ok { OnOk result (effects.EffectHasRoom effect.now fids.new) }
{
    match effect {
        Effect::Opens { name, .. } => fids.reserve(name.as_slice()),
        _ => Ok(()),
    }
}

// The names after a turn. There is room for what its reply binds.
fn settle_turn(fids: &mut Names, effect: Effect, turn: &Turn)
    requires { effects.EffectHasRoom effect fids.old }
    ensures { fids.new ≡ settled_by effect turn.now fids.old }
{
    if let Turn::Recorded { reply, .. } = turn {
        let opened = effect.opened(reply);
        let _ = effect.settle(fids, opened);
    }
}
