//! A turn of a caller at the lock of an actor.
ghost use Rattle.std.specs.Prelude.{◌≡◌, ◌<◌, ◌^◌, ◌≤◌, ◌++◌, ◌∷◌, ℕ, List, [], Option, None, Some, false, IfSome, IsNone, slice_get};
ghost use Rattle.net_base.specs.declared.actor.ActorName.{ActorName as Name};
ghost use Rattle.net_base.specs.declared.actor.ActorName.TheVariants.{Clock};
ghost use Rattle.net_base.specs.declared.history.Work.{Work as AnyWork};
ghost use Rattle.net_base.specs.declared.noted.Noted.{Noted};
ghost use Rattle.net_base.specs.Actors.{has_actor};
ghost use Rattle.net_base.specs.Duties.{Duty as AnyDuty};
ghost use Rattle.net_base.specs.Stamped.{moment_noted, same_actor};
ghost use Rattle.duties.specs.Owing.{Owes, most_owed};
ghost use Rattle.duties.specs.Queue.{work_of_duty};
ghost use Rattle.net_locks.specs.Guests.{IsGuest, IsGuestTurn, deed_at};
ghost use Rattle.duties.specs.Marks.{Covers};
ghost use Rattle.net_locks.specs.Turns.{HasRoom, Turned, bare};
ghost use Rattle.net_locks.specs.Visitors.{Attempted, IsSameBearer, IsVisitor, Visited};
ghost use Rattle.net_locks.specs.declared.turn.Turn.TheVariants as turn;

use crate::law::calendars_stay_known;
use crate::locks::Locks;
use crate::machine::WorldActor;
use crate::placing::Placing;
use crate::visitor::{Bearer, Visitor};
use crate::{
    few_calls_wait, guests_look, guests_record, locks_keep_actors, moves_are_the_clocks,
    no_duty_is_the_clocks, turns_are_these,
};
use duties::{Duties, Duty, Touched};
use journal::Naming;
use locked::{Answer, Asked, Locked};
use net_base::{ActorName, Body, Event, IlKind, Outcome, Reply, With, Work};
use outside::Gate;
use std::sync::Wait;

/// What became of a turn.
#[derive(Debug, Drop)]
pub enum Turn {
    /// An entry was recorded at its stamp.
    Recorded { stamp: u64, reply: Reply },
    /// The event isn't ready after all that the caller has seen.
    NotReady,
    /// The caller owes a duty.
    Owes,
    /// The caller has recorded as much as it may.
    Limit,
    Memory,
}

/// More than what any entry but a move owes.
const MOST_OWED: usize = 13;

impl<J: Naming + Placing> Locks<J, WorldActor<J>> {
    /// The first duty of a visitor is recorded.
    pub fn serve<R: Wait, G: Gate>(&self, rt: &R, gate: &G, visitor: &mut Visitor<J>) -> Turn
        requires complete { IsVisitor J.world J.run.roster visitor.old }
        requires some { (d : AnyDuty) × (slice_get visitor.old.duties.list 0 ≡ Some d) }
        ensures complete { IsVisitor J.world J.run.roster visitor.new }
        ensures same { IsSameBearer visitor.old.bearer visitor.new.bearer }
        ensures turn { (d : AnyDuty) → slice_get visitor.old.duties.list 0 ≡ Some d
            → Visited J.tasks J.world d.actor (work_of_duty d) (Some d.cites) visitor.old result visitor.new }
    {
        calendars_stay_known();
        no_duty_is_the_clocks();
        turns_are_these();
        let bearer = &visitor.bearer;
        if let Some(turn) = lacks_room(bearer, &mut visitor.duties, &mut visitor.touched) {
            return turn;
        }
        let Some(lock) = self.lock_of_first(&visitor.duties) else {
            return Turn::NotReady;
        };
        match self.attempt_first(rt, gate, lock, &mut visitor.bearer, &visitor.duties) {
            Answer::Done { stamp, outcome } => {
                let Duty {
                    actor,
                    work,
                    cites: _,
                } = visitor.duties.pop().unwrap();
                let (duties, touched) = (&mut visitor.duties, &mut visitor.touched);
                self.settle(duties, touched, actor, work, stamp, outcome)
            }
            Answer::NotReady { front: _ } => Turn::NotReady,
            Answer::Memory => Turn::Memory,
        }
    }

    /// What a visitor that owes nothing records next, at an actor.
    pub fn own<R: Wait, G: Gate>(
        &self,
        rt: &R,
        gate: &G,
        visitor: &mut Visitor<J>,
        actor: ActorName,
        event: Event,
    ) -> Turn
        requires complete { IsVisitor J.world J.run.roster visitor.old }
        requires free { visitor.old.duties.list ≡ [] }
        requires turn { IsGuestTurn J.world visitor.old.bearer.caller visitor.old.bearer.pass [] actor (bare event)
            None }
        requires other { same_actor actor Clock ≡ false }
        ensures complete { IsVisitor J.world J.run.roster visitor.new }
        ensures same { IsSameBearer visitor.old.bearer visitor.new.bearer }
        ensures turn { Visited J.tasks J.world actor (bare event) None visitor.old result visitor.new }
    {
        calendars_stay_known();
        let bearer = &visitor.bearer;
        if let Some(turn) = lacks_room(bearer, &mut visitor.duties, &mut visitor.touched) {
            return turn;
        }
        let Some(lock) = self.lock_of(actor) else {
            return Turn::NotReady;
        };
        let work = Work {
            event,
            with: With::Nothing,
        };
        match self.attempt(rt, gate, lock, &mut visitor.bearer, &work, None) {
            Answer::Done { stamp, outcome } => {
                let (duties, touched) = (&mut visitor.duties, &mut visitor.touched);
                self.settle(duties, touched, actor, work, stamp, outcome)
            }
            Answer::NotReady { front: _ } => Turn::NotReady,
            Answer::Memory => Turn::Memory,
        }
    }

    // The lock of the first duty's actor, where the world has it.
    fn lock_of_first(&self, duties: &Duties) -> Option<&Locked<J, WorldActor<J>>>
        requires some { (d : AnyDuty) × (slice_get duties.now.list 0 ≡ Some d) }
        ensures some { (d : AnyDuty) → slice_get duties.now.list 0 ≡ Some d
            → IfSome result (λ l. l.now.actor ≡ d.actor) }
        ensures none { (d : AnyDuty) → slice_get duties.now.list 0 ≡ Some d → IsNone result
            → has_actor J.world d.actor ≡ false }
    {
        let first = duties.first().unwrap();
        self.lock_of(first.actor)
    }

    // One try to record the first duty, at its actor's lock.
    #[inline(always)]
    fn attempt_first<R: Wait, G: Gate>(
        &self,
        rt: &R,
        gate: &G,
        lock: &Locked<J, WorldActor<J>>,
        bearer: &mut Bearer<J>,
        duties: &Duties,
    ) -> Answer
        requires guest { IsGuest J.world J.run.roster bearer.old.caller bearer.old.pass duties.now.list }
        requires some { (d : AnyDuty) × (slice_get duties.now.list 0 ≡ Some d) }
        requires room { HasRoom bearer.old.caller bearer.old.pass }
        requires here { bearer.old.now ≡ moment_noted bearer.old.pass.seen }
        requires early { bearer.old.now < 2 ^ 63 }
        requires lock { (d : AnyDuty) → slice_get duties.now.list 0 ≡ Some d → lock.now.actor ≡ d.actor }
        ensures same { IsSameBearer bearer.old bearer.new }
        ensures here { bearer.new.now ≡ moment_noted bearer.new.pass.seen }
        ensures attempted { (d : AnyDuty) → slice_get duties.now.list 0 ≡ Some d
            → Attempted J.tasks J.world J.run.roster d.actor (work_of_duty d) (Some d.cites) bearer.old result
            bearer.new }
    {
        no_duty_is_the_clocks();
        let first = duties.first().unwrap();
        self.attempt(rt, gate, lock, bearer, first.work(), Some(first.cites))
    }

    // One try to record a work at an actor's lock.
    #[inline(always)]
    fn attempt<R: Wait, G: Gate>(
        &self,
        rt: &R,
        gate: &G,
        lock: &Locked<J, WorldActor<J>>,
        bearer: &mut Bearer<J>,
        work: &Work,
        cites: Option<u64>,
    ) -> Answer
        requires guest { (ds : List AnyDuty) × IsGuest J.world J.run.roster bearer.old.caller bearer.old.pass ds }
        requires room { HasRoom bearer.old.caller bearer.old.pass }
        requires here { bearer.old.now ≡ moment_noted bearer.old.pass.seen }
        requires early { bearer.old.now < 2 ^ 63 }
        requires other { same_actor lock.now.actor Clock ≡ false }
        ensures same { IsSameBearer bearer.old bearer.new }
        ensures here { bearer.new.now ≡ moment_noted bearer.new.pass.seen }
        ensures attempted { Attempted J.tasks J.world J.run.roster lock.now.actor work.now cites bearer.old result
            bearer.new }
    {
        few_calls_wait();
        guests_look();
        guests_record();
        locks_keep_actors();
        moves_are_the_clocks();
        let asked = Asked {
            caller: bearer.caller,
            now: bearer.now,
            work,
            cites,
        };
        let answer = lock.act(rt, &self.journal, gate, &mut bearer.pass, asked);
        self.mark(lock.number(), work, &answer);
        answer
    }

    // Who waits for the actor of this number sees that it has had an entry more, where it has.
    fn mark(&self, number: u32, work: &Work, answer: &Answer) {
        if let Answer::Done { .. } = answer {
            self.marks.add(number as usize, may_give_text(work));
        }
    }

    // What an entry owes is owed after the others, and its actor is noted. The turn is that it was recorded.
    #[inline(always)]
    fn settle(
        &self,
        duties: &mut Duties,
        touched: &mut Touched,
        actor: ActorName,
        work: Work,
        stamp: u64,
        outcome: Outcome,
    ) -> Turn
        requires owing { most_owed outcome ≤ duties.old.room }
        requires noting { 0 < touched.old.room }
        ensures owes { Owes self.now.ways actor stamp work outcome duties.old duties.new }
        ensures covers { (own : List (ℕ × Noted)) (x : Noted) → Covers own touched.old → x.entry.actor ≡ actor
            → Covers (own ++ (stamp, x) ∷ []) touched.new }
        ensures turn { result ≡ turn.Recorded stamp outcome.reply }
    {
        let shown = self.ways.owe(actor, stamp, work, outcome, duties);
        touched.note(actor, stamp);
        Turn::Recorded {
            stamp,
            reply: shown.reply,
        }
    }
}

// Whether there may be more to read at an actor that has done this work: all does that but a message that only acknowledges.
fn may_give_text(work: &Work) -> bool {
    match &work.with {
        With::Packet(packet) => match &packet.body {
            Body::Il(message) => message.kind != IlKind::Ack,
            Body::Udp(_) => true,
        },
        _ => true,
    }
}

// Takes the room for an entry of the caller and for what it may owe. Where there is none, the turn is this one.
#[inline(always)]
fn lacks_room<J: Naming + Placing>(
    bearer: &Bearer<J>,
    duties: &mut Duties,
    touched: &mut Touched,
) -> Option<Turn>
    requires { IsGuest J.world J.run.roster bearer.now.caller bearer.now.pass duties.old.list }
    ensures list { duties.new.list ≡ duties.old.list }
    ensures covers { (own : List (ℕ × Noted)) → Covers own touched.old → Covers own touched.new }
    ensures none { IsNone result → HasRoom bearer.entry.now.caller bearer.entry.now.pass
        × (13 ≤ duties.new.room) × (0 < touched.new.room) }
    ensures some { IfSome result (λ t. (now : ℕ) (a : Name) (work : AnyWork) (cites : Option ℕ)
        → Turned J.tasks J.world (deed_at a bearer.entry.now.caller now work cites) bearer.entry.now.pass
        duties.old.list t bearer.entry.now.pass duties.new.list) }
{
    if bearer.pass.room(bearer.caller) == 0 {
        return Some(Turn::Limit);
    }
    if duties.reserve(MOST_OWED).is_err() {
        return Some(Turn::Memory);
    }
    if touched.reserve().is_err() {
        return Some(Turn::Memory);
    }
    None
}
