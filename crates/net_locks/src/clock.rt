//! The calm clock: whether it may move, and where to.
ghost use Rattle.std.specs.Prelude.{◌≡◌, ◌==◌, ◌<◌, ◌≤◌, ◌^◌, ◌++◌, ◌∷◌, ℕ, Bool, true, false, not, [], List, length, min, option_to_list, unwrap_or, None, is_some};
ghost use Rattle.std.specs.List.{list_any};
ghost use Rattle.std.specs.Option.{option_map_or};
ghost use Rattle.net_base.specs.declared.event.Event.TheVariants as event;
ghost use Rattle.net_base.specs.Actors.{actor_step};
ghost use Rattle.net_base.specs.Callers.{IsClock, caller_of};
ghost use Rattle.net_base.specs.Calm as calm;
ghost use Rattle.net_base.specs.Legal.{IsInTimeBy};
ghost use Rattle.net_base.specs.Stamped.{moment_noted as moment_of};
ghost use Rattle.history_laws.specs.Could.{could, is_full};
ghost use Rattle.journal.specs.Rule.{Lawful};
ghost use Rattle.journal.specs.Tokens.{HoldsAll};
ghost use Rattle.duties.specs.Ticking.{dues_of};
ghost use Rattle.net_locks.specs.Guests.{IsGuest, IsOfGuests};
ghost use Rattle.net_locks.specs.Works.{noted_net};
ghost use Rattle.net_locks.specs.Standings.{AllStand, FindsBusy, StandsAt, standing_moments, awaited_of, standing_callers, moments_of_dues, has_left};
ghost use Rattle.net_locks.specs.Moving.{Halts, MayGo, MayLeave, MayMove};
ghost use Rattle.net_locks.specs.Knowing.{IsKnown};
ghost use Rattle.net_locks.specs.Turns.{HasRoom};
ghost use Rattle.net_locks.specs.Visitors.{IsSameBearer, IsVisitor};
ghost use Rattle.net_base.specs.World.{IsWorld};

use crate::calendar::Calendar;
use crate::locks::Locks;
use crate::machine::WorldActor;
use crate::placing::Placing;
use crate::visitor::{Bearer, Visitor};
use crate::{
    guests_record, guests_stay_by_others, locks_keep_actors, nets_of_works_grow, turns_are_these,
};
use duties::{Due, Duties, Touched, a_move_owes_its_ticks};
use history_laws::{
    calm_is_that_nobody_could, conversations_are_these, nobody_is_limited, somebody_is_limited,
    targets_are_least,
};
use journal::{Naming, Pass};
use locked::{Answer, Asked};
use net_base::{ActorName, Event, With, Work, World};
use outside::Gate;
use std::sync::Wait;

/// What became of the clock.
#[derive(Clone, Copy, Debug, PartialEq, Eq)]
pub enum Advance {
    /// It moved to this moment, in ms.
    Moved(u64),
    /// Every step of every script is answered.
    Done,
    /// The end moment came, and some script isn't through.
    Stopped,
    /// This caller, the least such, owes a duty, or its next event is ready.
    NotCalm(u32),
    /// A caller that could record has recorded as much as it may; so has the clock, where it might move.
    Limit,
    Memory,
}

/// How a caller stands before the clock may move.
#[derive(Drop)]
pub struct Standing {
    /// Its number.
    pub caller: u32,
    /// Whether it owes a duty.
    pub owes: bool,
    /// Whether it has recorded as much as it may.
    pub full: bool,
    /// What it records next where it owes nothing. A script has this until it is through, a courier always, the clock never.
    pub next: Option<(ActorName, Work)>,
    /// The conversations at which it recorded something since the clock last moved.
    pub touched: Touched,
}

/// Who could record.
#[derive(Clone, Copy, Debug)]
struct Busy {
    /// The least caller.
    least: Option<u32>,
    /// Whether one that could has recorded as much as it may.
    full: bool,
}

impl<J: Naming + Placing> Locks<J, WorldActor<J>> {
    /// What keeps the clock, whose pass this is, from moving: a caller that is full, one that can go on, or the clock's own
    /// limit; or how the run ended. None where it is to move. All callers have to stand so, and the pass then has seen all
    /// that there is. It records nothing.
    pub fn halt<R: Wait>(
        &self,
        rt: &R,
        world: &World,
        standings: &[Standing],
        bearer: &mut Bearer<J>,
    ) -> Option<Advance>
        requires world { J.world ≡ world.now }
        requires clock { caller_of J.world bearer.old.caller ≡ IsClock }
        requires moment { bearer.old.now ≡ moment_of bearer.old.pass.seen }
        requires all { AllStand J.tasks J.world J.run.roster bearer.old.pass standings.now }
        ensures same { bearer.new ≡ bearer.old }
        ensures guests { IsOfGuests J.world J.run.roster bearer.old.pass.seen }
        ensures halts { Halts J.tasks J.world bearer.old.caller bearer.old.pass result }
    {
        self.journal.look(&mut bearer.pass);
        let (caller, now) = (bearer.caller, bearer.now);
        self.judge(rt, world, standings, &mut bearer.pass, caller, now)
    }

    // Judges how all callers stand, after a look.
    fn judge<R: Wait>(
        &self,
        rt: &R,
        world: &World,
        standings: &[Standing],
        pass: &mut Pass<J>,
        caller: u32,
        now: u64,
    ) -> Option<Advance>
        requires world { J.world ≡ world.now }
        requires clock { caller_of J.world caller ≡ IsClock }
        requires moment { now ≡ moment_of pass.old.seen }
        requires all { AllStand J.tasks J.world J.run.roster pass.old standings.now }
        requires lawful { Lawful J.run.roster pass.old.seen }
        ensures same { pass.new ≡ pass.old }
        ensures halts { Halts J.tasks J.world caller pass.old result }
    {
        calm_is_that_nobody_could();
        nets_of_works_grow();
        nobody_is_limited();
        somebody_is_limited();
        let busy = self.busy(rt, standings, pass, now);
        if busy.full {
            return Some(Advance::Limit);
        }
        if let Some(caller) = busy.least {
            return Some(Advance::NotCalm(caller));
        }
        if is_through(world.scripts.len(), standings) {
            return Some(Advance::Done);
        }
        if now == world.end {
            return Some(Advance::Stopped);
        }
        if pass.room(caller) == 0 {
            return Some(Advance::Limit);
        }
        None
    }

    // The least caller that could record, and whether a full one could.
    fn busy<R: Wait>(&self, rt: &R, standings: &[Standing], pass: &mut Pass<J>, now: u64) -> Busy
        requires numbers { HoldsAll J.run.roster pass.old }
        requires moment { now ≡ moment_of pass.old.seen }
        requires all { AllStand J.tasks J.world J.run.roster pass.old standings.now }
        ensures same { pass.new ≡ pass.old }
        ensures finds { FindsBusy (could J.tasks J.world (noted_net J.world pass.old.seen))
            (is_full (noted_net J.world pass.old.seen))
            (standing_callers standings.now) result }
    {
        nets_of_works_grow();
        let mut busy = Busy {
            least: None,
            full: false,
        };
        for standing in standings {
            if !self.could(rt, standing, pass, now) {
                continue;
            }
            busy = busy.with(standing.caller, standing.full);
        }
        busy
    }

    // Whether a caller owes a duty, or its next event is ready.
    fn could<R: Wait>(&self, rt: &R, standing: &Standing, pass: &mut Pass<J>, now: u64) -> bool
        requires numbers { HoldsAll J.run.roster pass.old }
        requires moment { now ≡ moment_of pass.old.seen }
        requires stands { StandsAt J.tasks J.world J.run.roster pass.old standing.now }
        ensures same { pass.new ≡ pass.old }
        ensures could { result ≡ could J.tasks J.world (noted_net J.world pass.old.seen) standing.now.caller }
    {
        nets_of_works_grow();
        if standing.owes {
            return true;
        }
        match &standing.next {
            Some((actor, work)) => self.is_ready(rt, *actor, work, pass, now),
            None => false,
        }
    }

    // Whether a work is ready at an actor.
    fn is_ready<R: Wait>(
        &self,
        rt: &R,
        actor: ActorName,
        work: &Work,
        pass: &mut Pass<J>,
        now: u64,
    ) -> bool
        requires { HoldsAll J.run.roster pass.old }
        ensures same { pass.new ≡ pass.old }
        ensures ready { result
            ≡ is_some (actor_step J.world actor ((noted_net J.world pass.old.seen).actors actor) now work.now) }
    {
        locks_keep_actors();
        let Some(lock) = self.lock_of(actor) else {
            return false;
        };
        let view = lock.view(rt, &self.journal, pass, now, Some(work));
        view.ready
    }

    /// The clock moves to the target, where it may move and has room, and owes its ticks. The answer is the moment, in ms, or
    /// None where memory ran out: then nothing is recorded. What was known of due moments is brought up to date either way.
    pub fn try_move<R: Wait, G: Gate>(
        &self,
        rt: &R,
        gate: &G,
        world: &World,
        standings: &[Standing],
        visitor: &mut Visitor<J>,
    ) -> Option<u64>
        requires world { J.world ≡ world.now }
        requires is { IsWorld world.now }
        requires clock { caller_of J.world visitor.old.bearer.caller ≡ IsClock }
        requires complete { IsVisitor J.world J.run.roster visitor.old }
        requires all { AllStand J.tasks J.world J.run.roster visitor.old.bearer.pass standings.now }
        requires may { MayMove J.tasks J.world visitor.old.bearer.caller visitor.old.bearer.pass }
        ensures complete { IsVisitor J.world J.run.roster visitor.new }
        ensures caller { visitor.new.bearer.caller ≡ visitor.old.bearer.caller }
        ensures now { visitor.new.bearer.now ≡ unwrap_or result visitor.old.bearer.now }
        ensures go { MayGo J.tasks J.world J.run.roster visitor.old.bearer visitor.old.duties.list result
            visitor.new.bearer visitor.new.duties.list }
    {
        let Some(moment) = self.reach(rt, gate, world, standings, visitor) else {
            return None;
        };
        visitor.bearer.now = moment;
        visitor.touched.forget(visitor.calendar.at);
        Some(moment)
    }

    // Moves the clock on; the visitor is still at the moment at which it was, and has forgotten nothing.
    fn reach<R: Wait, G: Gate>(
        &self,
        rt: &R,
        gate: &G,
        world: &World,
        standings: &[Standing],
        visitor: &mut Visitor<J>,
    ) -> Option<u64>
        requires world { J.world ≡ world.now }
        requires clock { caller_of J.world visitor.old.bearer.caller ≡ IsClock }
        requires complete { IsVisitor J.world J.run.roster visitor.old }
        requires all { AllStand J.tasks J.world J.run.roster visitor.old.bearer.pass standings.now }
        requires may { MayMove J.tasks J.world visitor.old.bearer.caller visitor.old.bearer.pass }
        ensures same { IsSameBearer visitor.old.bearer visitor.new.bearer }
        ensures touched { visitor.new.touched ≡ visitor.old.touched }
        ensures known { IsKnown J.world visitor.new.bearer.pass.seen visitor.new.calendar }
        ensures go { MayGo J.tasks J.world J.run.roster visitor.old.bearer visitor.old.duties.list result
            visitor.new.bearer visitor.new.duties.list }
    {
        conversations_are_these();
        nets_of_works_grow();
        targets_are_least();
        let now = visitor.bearer.now;
        let pass = &mut visitor.bearer.pass;
        if !self.catch_up(rt, standings, pass, &mut visitor.calendar, now) {
            return None;
        }
        let dues = visitor.calendar.dues.as_slice();
        if visitor.duties.reserve(dues.len()).is_err() {
            return None;
        }
        let awaited = least_awaited(standings, world.end);
        let moment = least_due(dues, awaited);
        let bearer = &mut visitor.bearer;
        if !self.record_move(rt, gate, dues, moment, bearer, &mut visitor.duties) {
            return None;
        }
        Some(moment)
    }

    // The clock's entry, and the ticks that it owes. Whether it was recorded.
    fn record_move<R: Wait, G: Gate>(
        &self,
        rt: &R,
        gate: &G,
        dues: &[Due],
        moment: u64,
        bearer: &mut Bearer<J>,
        duties: &mut Duties,
    ) -> bool
        requires guest { IsGuest J.world J.run.roster bearer.old.caller bearer.old.pass duties.old.list }
        requires free { duties.old.list ≡ [] }
        requires clock { caller_of J.world bearer.old.caller ≡ IsClock }
        requires moment { bearer.old.now ≡ moment_of bearer.old.pass.seen }
        requires early { bearer.old.now < 2 ^ 63 }
        requires numbers { HoldsAll J.run.roster bearer.old.pass }
        requires room { HasRoom bearer.old.caller bearer.old.pass }
        requires dues { dues.now ≡ dues_of J.world (noted_net J.world bearer.old.pass.seen).actors }
        requires reserved { length dues.now ≤ duties.old.room }
        requires in_time { IsInTimeBy J.tasks (noted_net J.world bearer.old.pass.seen) J.world (event.Move moment) }
        ensures same { IsSameBearer bearer.old bearer.new }
        ensures leaves { MayLeave J.tasks J.world J.run.roster moment bearer.old duties.old.list result bearer.new
            duties.new.list }
    {
        a_move_owes_its_ticks();
        guests_record();
        guests_stay_by_others();
        nets_of_works_grow();
        turns_are_these();
        let Some(lock) = self.lock_of(ActorName::Clock) else {
            return false;
        };
        let work = Work {
            event: Event::Move { moment },
            with: With::Nothing,
        };
        let asked = Asked {
            caller: bearer.caller,
            now: bearer.now,
            work: &work,
            cites: None,
        };
        match lock.act(rt, &self.journal, gate, &mut bearer.pass, asked) {
            Answer::Done { stamp, outcome: _ } => {
                duties.owe_ticks(stamp, moment, dues);
                true
            }
            Answer::NotReady { front: _ } => false,
            Answer::Memory => false,
        }
    }
}

impl Busy {
    // With a caller more that could record.
    fn with(self, caller: u32, full: bool) -> Busy
        ensures { (goes full_of : ℕ → Bool) (cs : List ℕ) → FindsBusy goes full_of cs self → goes caller ≡ true
            → full ≡ full_of caller → FindsBusy goes full_of (cs ++ caller ∷ []) result }
    {
        Busy {
            least: Some(lesser(self.least, caller)),
            full: self.full || full,
        }
    }
}

// The lesser of two callers, where there are two.
fn lesser(least: Option<u32>, caller: u32) -> u32
    ensures { result ≡ option_map_or (λ c. min c caller) least caller }
{
    match least {
        Some(least) => least.min(caller),
        None => caller,
    }
}

// Whether none of the first so many callers, which are the scripts, has an event left to record.
fn is_through(scripts: usize, standings: &[Standing]) -> bool
    ensures { result ≡ not (list_any (has_left scripts) standings.now) }
{
    for standing in standings {
        if has_left(scripts, standing) {
            return false;
        }
    }
    true
}

// Whether a caller is one of the first so many, and has an event left to record.
fn has_left(scripts: usize, standing: &Standing) -> bool
    ensures { result ≡ has_left scripts standing.now }
{
    (standing.caller as usize) < scripts && standing.next.is_some()
}

// The least of a moment and those for which callers wait.
fn least_awaited(standings: &[Standing], last: u64) -> u64
    ensures { result ≡ calm.least last (standing_moments standings.now) }
{
    let mut least = last;
    for standing in standings {
        least = earlier(least, standing);
    }
    least
}

// The earlier of a moment and that for which a caller waits, if it does.
fn earlier(least: u64, standing: &Standing) -> u64
    ensures { result ≡ calm.least least (option_to_list (awaited_of standing.now)) }
{
    let Some((_, work)) = &standing.next else {
        return least;
    };
    match work.event {
        Event::Until { moment } => least.min(moment),
        _ => least,
    }
}

// The least of a moment and due ones.
fn least_due(dues: &[Due], last: u64) -> u64
    ensures { result ≡ calm.least last (moments_of_dues dues.now) }
{
    let mut least = last;
    for due in dues {
        least = least.min(due.due);
    }
    least
}
