//! When conversations are due, as the clock knows it from one move to the next.
ghost use Rattle.std.specs.Prelude.{◌≡◌, ◌+◌, ◌≤◌, ◌++◌, ◌∷◌, [], List, length, true, IfSome};
ghost use Rattle.std.specs.Option.{option_map};
ghost use Rattle.net_base.specs.declared.actor.ActorName.{ActorName as Name};
ghost use Rattle.net_base.specs.declared.noted.Noted.{Noted};
ghost use Rattle.net_base.specs.declared.world.World.{World as AnyWorld};
ghost use Rattle.net_base.specs.Actors.{Actor};
ghost use Rattle.journal.specs.Tokens.{HoldsAll};
ghost use Rattle.duties.specs.Ticking.{dues_of};
ghost use Rattle.net_locks.specs.Works.{noted_net};
ghost use Rattle.net_locks.specs.Standings.{AllStand};
ghost use Rattle.net_locks.specs.Knowing.{AreMixed, IsKnown, all_touched, due_from, have_told, touched_count};

use crate::clock::Standing;
use crate::locks::Locks;
use crate::machine::WorldActor;
use crate::placing::Placing;
use crate::{locks_keep_actors, nets_of_works_grow};
use duties::{Due, DueMoments, puts_keep_the_dues};
use history_laws::{conversations_are_these, same_actors_are_equal};
use journal::{Naming, Pass};
use locked::View;
use net_base::{ActorName, Proto};
use std::alloc::Global;
use std::sync::Wait;

/// When conversations were due, after all entries before a stamp. What is known of it stays known after more entries.
#[derive(Debug, Drop)]
pub struct Calendar {
    pub dues: DueMoments,
    /// The stamp.
    pub at: u64,
}

impl Calendar {
    /// Before the first entry nothing is due.
    pub fn new(alloc: Global) -> Calendar
        ensures { (w : AnyWorld) (log : List Noted) → IsKnown w log result }
    {
        Calendar {
            dues: DueMoments::new(alloc),
            at: 0,
        }
    }
}

impl<J: Naming + Placing> Locks<J, WorldActor<J>> {
    /// When conversations are due after all that the pass has seen, which holds the numbers of all callers. Only those are
    /// viewed at which something was recorded since this was last known. Without memory it's known as it was.
    pub(crate) fn catch_up<R: Wait>(
        &self,
        rt: &R,
        standings: &[Standing],
        pass: &mut Pass<J>,
        calendar: &mut Calendar,
        now: u64,
    ) -> bool
        requires all { AllStand J.tasks J.world J.run.roster pass.old standings.now }
        requires known { IsKnown J.world pass.old.seen calendar.old }
        ensures same { pass.new ≡ pass.old }
        ensures known { IsKnown J.world pass.old.seen calendar.new }
        ensures dues { result ≡ true
            → calendar.new.dues.list ≡ dues_of J.world (noted_net J.world pass.old.seen).actors }
    {
        nets_of_works_grow();
        same_actors_are_equal();
        conversations_are_these();
        let front = self.journal.look(pass);
        // It's always told, since a list is forgotten only up to what was known then.
        if !is_told(standings, calendar.at) {
            return false;
        }
        let Some(count) = touched_count(standings) else {
            return false;
        };
        if calendar.dues.reserve(count).is_err() {
            return false;
        }
        self.view_all(rt, standings, pass, &mut calendar.dues, now);
        calendar.at = front;
        true
    }

    // The conversations are viewed that any caller touched.
    fn view_all<R: Wait>(
        &self,
        rt: &R,
        standings: &[Standing],
        pass: &mut Pass<J>,
        dues: &mut DueMoments,
        now: u64,
    )
        requires numbers { HoldsAll J.run.roster pass.old }
        requires room { touched_count standings.now ≤ dues.old.room }
        ensures same { pass.new ≡ pass.old }
        ensures dues { (old : Name → Actor)
            → AreMixed J.world (noted_net J.world pass.old.seen).actors old [] dues.old.list
            → AreMixed J.world (noted_net J.world pass.old.seen).actors old (all_touched standings.now) dues.new.list }
    {
        for standing in standings {
            self.view_each(rt, standing.touched.actors(), pass, dues, now);
        }
    }

    // These are viewed.
    fn view_each<R: Wait>(
        &self,
        rt: &R,
        actors: &[ActorName],
        pass: &mut Pass<J>,
        dues: &mut DueMoments,
        now: u64,
    )
        requires numbers { HoldsAll J.run.roster pass.old }
        requires room { length actors.now ≤ dues.old.room }
        ensures same { pass.new ≡ pass.old }
        ensures room { dues.old.room ≤ dues.new.room + length actors.now }
        ensures dues { (old : Name → Actor) (as' : List Name)
            → AreMixed J.world (noted_net J.world pass.old.seen).actors old as' dues.old.list
            → AreMixed J.world (noted_net J.world pass.old.seen).actors old (as' ++ actors.now) dues.new.list }
    {
        for actor in actors {
            self.view_one(rt, *actor, pass, dues, now);
        }
    }

    // One is viewed.
    fn view_one<R: Wait>(
        &self,
        rt: &R,
        actor: ActorName,
        pass: &mut Pass<J>,
        dues: &mut DueMoments,
        now: u64,
    )
        requires numbers { HoldsAll J.run.roster pass.old }
        requires room { 1 ≤ dues.old.room }
        ensures same { pass.new ≡ pass.old }
        ensures room { dues.old.room ≤ dues.new.room + 1 }
        ensures dues { (old : Name → Actor) (as' : List Name)
            → AreMixed J.world (noted_net J.world pass.old.seen).actors old as' dues.old.list
            → AreMixed J.world (noted_net J.world pass.old.seen).actors old (as' ++ actor ∷ []) dues.new.list }
    {
        conversations_are_these();
        locks_keep_actors();
        puts_keep_the_dues();
        same_actors_are_equal();
        let ActorName::Conv(host, proto, slot) = actor else {
            return;
        };
        let Some(lock) = self.lock_of(actor) else {
            return;
        };
        let view = lock.view(rt, &self.journal, pass, now, None);
        dues.put(host, proto, slot, due_from(host, proto, slot, &view));
    }
}

// When a conversation is due, by a view of it.
fn due_from(host: u32, proto: Proto, slot: u32, view: &View) -> Option<Due>
    ensures { result ≡ option_map (due_from host proto slot view.now.generation) view.now.due }
{
    let Some(due) = view.due else {
        return None;
    };
    Some(Due {
        host,
        proto,
        slot,
        generation: view.generation,
        due,
    })
}

// Whether each caller has told at which conversations it recorded something from this stamp on.
fn is_told(standings: &[Standing], at: u64) -> bool
    ensures { result ≡ have_told at standings.now }
{
    standings
        .iter()
        .all(|standing| standing.touched.since() <= at)
}

// How many conversations all callers touched, each counted for itself.
fn touched_count(standings: &[Standing]) -> Option<usize>
    ensures { IfSome result (λ n. n ≡ touched_count standings.now) }
{
    let mut count: usize = 0;
    for standing in standings {
        count = count.checked_add(standing.touched.actors().len())?;
    }
    Some(count)
}
