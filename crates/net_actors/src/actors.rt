//! All actors of a world.
ghost use Rattle.std.specs.Prelude.{◌≡◌, ◌^◌, ◌<◌, ◌++◌, length, IfOk, OnErr, OnOk, true, is_some, slice_get, Some};
ghost use Rattle.net_base.specs.declared.actor.ActorName.{ActorName as Name};
ghost use Rattle.net_base.specs.declared.world.World.{World as AnyWorld};
ghost use Rattle.net_base.specs.Actors.{Actor as State, actor_step, opening_actor};
ghost use Rattle.net_base.specs.Duties.{due_of, generation_of};
ghost use Rattle.net_base.specs.World.{IsWorld};
ghost use Rattle.std.specs.Arc.{arc_value};
ghost use Rattle.duties.specs.Ticking.{dues_of};
ghost use Rattle.net_actors.specs.Numbers as spec;
ghost use Rattle.net_actors.specs.Numbers.{count_in};
ghost use Rattle.net_actors.specs.Together.{AreActors, AreFirst, CanStep, MayWantAt, StepsTogether, due_in_slot, dues_at, has_name};

use crate::actor::Actor;
use crate::number::{actor_at, actor_count, is_among, number_of};
use duties::Due;
use ndb_index::IndexedVersions;
use net_base::{ActorName, Outcome, Proto, Work, World};
use std::alloc::{AllocError, Global};
use std::marker::Model;
use std::sync::Arc;

/// All actors of a world, found by their numbers. Moments are in ms.
///
/// Clauses see how many hosts and media there are, and the actors in the order of their numbers; `AreActors` says of
/// which worlds they are the actors, and in which states.
#[derive(Drop)]
pub struct Actors {
    hosts: u32,
    media: u32,
    actors: Vec<Actor>,
}

impl Model for Actors {
    ghost use Rattle.std.specs.Prelude.{◌≡◌, length};
    ghost use Rattle.net_actors.specs.Numbers.{actor_count};
    ghost use Rattle.net_actors.specs.Together.{Numbered};

    ghost Value = { Numbered };

    ghost view = { λ a. record { hosts = a.hosts; media = a.media; actors = a.actors.items } };

    ghost invariant = { λ a. length a.actors.items ≡ actor_count a.hosts a.media };
}

impl Actors {
    /// The actors of a world, to which nothing has happened, with its versions of the database for all desks.
    pub fn new(
        alloc: Global,
        world: &World,
        dbs: &Arc<IndexedVersions, Global>,
    ) -> Result<Actors, AllocError>
        requires is { IsWorld world.now }
        requires dbs { arc_value dbs.now ≡ world.now.dbs }
        ensures { IfOk result (λ actors. AreActors world.now actors (opening_actor world.now.timers)) }
    {
        let hosts = world.hosts.len() as u32;
        let media = world.media.len() as u32;
        let actors = all_actors(alloc, world, dbs, hosts, media)?;
        Ok(Actors {
            hosts,
            media,
            actors,
        })
    }

    /// The actor of this name.
    #[tactic(auto, using(crate::proofs::Numbering::below))]
    fn at(&self, name: ActorName) -> &Actor
        requires { has_name self.now name ≡ true }
        ensures { slice_get self.now.actors (spec.number_of self.now.hosts self.now.media name) ≡ Some result.now }
    {
        &self.actors[number_of(self.hosts, self.media, name)]
    }

    /// Whether the table of the actor answers the work now, with whatever is given. One that isn't there answers nothing.
    #[tactic(auto, using(crate::proofs::Placed::told_at, crate::proofs::Placed::absent_at))]
    pub fn ready(&self, name: ActorName, now: u64, work: &Work) -> bool
        ensures { (w : AnyWorld) (states : Name → State) → AreActors w self.now states
            → result ≡ is_some (actor_step w name (states name) now work.now) }
    {
        if !is_among(self.hosts, self.media, name) {
            return false;
        }
        self.at(name).ready(now, work)
    }

    /// Answers a work that is ready. Where memory ran out nothing has changed.
    pub fn step(&mut self, name: ActorName, now: u64, work: &Work) -> Result<Outcome, AllocError>
        requires now { now < 2 ^ 63 }
        requires ready { CanStep self.old name now work.now }
        ensures ok { IfOk result (StepsTogether self.old self.new name now work.now) }
        ensures copy { IfOk result (λ o. o.copy ≡ Some o.reply) }
        ensures err { OnErr result (self.new ≡ self.old) }
        ensures memory { OnErr result (MayWantAt self.old name now work.now) }
    {
        let number = number_of(self.hosts, self.media, name);
        self.actors[number].step(now, work)
    }

    /// The moment at which the actor is due.
    #[tactic(auto, using(crate::proofs::Placed::state_at))]
    pub fn due(&self, name: ActorName) -> Option<u64>
        requires { has_name self.now name ≡ true }
        ensures { (w : AnyWorld) (states : Name → State) → AreActors w self.now states
            → result ≡ due_of (states name) }
    {
        self.at(name).due()
    }

    /// The generation of a conversation, else 0.
    #[tactic(auto, using(crate::proofs::Placed::state_at))]
    pub fn generation(&self, name: ActorName) -> u64
        requires { has_name self.now name ≡ true }
        ensures { (w : AnyWorld) (states : Name → State) → AreActors w self.now states
            → result ≡ generation_of (states name) }
    {
        self.at(name).generation()
    }

    /// The due moments of all conversations, in the order of host, protocol and slot.
    pub fn dues(&self, alloc: Global) -> Result<Vec<Due>, AllocError>
        ensures { IfOk result (λ dues. (w : AnyWorld) (states : Name → State) → AreActors w self.now states
            → dues.items ≡ dues_of w states) }
    {
        let mut dues = Vec::new(alloc);
        for host in 0..self.hosts {
            self.add_dues(host, Proto::Il, &mut dues)?;
            self.add_dues(host, Proto::Udp, &mut dues)?;
        }
        Ok(dues)
    }

    /// Adds the due moments of the conversations of a host and protocol.
    #[tactic(auto, using(crate::proofs::DuesOf::no_slot))]
    fn add_dues(&self, host: u32, proto: Proto, dues: &mut Vec<Due>) -> Result<(), AllocError>
        requires { host < self.now.hosts }
        ensures { OnOk result (dues.new.items ≡ dues.old.items ++ dues_at self.now host proto) }
    {
        for slot in 0..32_u32 {
            self.add_due(host, proto, slot, dues)?;
        }
        Ok(())
    }

    /// Adds the due moment of a conversation, if it has one.
    #[tactic(auto, using(crate::proofs::DuesOf::due_none, crate::proofs::DuesOf::due_some))]
    fn add_due(
        &self,
        host: u32,
        proto: Proto,
        slot: u32,
        dues: &mut Vec<Due>,
    ) -> Result<(), AllocError>
        requires host { host < self.now.hosts }
        requires slot { slot < 32 }
        ensures { OnOk result (dues.new.items ≡ dues.old.items ++ due_in_slot self.now host proto slot) }
    {
        let actor = self.at(ActorName::Conv(host, proto, slot));
        let Some(due) = actor.due() else {
            return Ok(());
        };
        dues.push(Due {
            host,
            proto,
            slot,
            generation: actor.generation(),
            due,
        })?;
        Ok(())
    }
}

/// All actors of a world in the order of their numbers.
fn all_actors(
    alloc: Global,
    world: &World,
    dbs: &Arc<IndexedVersions, Global>,
    hosts: u32,
    media: u32,
) -> Result<Vec<Actor>, AllocError>
    requires world { IsWorld world.now }
    requires dbs { arc_value dbs.now ≡ world.now.dbs }
    requires hosts { hosts ≡ length world.now.hosts }
    requires media { media ≡ length world.now.media }
    ensures { IfOk result (λ actors. AreFirst world.now (count_in world.now) actors.items) }
{
    let mut actors = Vec::new(alloc);
    for number in 0..actor_count(hosts, media) {
        let actor = Actor::new(alloc, world, dbs, actor_at(hosts, media, number))?;
        actors.push(actor)?;
    }
    Ok(actors)
}
