//! What an actor keeps, by its kind.
ghost use Rattle.std.specs.Prelude.{◌≡◌, ◌^◌, ◌<◌, IfOk, IsTrue, OnErr, true, is_some};
ghost use Rattle.std.specs.Arc.{arc_value};
ghost use Rattle.net_base.specs.declared.actor.ActorName.TheVariants as name;
ghost use Rattle.net_base.specs.Actors.{has_actor, opening_actor, opening_conv};
ghost use Rattle.net_base.specs.Desk.{clock_reply, opening_desk};
ghost use Rattle.net_base.specs.Duties as duties;
ghost use Rattle.net_base.specs.Medium.{quiet_medium};
ghost use Rattle.net_base.specs.World.{IsWorld};
ghost use Rattle.conversation.specs.Memory.{work_takes};
ghost use Rattle.conversation.specs.Stands.{IsShort, slot_of, step_at};
ghost use Rattle.medium.specs.OnMedium.{medium_laid as seen_medium};
ghost use Rattle.net_actors.specs.AtDesk.{IsDeskOf, desk_at};
ghost use Rattle.net_actors.specs.Kept.{IsMediumOf, KeepsKind, seen_kept};
ghost use Rattle.net_actors.specs.Small.{IsSmallActor};
ghost use Rattle.net_actors.specs.Stepping.{ConvSteps, KindSteps, ActorMayWant, kind_ready};

use crate::desk::Desk;
use crate::media;
use crate::outcome::answered;
use conversation::Conv;
use host_dir::Dir;
use medium::Medium;
use ndb_index::IndexedVersions;
use net_base::{ActorName, Event, Outcome, Proto, Reply, Timers, Work, World};
use std::alloc::{AllocError, Global};
use std::sync::Arc;

/// An actor without its name.
#[derive(Drop)]
pub enum Kind {
    Desk(Desk),
    Dir(Dir),
    Conv(Conv),
    Medium(Medium),
    Clock,
}

impl Kind {
    /// What the actor of this name keeps before anything happened.
    pub fn new(
        alloc: Global,
        world: &World,
        dbs: &Arc<IndexedVersions, Global>,
        name: ActorName,
    ) -> Result<Kind, AllocError>
        requires world { IsWorld world.now }
        requires has { has_actor world.now name ≡ true }
        requires dbs { arc_value dbs.now ≡ world.now.dbs }
        ensures keeps { IfOk result (KeepsKind world.now name) }
        ensures opening { IfOk result (λ k. seen_kept k ≡ opening_actor world.now.timers name) }
    {
        match name {
            ActorName::Desk(host) => Ok(Kind::Desk(desk_of(alloc, world, dbs, host)?)),
            ActorName::Dir(host, proto) => Ok(Kind::Dir(Dir::new(alloc, world, host, proto)?)),
            ActorName::Conv(host, proto, slot) => {
                Ok(Kind::Conv(fresh_conv(alloc, host, proto, slot, world.timers)?))
            }
            ActorName::Medium(medium) => Ok(Kind::Medium(medium_of(alloc, world, medium)?)),
            ActorName::Clock => Ok(Kind::Clock),
        }
    }

    /// Whether there is an answer to the work.
    pub fn ready(&self, now: u64, work: &Work) -> bool
        ensures { result ≡ kind_ready self.now now work.now }
    {
        match self {
            Kind::Desk(desk) => desk.ready(now, &work.event),
            Kind::Dir(dir) => dir.ready(work),
            Kind::Conv(conv) => is_answered(conv, now, work),
            Kind::Medium(medium) => media::is_ready(medium, work),
            Kind::Clock => is_move(&work.event),
        }
    }

    /// The answer to a work that has one.
    pub fn step(&mut self, now: u64, work: &Work) -> Result<Outcome, AllocError>
        requires now { now < 2 ^ 63 }
        requires small { IsSmallActor (seen_kept self.old) }
        requires ready { IsTrue (kind_ready self.old now work.now) }
        ensures ok { IfOk result (KindSteps self.old self.new now work.now) }
        ensures err { OnErr result (self.new ≡ self.old) }
        ensures memory { OnErr result (ActorMayWant self.old now work.now) }
    {
        match self {
            Kind::Desk(desk) => desk.answer(now, &work.event),
            Kind::Dir(dir) => dir.step(work),
            Kind::Conv(conv) => talk(conv, now, work),
            Kind::Medium(medium) => media::step(medium, work),
            Kind::Clock => Ok(answered(Reply::Ok, Reply::Ok)),
        }
    }

    /// The moment at which something is due.
    pub fn due(&self) -> Option<u64>
        ensures { result ≡ duties.due_of (seen_kept self.now) }
    {
        match self {
            Kind::Conv(conv) => due_of(conv),
            _ => None,
        }
    }

    /// The generation of a conversation, else 0.
    pub fn generation(&self) -> u64
        ensures { result ≡ duties.generation_of (seen_kept self.now) }
    {
        match self {
            Kind::Conv(conv) => generation_of(conv),
            _ => 0,
        }
    }
}

/// The desk of a host of the world.
#[tactic(auto, using(crate::proofs::Said::host_nets, crate::proofs::Said::some_versions, crate::proofs::Said::desk_is, crate::proofs::Said::desk_opens))]
fn desk_of(
    alloc: Global,
    world: &World,
    dbs: &Arc<IndexedVersions, Global>,
    host: u32,
) -> Result<Desk, AllocError>
    requires world { IsWorld world.now }
    requires has { has_actor world.now (name.Desk host) ≡ true }
    requires dbs { arc_value dbs.now ≡ world.now.dbs }
    ensures of { IfOk result (IsDeskOf world.now host) }
    ensures opening { IfOk result (λ d. desk_at d ≡ opening_desk) }
{
    Desk::new(alloc, dbs, &world.hosts.as_slice()[host as usize])
}

/// The conversation of a slot.
#[tactic(auto, using(crate::proofs::ByKind::kept_is))]
fn fresh_conv(
    alloc: Global,
    host: u32,
    proto: Proto,
    slot: u32,
    timers: Timers,
) -> Result<Conv, AllocError>
    ensures slot { IfOk result (λ c. slot_of c ≡ slot) }
    ensures opening { IfOk result (λ c. c.conv ≡ opening_conv timers proto) }
{
    Conv::new(alloc, host, proto, slot, timers)
}

/// A medium of the world.
#[tactic(auto, using(crate::proofs::Said::medium_spec, crate::proofs::Said::medium_at))]
fn medium_of(alloc: Global, world: &World, number: u32) -> Result<Medium, AllocError>
    requires world { IsWorld world.now }
    requires has { has_actor world.now (name.Medium number) ≡ true }
    ensures of { IfOk result (IsMediumOf world.now number) }
    ensures opening { IfOk result (λ m. seen_medium m ≡ quiet_medium) }
{
    Medium::new(alloc, &world.media.as_slice()[number as usize], world.seed)
}

fn is_move(event: &Event) -> bool
    ensures { result ≡ is_some (clock_reply event.now) }
{
    matches!(event, Event::Move { .. })
}

/// Whether the conversation has an answer.
fn is_answered(conv: &Conv, now: u64, work: &Work) -> bool
    ensures { result ≡ is_some (step_at conv.now now work.now conv.now.conv) }
{
    conv.ready(work)
}

/// The answer of a conversation.
#[tactic(auto, using(crate::proofs::ByKind::is_short, crate::proofs::ByKind::talk_ready, crate::proofs::ByKind::talk_wants))]
fn talk(conv: &mut Conv, now: u64, work: &Work) -> Result<Outcome, AllocError>
    requires now { now < 2 ^ 63 }
    requires short { IsShort conv.old.conv }
    requires ready { IsTrue (is_some (step_at conv.old now work.now conv.old.conv)) }
    ensures ok { IfOk result (ConvSteps conv.old conv.new now work.now) }
    ensures err { OnErr result (conv.new ≡ conv.old) }
    ensures memory { OnErr result (work_takes now work.now conv.old.conv ≡ true) }
{
    conv.step(now, work)
}

/// When the conversation is due.
fn due_of(conv: &Conv) -> Option<u64>
    ensures { result ≡ duties.due_of_core conv.now.conv.core }
{
    conv.due()
}

/// Its generation.
#[tactic(auto, using(crate::proofs::ByKind::told_generation))]
fn generation_of(conv: &Conv) -> u64
    ensures { result ≡ conv.now.conv.generation }
{
    conv.generation()
}
