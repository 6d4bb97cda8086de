//! The actors of a small world, and what they answer.
ghost use Rattle.std.specs.Prelude.{◌≡◌, ◌∷◌, ◌^◌, ◌<◌, [], IfOk, codes, true};
ghost use Rattle.net_actors.specs.Numbers.{is_actor_among};
ghost use Rattle.host_tests.specs.Tried.{tried_host, tried_medium, tried_world};

use ndb_index::IndexedVersions;
use net_actors::{Actors, Due};
use net_base::{
    ActorName, Db, Fates, HostSpec, Hosts, Iface, Ifaces, Media, MediumSpec, Nets, Octets, Proto,
    Reply, RouteLines, Scripts, Starts, Timers, Version, Versions, Work, World,
};
use std::alloc::{AllocError, Global};
use std::marker::Model;
use std::sync::Arc;

pub const ANNA: u32 = 0x8768_0906;

pub const HELIX: u32 = 0x8768_091f;

/// What is read of a reply.
#[derive(Clone, Copy)]
pub enum Told {
    NotReady,
    Ok,
    NoFile,
    BadMode,
    BadFid,
    Version(u64),
    Lines(usize),
    CsRefused(u32),
    Names(usize),
    Slot(u32, u64),
    Granted(u32),
    Call(u32, u64),
    Calls(usize),
    To(u32, u64),
    Born(u32, u64),
    Opened(u64),
    Bytes(usize),
    Count(u32),
    Took,
    NotDue,
    Stale,
    Laid(u64),
    Copy(u64),
    Other,
}

fn read_reply(reply: &Reply) -> Told {
    match reply {
        Reply::Ok => Told::Ok,
        Reply::NoFile => Told::NoFile,
        Reply::BadMode => Told::BadMode,
        Reply::BadFid => Told::BadFid,
        Reply::Version { version } => Told::Version(*version),
        Reply::Lines { lines } => Told::Lines(lines.len()),
        Reply::CsRefused { number } => Told::CsRefused(*number),
        Reply::Names { names } => Told::Names(names.len()),
        Reply::Slot { slot, generation } => Told::Slot(*slot, *generation),
        Reply::Granted { limit, .. } => Told::Granted(*limit),
        Reply::Call { slot, generation } => Told::Call(*slot, *generation),
        Reply::Calls { calls } => Told::Calls(calls.len()),
        Reply::To { slot, generation } => Told::To(*slot, *generation),
        Reply::Born {
            slot,
            generation,
            ..
        } => Told::Born(*slot, *generation),
        Reply::Opened { generation } => Told::Opened(*generation),
        Reply::Bytes { bytes } => Told::Bytes(bytes.len()),
        Reply::Count { count } => Told::Count(*count),
        Reply::Took => Told::Took,
        Reply::NotDue => Told::NotDue,
        Reply::Stale => Told::Stale,
        Reply::Laid { frame } => Told::Laid(*frame),
        Reply::Copy { frame } => Told::Copy(*frame),
        _ => Told::Other,
    }
}

/// By what one is told from another: a number for each kind, and what it holds.
fn key(told: Told) -> (u8, u32, u64) {
    match told {
        Told::NotReady => (0, 0, 0),
        Told::Ok => (1, 0, 0),
        Told::NoFile => (2, 0, 0),
        Told::BadMode => (3, 0, 0),
        Told::BadFid => (4, 0, 0),
        Told::Lines(count) => (5, 0, count as u64),
        Told::CsRefused(number) => (6, number, 0),
        Told::Names(count) => (7, 0, count as u64),
        Told::Slot(slot, generation) => (8, slot, generation),
        Told::Granted(limit) => (9, limit, 0),
        Told::Call(slot, generation) => (10, slot, generation),
        Told::Calls(count) => (11, 0, count as u64),
        Told::To(slot, generation) => (12, slot, generation),
        Told::Born(slot, generation) => (13, slot, generation),
        Told::Opened(generation) => (14, 0, generation),
        Told::Bytes(count) => (15, 0, count as u64),
        Told::Count(count) => (16, count, 0),
        Told::Took => (17, 0, 0),
        Told::NotDue => (18, 0, 0),
        Told::Stale => (19, 0, 0),
        Told::Laid(frame) => (20, 0, frame),
        Told::Copy(frame) => (21, 0, frame),
        Told::Version(version) => (22, 0, version),
        Told::Other => (23, 0, 0),
    }
}

pub fn is_same(told: Told, want: Told) -> bool {
    key(told) == key(want)
}

fn media(alloc: Global) -> Result<Media, AllocError>
    ensures { IfOk result (λ ms. ms ≡ tried_medium ∷ []) }
{
    let mut media = Media::new(alloc);
    media.push(MediumSpec {
        number: 0,
        name: Octets::from_slice(alloc, b"ether0")?,
        mtu: 1500,
        loss: 0,
        twice: 0,
        later: 0,
        fates: Fates::new(alloc),
    })?;
    Ok(media)
}

fn host(alloc: Global, name: &[u8], ip: u32) -> Result<HostSpec, AllocError>
    ensures { IfOk result (λ h. h ≡ tried_host name.now ip) }
{
    let mut nets = Nets::new(alloc);
    nets.push(Proto::Il)?;
    nets.push(Proto::Udp)?;
    let mut ifaces = Ifaces::new(alloc);
    ifaces.push(Iface {
        medium: 0,
        ip,
        mask: 0xffff_ff00,
    })?;
    Ok(HostSpec {
        name: Octets::from_slice(alloc, name)?,
        nets,
        ifaces,
        routes: RouteLines::new(alloc),
        starts: Starts::new(alloc),
    })
}

fn hosts(alloc: Global) -> Result<Hosts, AllocError>
    ensures { IfOk result (λ hs. hs
        ≡ tried_host (codes "anna") 2271742214 ∷ tried_host (codes "helix") 2271742239 ∷ []) }
{
    let mut hosts = Hosts::new(alloc);
    hosts.push(host(alloc, b"anna", ANNA)?)?;
    hosts.push(host(alloc, b"helix", HELIX)?)?;
    Ok(hosts)
}

/// One version of the database, which is empty.
fn versions(alloc: Global) -> Result<Versions, AllocError>
    ensures { IfOk result (λ versions. versions ≡ record { moment = 0; db = [] } ∷ []) }
{
    let mut versions = Versions::new(alloc);
    versions.push(Version {
        moment: 0,
        db: Db::new(alloc),
    })?;
    Ok(versions)
}

fn world(alloc: Global) -> Result<World, AllocError>
    ensures { IfOk result (λ w. w ≡ tried_world) }
{
    Ok(World {
        end: 60000,
        seed: 7,
        timers: Timers::Fixed,
        media: media(alloc)?,
        hosts: hosts(alloc)?,
        scripts: Scripts::new(alloc),
        dbs: versions(alloc)?,
    })
}

/// The actors of the small world, which have answered so many works.
#[derive(Drop)]
pub struct Trial {
    actors: Actors,
    works: u32,
}

impl Model for Trial {
    ghost use Rattle.host_tests.specs.Tried.{AreLedTo, tried_world};
    ghost use Rattle.std.specs.Prelude.{ℕ};

    ghost Value = { ℕ };

    ghost view = { λ t. t.works };

    ghost invariant = { λ t. AreLedTo tried_world t.actors t.works };
}

impl Trial {
    #[tactic(auto, using(crate::proofs::Trying::none_led, crate::proofs::Trying::tried_is_world))]
    pub fn new(alloc: Global) -> Result<Trial, AllocError> {
        let world = world(alloc)?;
        let dbs = Arc::new(alloc, IndexedVersions::new(alloc, world.dbs.as_slice())?)?;
        let actors = Actors::new(alloc, &world, &dbs);
        drop(world);
        Ok(Trial {
            actors: actors?,
            works: 0,
        })
    }

    /// What the actor answers.
    pub fn answer(&mut self, name: ActorName, now: u64, work: &Work) -> Result<Told, AllocError>
        requires among { is_actor_among 2 1 name ≡ true }
        requires now { now < 2 ^ 63 }
    {
        if self.works >= 1000 {
            return Ok(Told::NotReady);
        }
        if !self.actors.ready(name, now, work) {
            return Ok(Told::NotReady);
        }
        let outcome = self.actors.step(name, now, work)?;
        self.works += 1;
        let told = read_reply(&outcome.reply);
        drop(outcome);
        Ok(told)
    }

    /// When the actor is due.
    pub fn due(&self, name: ActorName) -> Option<u64>
        requires { is_actor_among 2 1 name ≡ true }
    {
        self.actors.due(name)
    }

    /// The generation of a conversation.
    pub fn generation(&self, name: ActorName) -> u64
        requires { is_actor_among 2 1 name ≡ true }
    {
        self.actors.generation(name)
    }

    /// The due moments of all conversations.
    pub fn dues(&self, alloc: Global) -> Result<Vec<Due>, AllocError> {
        self.actors.dues(alloc)
    }
}
