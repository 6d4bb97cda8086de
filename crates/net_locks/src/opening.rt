//! The beginning: a journal of all callers and actors of a world, which has no name yet.
ghost use Rattle.std.specs.Prelude.{◌≡◌, IfOk};
ghost use Rattle.net_base.specs.Callers.{caller_count as callers_in};
ghost use Rattle.net_base.specs.World.{IsWorld};
ghost use Rattle.net_actors.specs.Numbers.{count_in};
ghost use Rattle.net_locks.specs.Rosters.{AreNumbered, IsRosterOf};

use journal::Opened;
use net_actors::{actor_at, actor_count};
use net_base::{ActorList, ActorName, World};
use std::alloc::{AllocError, Global};
use std::marker::Model;

/// A net that was just made, before its run has a name. Contracts see which run it is, with its callers and actors.
#[derive(Drop)]
pub struct NetOpened {
    pub(crate) opened: Opened,
}

impl Model for NetOpened {
    ghost use Rattle.journal.specs.Rule.{Run};

    ghost Value = { Run };

    ghost view = { λ o. o.opened };
}

impl NetOpened {
    /// A journal of the callers and actors of a world.
    pub fn new(alloc: Global, world: &World) -> Result<NetOpened, AllocError>
        requires { IsWorld world.now }
        ensures { IfOk result (λ o. IsRosterOf world.now o.roster) }
    {
        let actors = names_of(alloc, world)?;
        let opened = Opened::new(alloc, caller_count(world), &ActorList::from_vec(actors))?;
        Ok(NetOpened { opened })
    }
}

/// How many callers a world has: a script each, a courier for each medium, and the clock.
pub fn caller_count(world: &World) -> u32
    requires { IsWorld world.now }
    ensures { result ≡ callers_in world.now }
{
    world.scripts.len() as u32 + world.media.len() as u32 + 1
}

// The names of a world's actors, in the order of their numbers.
fn names_of(alloc: Global, world: &World) -> Result<Vec<ActorName>, AllocError>
    requires { IsWorld world.now }
    ensures { IfOk result (λ names. AreNumbered world.now (count_in world.now) names.items) }
{
    let hosts = world.hosts.len() as u32;
    let media = world.media.len() as u32;
    let mut names = Vec::new(alloc);
    for number in 0..actor_count(hosts, media) {
        names.push(actor_at(hosts, media, number))?;
    }
    Ok(names)
}
