//! The ways of all hosts of a world.
ghost use Rattle.std.specs.Prelude.{◌≡◌, option_copied, slice_get, IfOk};
ghost use Rattle.net_base.specs.declared.world.World.{World as AnyWorld};
ghost use Rattle.net_base.specs.Routes as routes;
ghost use Rattle.duties.specs.WaysOf.{AreWaysOfWorld};

use ip_route::{Way, Ways};
use net_base::World;
use std::alloc::{AllocError, Global};
use std::marker::Model;

/// The ways from each host of a world, made once. Clauses see the ways of each host, by number.
#[derive(Drop)]
pub struct WorldWays {
    hosts: Vec<Ways>,
}

impl Model for WorldWays {
    ghost use Rattle.std.specs.Prelude.{List};
    ghost use Rattle.ip_route.specs.Kept.{HostWays};

    ghost Value = { List HostWays };

    ghost view = { λ w. w.hosts.items };
}

impl WorldWays {
    /// The ways of a world's hosts. More hosts than numbers of them count as want of memory.
    pub fn new(alloc: Global, world: &World) -> Result<WorldWays, AllocError>
        ensures { IfOk result (AreWaysOfWorld world.now) }
    {
        let mut hosts = Vec::new(alloc);
        for n in 0..world.hosts.len() {
            let Ok(host) = u32::try_from(n) else {
                return Err(AllocError);
            };
            hosts.push(Ways::new(alloc, world, host)?)?;
        }
        Ok(WorldWays { hosts })
    }

    /// The way from a host to an address.
    pub fn way(&self, host: u32, ip: u32) -> Option<Way>
        ensures { (w : AnyWorld) → AreWaysOfWorld w self.now → result ≡ routes.way w host ip }
    {
        self.ways_of(host)?.to(ip)
    }

    /// Whether the host has the address.
    pub fn has_address(&self, host: u32, ip: u32) -> bool
        ensures { (w : AnyWorld) → AreWaysOfWorld w self.now → result ≡ routes.has_address w host ip }
    {
        match self.ways_of(host) {
            Some(ways) => ways.has(ip),
            None => false,
        }
    }

    // The ways from a host.
    fn ways_of(&self, host: u32) -> Option<&Ways>
        ensures { option_copied result ≡ slice_get self.now host }
    {
        self.hosts.get(host as usize)
    }
}
