//! The ways of a host's packets.
ghost use Rattle.std.specs.Prelude.{◌≡◌, ◌<◌, ◌^◌, length, map, IfOk, IfSome};
ghost use Rattle.net_base.specs.declared.world.HostSpec.{HostSpec as AnyHost};
ghost use Rattle.net_base.specs.Routes as spec;
ghost use Rattle.ip_route.specs.Kept.{AreWaysOf, is_own_address, out_of, own_out, station_among, stands_on, way_to};

use crate::routes::Routes;
use net_base::{Iface, Ifaces, World};
use std::alloc::{AllocError, Global};
use std::marker::Model;

/// A way out: the number of a medium, the host that has the next address there, if one has, the source address, and the
/// medium's mtu in bytes.
#[derive(Clone, Copy)]
pub struct Way {
    pub medium: u32,
    pub station: Option<u32>,
    pub source: u32,
    pub mtu: u32,
}

impl Model for Way {
    ghost use Rattle.net_base.specs.Routes.{Way as AnyWay};

    ghost Value = { AnyWay };

    ghost view = { λ w. record { medium = w.medium; station = w.station; source = w.source; mtu = w.mtu } };

    ghost inverse = { λ w. record { medium = w.medium; station = w.station; source = w.source; mtu = w.mtu } };
}

/// An interface of the host, with the mtu of its medium in bytes.
#[derive(Clone, Copy, Debug, PartialEq, Eq)]
pub struct Out {
    medium: u32,
    ip: u32,
    mtu: u32,
}

/// The ways from a host, which are computed once. Clauses see the way to each address, and which addresses are its own.
#[derive(Drop)]
pub struct Ways {
    host: u32,
    outs: Vec<Out>,
    routes: Routes,
    hosts: Vec<Ifaces>,
}

impl Model for Ways {
    ghost use Rattle.std.specs.Prelude.{◌<◌, ◌^◌, length};
    ghost use Rattle.ip_route.specs.Kept.{HostWays};

    ghost Value = { HostWays };

    ghost view = { λ w. record { host = w.host; outs = w.outs.items; routes = w.routes; hosts = w.hosts.items } };

    ghost invariant = { λ w. length w.hosts.items < 2 ^ 32 };
}

/// The mtu of a medium, by its number.
fn mtu_of(world: &World, medium: u32) -> u32
    ensures { result ≡ spec.mtu_of world.now medium }
{
    match world.media.as_slice().get(medium as usize) {
        Some(medium) => medium.mtu,
        None => 0,
    }
}

/// The interfaces with the mtu of their media.
fn outs_of(alloc: Global, world: &World, ifaces: &[Iface]) -> Result<Vec<Out>, AllocError>
    ensures { IfOk result (λ outs. outs.items ≡ map (out_of world.now) ifaces.now) }
{
    let mut outs = Vec::new(alloc);
    for iface in ifaces {
        outs.push(Out {
            medium: iface.medium,
            ip: iface.ip,
            mtu: mtu_of(world, iface.medium),
        })?;
    }
    Ok(outs)
}

/// The interfaces of each host. More hosts than numbers of them count as want of memory.
fn ifaces_of(alloc: Global, world: &World) -> Result<Vec<Ifaces>, AllocError>
    ensures few { IfOk result (λ hosts. length hosts.items < 2 ^ 32) }
    ensures value { IfOk result (λ hosts. hosts.items ≡ map (λ (h : AnyHost). h.ifaces) world.now.hosts) }
{
    let mut hosts = Vec::new(alloc);
    for host in world.hosts.as_slice() {
        let ifaces = host.ifaces.clone()?;
        hosts.push(ifaces)?;
    }
    if u32::try_from(hosts.len()).is_err() {
        return Err(AllocError);
    }
    Ok(hosts)
}

/// Whether one of these interfaces has the address on the medium.
fn stands_on(ifaces: &Ifaces, medium: u32, ip: u32) -> bool
    ensures { result ≡ stands_on medium ip ifaces.now }
{
    ifaces
        .as_slice()
        .iter()
        .any(|iface| iface.medium == medium && iface.ip == ip)
}

/// The interface with this address.
fn own_out(outs: &[Out], ip: u32) -> Option<Out>
    ensures { result ≡ own_out ip outs.now }
{
    for out in outs {
        if out.ip == ip {
            return Some(*out);
        }
    }
    None
}

/// The first of the hosts with these interfaces that has the address on the medium.
fn place_of(hosts: &[Ifaces], medium: u32, ip: u32) -> Option<usize>
    ensures value { result ≡ station_among hosts.now medium ip }
    ensures within { IfSome result (λ host. host < length hosts.now) }
{
    hosts
        .iter()
        .position(|ifaces| stands_on(ifaces, medium, ip))
}

/// The number of that host.
fn station(hosts: &[Ifaces], medium: u32, ip: u32) -> Option<u32>
    requires { length hosts.now < 2 ^ 32 }
    ensures { result ≡ station_among hosts.now medium ip }
{
    match place_of(hosts, medium, ip) {
        Some(host) => Some(host as u32),
        None => None,
    }
}

impl Ways {
    /// The ways from a host of the world.
    pub fn new(alloc: Global, world: &World, host: u32) -> Result<Ways, AllocError>
        requires { host < length world.now.hosts }
        ensures { IfOk result (AreWaysOf world.now host) }
    {
        let spec = &world.hosts.as_slice()[host as usize];
        Ok(Ways {
            host,
            outs: outs_of(alloc, world, spec.ifaces.as_slice())?,
            routes: Routes::of_host(alloc, spec)?,
            hosts: ifaces_of(alloc, world)?,
        })
    }

    /// The way to an address. One of the host's own goes to itself, over that address's medium.
    pub fn to(&self, ip: u32) -> Option<Way>
        ensures { result ≡ way_to self.now ip }
    {
        if let Some(own) = own_out(&self.outs, ip) {
            return Some(Way {
                medium: own.medium,
                station: Some(self.host),
                source: own.ip,
                mtu: own.mtu,
            });
        }
        let hop = self.routes.lookup(ip)?;
        let out = self.outs.get(hop.iface as usize)?;
        Some(Way {
            medium: out.medium,
            station: station(&self.hosts, out.medium, hop.next.unwrap_or(ip)),
            source: out.ip,
            mtu: out.mtu,
        })
    }

    /// Whether the host has the address.
    pub fn has(&self, ip: u32) -> bool
        ensures { result ≡ is_own_address self.now ip }
    {
        self.outs.iter().any(|out| out.ip == ip)
    }
}
