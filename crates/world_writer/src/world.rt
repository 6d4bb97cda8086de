//! The world round the scripts.
ghost use Rattle.std.specs.Prelude.{◌≡◌, ◌∷◌, [], IfOk};
ghost use Rattle.net_base.specs.World.{IsWorld};
ghost use Rattle.world_text.specs.Worked as worked;
ghost use Rattle.world_writer.specs.Made as spec;

use crate::law::made_worlds_are_worlds;
use crate::steps::{anna_steps, helix_steps};
use ndb_reader::{NdbError, read_ndb};
use net_base::{
    Db, Fates, HostSpec, Hosts, Iface, Ifaces, Media, MediumSpec, Nets, Octets, Proto, RouteLines,
    Script, Scripts, Starts, Timers, Version, Versions, World,
};
use std::alloc::{AllocError, Global};

/// The end moment in ms.
const END: u64 = 1000000000;

/// 135.104.9.6
const ANNA: u32 = 0x8768_0906;

/// 135.104.9.31
const HELIX: u32 = 0x8768_091f;

/// 255.255.255.0
const MASK: u32 = 0xffff_ff00;

/// The text of the database.
const LOCAL: &[u8] = b"# local network\n\
ipnet=astro ip=135.104.0.0 ipmask=255.255.0.0\n\tauth=bootes\n\
ipnet=astro9 ip=135.104.9.0 ipmask=255.255.255.0\n\tauth=helix\n\
sys=anna ip=135.104.9.6\n\tdom=anna.example.com\n\
sys=helix dom=helix.example.com\n\tip=10.0.0.31\n\tip=135.104.9.31\n\
sys=bootes\n\tip=135.104.50.2\n\
il=9fs port=17008\nudp=echo port=7\n";

/// A medium that delivers each frame.
fn medium(alloc: Global) -> Result<MediumSpec, AllocError>
    ensures { IfOk result (λ s. s ≡ spec.made_medium) }
{
    Ok(MediumSpec {
        number: 0,
        name: Octets::from_slice(alloc, b"ether0")?,
        mtu: 1500,
        loss: 0,
        twice: 0,
        later: 0,
        fates: Fates::new(alloc),
    })
}

/// A host with this address.
fn host(alloc: Global, name: &[u8], ip: u32) -> Result<HostSpec, AllocError>
    ensures { IfOk result (λ h. h ≡ worked.host name.now ip []) }
{
    let mut nets = Nets::new(alloc);
    nets.push(Proto::Il)?;
    nets.push(Proto::Udp)?;
    let mut ifaces = Ifaces::new(alloc);
    ifaces.push(Iface {
        medium: 0,
        ip,
        mask: MASK,
    })?;
    Ok(HostSpec {
        name: Octets::from_slice(alloc, name)?,
        nets,
        ifaces,
        routes: RouteLines::new(alloc),
        starts: Starts::new(alloc),
    })
}

/// Both hosts.
fn hosts(alloc: Global) -> Result<Hosts, AllocError>
    ensures { IfOk result (λ hosts. hosts ≡ spec.made_hosts) }
{
    let mut hosts = Hosts::new(alloc);
    hosts.push(host(alloc, b"anna", ANNA)?)?;
    hosts.push(host(alloc, b"helix", HELIX)?)?;
    Ok(hosts)
}

/// Both scripts.
fn scripts(alloc: Global, n: u32) -> Result<Scripts, AllocError>
    ensures { IfOk result (λ scripts. scripts ≡ spec.made_scripts n) }
{
    let mut scripts = Scripts::new(alloc);
    scripts.push(Script {
        host: 0,
        steps: anna_steps(alloc, n)?,
    })?;
    scripts.push(Script {
        host: 1,
        steps: helix_steps(alloc, n)?,
    })?;
    Ok(scripts)
}

/// The database.
fn database(alloc: Global) -> Result<Db, AllocError>
    ensures { IfOk result (λ db. db ≡ worked.tuples) }
{
    match read_ndb(alloc, LOCAL) {
        Ok(db) => Ok(db),
        Err(NdbError::Memory) => Err(AllocError),
        Err(NdbError::Bad { .. }) => unreachable!(),
    }
}

/// The only version of the database.
fn versions(alloc: Global) -> Result<Versions, AllocError>
    ensures { IfOk result (λ versions. versions ≡ record { moment = 0; db = worked.tuples } ∷ []) }
{
    let mut versions = Versions::new(alloc);
    versions.push(Version {
        moment: 0,
        db: database(alloc)?,
    })?;
    Ok(versions)
}

/// The world of `n` messages: anna writes the numbers 1 to `n` to helix, one after the other, and helix writes each back.
pub fn make_world(alloc: Global, n: u32) -> Result<World, AllocError>
    ensures made { IfOk result (λ w. w ≡ spec.made_world n) }
    ensures world { IfOk result (λ w. IsWorld w) }
{
    made_worlds_are_worlds();
    let mut media = Media::new(alloc);
    media.push(medium(alloc)?)?;
    Ok(World {
        end: END,
        seed: u64::from(n),
        timers: Timers::Fixed,
        media,
        hosts: hosts(alloc)?,
        scripts: scripts(alloc, n)?,
        dbs: versions(alloc)?,
    })
}
