//! The file of a world with each kind of line.
use net_base::{
    Db, Fate, FateRange, Fates, Growing, HostSpec, Hosts, Iface, Ifaces, Media, MediumSpec, Mode,
    Nets, Octets, Proto, RouteLine, RouteLines, Script, Scripts, Starts, Step, StepList, Timers,
    Version, Versions, World,
};
use std::alloc::{AllocError, Global};
use world_writer::write_world;

fn text(alloc: Global, bytes: &[u8]) -> Result<Octets, AllocError> {
    Octets::from_slice(alloc, bytes)
}

/// A medium with some rates and fates.
fn lossy(alloc: Global) -> Result<MediumSpec, AllocError> {
    let mut fates = Fates::new(alloc);
    fates.push(FateRange {
        first: 1,
        last: 1,
        fate: Fate::Lose,
    })?;
    fates.push(FateRange {
        first: 3,
        last: 5,
        fate: Fate::Deliver,
    })?;
    Ok(MediumSpec {
        number: 0,
        name: text(alloc, b"ether0")?,
        mtu: 1500,
        loss: 10,
        twice: 0,
        later: 20,
        fates,
    })
}

/// A medium without rates and fates.
fn plain(alloc: Global) -> Result<MediumSpec, AllocError> {
    Ok(MediumSpec {
        number: 1,
        name: text(alloc, b"ether1")?,
        mtu: 576,
        loss: 0,
        twice: 0,
        later: 0,
        fates: Fates::new(alloc),
    })
}

/// A host with an interface, a route and a start.
fn gate(alloc: Global) -> Result<HostSpec, AllocError> {
    let mut nets = Nets::new(alloc);
    nets.push(Proto::Udp)?;
    nets.push(Proto::Il)?;
    let mut ifaces = Ifaces::new(alloc);
    ifaces.push(Iface {
        medium: 1,
        ip: 0x0a00_0001,
        mask: 0xff00_0000,
    })?;
    let mut routes = RouteLines::new(alloc);
    routes.push(RouteLine {
        net: 0,
        mask: 0,
        gateway: 0x0a00_0002,
    })?;
    let mut starts = Starts::new(alloc);
    starts.push(4294967295)?;
    Ok(HostSpec {
        name: text(alloc, b"gate")?,
        nets,
        ifaces,
        routes,
        starts,
    })
}

fn open(alloc: Global, name: &[u8], path: &[u8], mode: Option<Mode>) -> Result<Step, AllocError> {
    Ok(Step::Open {
        name: text(alloc, name)?,
        path: text(alloc, path)?,
        mode,
    })
}

fn write(alloc: Global, bytes: &[u8]) -> Result<Step, AllocError> {
    Ok(Step::Write {
        name: text(alloc, b"d")?,
        text: text(alloc, bytes)?,
    })
}

fn writex(alloc: Global, bytes: &[u8]) -> Result<Step, AllocError> {
    Ok(Step::Writex {
        name: text(alloc, b"d")?,
        text: text(alloc, bytes)?,
    })
}

fn read(alloc: Global) -> Result<Step, AllocError> {
    Ok(Step::Read {
        name: text(alloc, b"d")?,
        count: 8192,
    })
}

fn close(alloc: Global) -> Result<Step, AllocError> {
    Ok(Step::Close {
        name: text(alloc, b"d")?,
    })
}

fn list(alloc: Global) -> Result<Step, AllocError> {
    Ok(Step::Ls {
        path: text(alloc, b"/net")?,
    })
}

fn query(alloc: Global) -> Result<Step, AllocError> {
    Ok(Step::Cs {
        query: text(alloc, b"net!$auth!9fs")?,
    })
}

fn dial(alloc: Global) -> Result<Step, AllocError> {
    Ok(Step::Dial {
        name: text(alloc, b"e")?,
        address: text(alloc, b"il!helix!9fs")?,
    })
}

fn announce(alloc: Global) -> Result<Step, AllocError> {
    Ok(Step::Announce {
        name: text(alloc, b"a")?,
        address: text(alloc, b"il!*!9fs")?,
    })
}

fn listen(alloc: Global) -> Result<Step, AllocError> {
    Ok(Step::Listen {
        name: text(alloc, b"l")?,
        from: text(alloc, b"a")?,
    })
}

fn accept(alloc: Global) -> Result<Step, AllocError> {
    Ok(Step::Accept {
        name: text(alloc, b"f")?,
        from: text(alloc, b"l")?,
    })
}

fn reject(alloc: Global) -> Result<Step, AllocError> {
    Ok(Step::Reject {
        name: text(alloc, b"l")?,
    })
}

fn hangup(alloc: Global) -> Result<Step, AllocError> {
    Ok(Step::Hangup {
        name: text(alloc, b"e")?,
    })
}

fn hread(alloc: Global) -> Result<Step, AllocError> {
    Ok(Step::Hread {
        name: text(alloc, b"a")?,
        count: 512,
    })
}

fn hwrite(alloc: Global) -> Result<Step, AllocError> {
    Ok(Step::Hwrite {
        name: text(alloc, b"a")?,
        bytes: text(alloc, b"\x00\xff")?,
    })
}

fn dns(alloc: Global) -> Result<Step, AllocError> {
    Ok(Step::Dns {
        name: text(alloc, b"a")?,
        times: 1000,
    })
}

/// Steps on files.
fn add_files(alloc: Global, steps: &mut StepList) -> Result<(), AllocError> {
    steps.push(Step::Until { moment: 10 })?;
    steps.push(Step::Refresh)?;
    steps.push(open(alloc, b"c", b"/net/il/clone", None)?)?;
    steps.push(open(alloc, b"d", b"/net/cs", Some(Mode::Both))?)?;
    steps.push(read(alloc)?)?;
    steps.push(write(alloc, b"two  words")?)?;
    steps.push(writex(alloc, b"\x00\x0a\xff")?)?;
    steps.push(writex(alloc, b"")?)?;
    steps.push(close(alloc)?)
}

/// Steps on calls.
fn add_calls(alloc: Global, steps: &mut StepList) -> Result<(), AllocError> {
    steps.push(list(alloc)?)?;
    steps.push(query(alloc)?)?;
    steps.push(dial(alloc)?)?;
    steps.push(announce(alloc)?)?;
    steps.push(listen(alloc)?)?;
    steps.push(accept(alloc)?)?;
    steps.push(reject(alloc)?)?;
    steps.push(hangup(alloc)?)?;
    steps.push(hread(alloc)?)?;
    steps.push(hwrite(alloc)?)?;
    steps.push(dns(alloc)?)
}

/// A script with each step.
fn script(alloc: Global) -> Result<Script, AllocError> {
    let mut steps = StepList::new(alloc);
    add_files(alloc, &mut steps)?;
    add_calls(alloc, &mut steps)?;
    Ok(Script { host: 0, steps })
}

/// A database of one tuple of one pair.
fn one_pair(alloc: Global) -> Result<Db, AllocError> {
    let mut db = Growing::new(alloc);
    db.push(b"sys", b"a gate")?;
    db.end_line()?;
    db.end_tuple()?;
    Ok(db.finish())
}

fn put_media(alloc: Global, media: &mut Media) -> Result<(), AllocError> {
    media.push(lossy(alloc)?)?;
    media.push(plain(alloc)?)
}

fn put_parts(alloc: Global, world: &mut World) -> Result<(), AllocError> {
    put_media(alloc, &mut world.media)?;
    world.hosts.push(gate(alloc)?)?;
    world.scripts.push(script(alloc)?)?;
    world.dbs.push(Version {
        moment: 0,
        db: one_pair(alloc)?,
    })?;
    world.dbs.push(Version {
        moment: 20,
        db: Db::new(alloc),
    })
}

fn has_file(alloc: Global, world: &World, lines: &str) -> Result<bool, AllocError> {
    let file = write_world(alloc, world)?;
    let same = file.as_slice() == lines.as_bytes();
    drop(file);
    Ok(same)
}

fn is_written(alloc: Global, lines: &str) -> Result<bool, AllocError> {
    let mut world = World {
        end: 60000,
        seed: 18446744073709551615,
        timers: Timers::Measured,
        media: Media::new(alloc),
        hosts: Hosts::new(alloc),
        scripts: Scripts::new(alloc),
        dbs: Versions::new(alloc),
    };
    let put = put_parts(alloc, &mut world);
    let written = has_file(alloc, &world, lines);
    drop(world);
    put?;
    written
}

const FILE: &str = "networld 2\nend 60000\nseed 18446744073709551615\n\
medium ether0 1500\nrates ether0 10 0 20\nfate ether0 1 lose\nfate ether0 3-5 deliver\nmedium ether1 576\n\
host gate udp il\nif ether1 10.0.0.1 255.0.0.0\nroute 0.0.0.0 0.0.0.0 10.0.0.2\nstart 4294967295\n\
script gate\nuntil 10\nrefresh\nopen c /net/il/clone\nopen d /net/cs rw\nread d 8192\nwrite d two  words\n\
writex d 000aff\nwritex d -\nclose d\nls /net\ncs net!$auth!9fs\ndial e il!helix!9fs\n\
announce a il!*!9fs\nlisten l a\naccept f l\nreject l\nhangup e\nhread a 512\nhwrite a 00ff\ndns a 1000\n\
ndb\nsys=\"a gate\"\n%at 20\n";

#[test]
fn each_kind_of_line_is_written(rt: HostRuntime) {
    assert!(rt; is_written(rt.alloc(), FILE) == Ok(true));
}
