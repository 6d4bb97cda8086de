//! Worked worlds, and the causes of bad lines.
use net_base::{HostSpec, MediumSpec, Script, Step, World};
use std::alloc::{AllocError, Global};
use std::process::Abort;
use world_file::{WorldError, read_world};

/// The lines that a world begins with, those behind them, and the bad line of both with its cause.
type Row = (&'static [u8], &'static [u8], u64, u32);

pub(crate) const WORLD: &[u8] = b"networld 1\n\
end 60000\n\
seed 7\n\
medium ether0 1500\n\
host anna il udp\n\
if ether0 135.104.9.6 255.255.255.0\n\
host helix il udp\n\
if ether0 135.104.9.31 255.255.255.0\n\
script anna\n\
open c /net/udp/clone\n\
write c connect 135.104.9.31!7 5000\n\
open d /net/udp/0/data\n\
write d hi\n\
script helix\n\
open c /net/udp/clone\n\
write c connect 135.104.9.6!5000 7\n\
open d /net/udp/0/data\n\
read d 8192\n\
ndb\n\
# local network\n\
ipnet=astro ip=135.104.0.0 ipmask=255.255.0.0\n\
\tauth=bootes\n\
il=9fs port=17008\n\
udp=echo port=7\n";

const START: &[u8] = b"networld 1\n";

const MEDIA: &[u8] = b"networld 1\nend 1\nseed 0\nmedium a 576\n";

const HOST: &[u8] = b"networld 1\nend 1\nseed 0\nmedium a 576\nhost h udp\n";

const HOSTS: &[u8] =
    b"networld 1\nend 1\nseed 0\nmedium a 576\nhost h udp\nif a 10.0.0.1 255.0.0.0\nhost g il\nif a 10.0.0.2 255.0.0.0\n";

const SCRIPT: &[u8] =
    b"networld 1\nend 1\nseed 0\nmedium a 576\nhost h udp\nif a 10.0.0.1 255.0.0.0\nscript h\nuntil 1\n";

const EIGHT: &[u8] = b"networld 1\nend 1\nseed 0\nmedium a 576\n\
host a udp\nhost b udp\nhost c udp\nhost d udp\nhost e udp\nhost f udp\nhost g udp\nhost h udp\n";

/// Lines under a host and of the media in an order of their own.
const FREE: &[u8] = b"# a world\n\
networld 1\n\n\
end 1\n\
seed 0\n\
medium a 576\n\
fate a 7 lose\n\
medium b 16384\n\
rates b 0 0 0\n\
fate a 1-3 twice\n\
rates a 600 300 100\n\
fate b 1-3 later\n\
fate a 4-4 lose\n\
host h udp il\n\
start 7\n\
if b 11.0.0.1 255.0.0.0\n\
route 12.0.0.0 255.0.0.0 11.0.0.9\n\
#\n\
if a 10.0.0.1 255.0.0.0\n\
route 0.0.0.0 0.0.0.0 10.0.0.9\n\
start 4294967295\n\
host g il\n\
script g\n\
ls /net\n\
script g\n\
script h\n\
writex d -\n\
until 5\n\
ndb";

/// The bad line and the cause that are told of a text, where it is bad.
fn told(alloc: Global, text: &[u8]) -> Option<(u64, u32)> {
    match read_world(alloc, text) {
        Err(WorldError::Bad { line, cause }) => Some((line, cause)),
        _ => None,
    }
}

/// What is told of these lines behind a beginning.
fn told_behind(
    alloc: Global,
    front: &[u8],
    lines: &[u8],
) -> Result<Option<(u64, u32)>, AllocError> {
    let mut text = Vec::new(alloc);
    text.extend_from_slice(front)?;
    text.extend_from_slice(lines)?;
    Ok(told(alloc, text.as_slice()))
}

/// The first row whose line isn't told so.
fn first_wrong(alloc: Global, rows: &[Row]) -> Result<Option<usize>, AllocError> {
    for (i, (front, lines, line, cause)) in rows.iter().enumerate() {
        if told_behind(alloc, front, lines)? != Some((*line, *cause)) {
            return Ok(Some(i));
        }
    }
    Ok(None)
}

/// No row is wrong.
fn none_wrong(rt: &impl Abort, wrong: Result<Option<usize>, AllocError>) {
    assert_eq!(rt; wrong, Ok(None));
}

/// Whether a host is helix at its one address.
fn is_helix(host: &HostSpec) -> bool {
    match host.ifaces.as_slice() {
        [iface] => {
            host.name.as_slice() == b"helix".as_slice()
                && iface.ip == 0x8768_091f
                && iface.mask == 0xffff_ff00
        }
        _ => false,
    }
}

/// Whether the last of four steps writes `hi`.
fn ends_with_a_write(script: &Script) -> bool {
    match script.steps.as_slice() {
        [_, _, _, Step::Write { name, text }] => {
            name.as_slice() == b"d".as_slice() && text.as_slice() == b"hi".as_slice()
        }
        _ => false,
    }
}

fn has_two_hosts(world: &World) -> bool {
    match world.hosts.as_slice() {
        [_, host] => is_helix(host),
        _ => false,
    }
}

fn has_two_scripts(world: &World) -> bool {
    match world.scripts.as_slice() {
        [script, _] => ends_with_a_write(script),
        _ => false,
    }
}

fn is_worked(world: &World) -> bool {
    let head = world.end == 60000 && world.seed == 7;
    let counts = world.media.len() == 1 && has_three_tuples(world);
    head && counts && has_two_hosts(world) && has_two_scripts(world)
}

fn has_three_tuples(world: &World) -> bool {
    match world.dbs.as_slice() {
        [version] => version.db.len() == 3,
        _ => false,
    }
}

/// Whether the worked world is read as its lines say.
fn worked_is_read(alloc: Global) -> bool {
    let Ok(world) = read_world(alloc, WORLD) else {
        return false;
    };
    let worked = is_worked(&world);
    drop(world);
    worked
}

#[test]
fn the_worked_world_is_read(rt: HostRuntime) {
    let read = worked_is_read(rt.alloc());
    assert!(rt; read);
}

/// Whether medium `a` has its rates and its three fates in their order.
fn is_lossy(medium: &MediumSpec) -> bool {
    match medium.fates.as_slice() {
        [_, second, third] => {
            medium.loss == 600 && medium.later == 100 && second.last == 3 && third.first == 4
        }
        _ => false,
    }
}

/// Whether the media are `a` with its fates and `b` with one.
fn has_fates(world: &World) -> bool {
    match world.media.as_slice() {
        [a, b] => is_lossy(a) && b.loss == 0 && b.fates.len() == 1,
        _ => false,
    }
}

fn is_between(host: &HostSpec) -> bool {
    match (
        host.ifaces.as_slice(),
        host.routes.as_slice(),
        host.starts.as_slice(),
    ) {
        ([first, ..], [_, route], [_, start]) => {
            first.medium == 1 && route.gateway == 0x0a00_0009 && *start == 4_294_967_295
        }
        _ => false,
    }
}

fn has_free_hosts(world: &World) -> bool {
    match world.hosts.as_slice() {
        [host, _] => is_between(host),
        _ => false,
    }
}

fn has_free_scripts(world: &World) -> bool {
    match world.scripts.as_slice() {
        [_, second, third] => second.host == 1 && third.steps.len() == 2,
        _ => false,
    }
}

/// Whether the world of lines in another order is what its lines say.
fn free_is_read(alloc: Global) -> bool {
    let Ok(world) = read_world(alloc, FREE) else {
        return false;
    };
    let free = has_fates(&world) && has_free_hosts(&world) && has_free_scripts(&world);
    drop(world);
    free
}

#[test]
fn lines_stand_in_any_order(rt: HostRuntime) {
    let read = free_is_read(rt.alloc());
    assert!(rt; read);
}

const FIRST_LINES: &[Row] = &[
    (b"", b"", 1, 11),
    (b"", b"#a\n\nnetworld 3\n", 3, 11),
    (b"", b"networld 1 ", 1, 11),
    (START, b" end 1", 2, 12),
    (START, b"#end\n\nends", 4, 12),
    (START, b"networld 3", 2, 13),
    (START, b"networld 2", 2, 18),
    (START, b"end 1\nend 0", 3, 13),
    (START, b"networld 1", 2, 18),
    (START, b"end 1\nend 1", 3, 18),
    (START, b"end 1\nseed 1\nseed 1", 4, 18),
    (SCRIPT, b"seed 1", 9, 18),
    (START, b"seed 1", 2, 19),
    (START, b"medium a 576", 2, 19),
    (START, b"", 2, 19),
];

#[test]
fn first_lines_are_judged(rt: HostRuntime) {
    none_wrong(&rt, first_wrong(rt.alloc(), FIRST_LINES));
}

const OF_MEDIA: &[Row] = &[
    (MEDIA, b"medium a 576", 5, 14),
    (
        MEDIA,
        b"medium b 576\nmedium c 576\nmedium d 576\nmedium e 576",
        8,
        17,
    ),
    (HOSTS, b"medium b 576", 9, 18),
    (START, b"end 1\nmedium a 576", 3, 19),
    (MEDIA, b"rates a 4294967296 0 0", 5, 13),
    (MEDIA, b"rates b 1001 0 0", 5, 15),
    (MEDIA, b"rates a 0 0 0\nrates a 1001 0 0", 6, 18),
    (SCRIPT, b"rates a 1001 0 0", 9, 18),
    (MEDIA, b"rates a 600 400 1", 5, 23),
    (MEDIA, b"fate a 2-1 lose", 5, 13),
    (START, b"fate a 1 lose", 2, 15),
    (HOSTS, b"fate a 1 lose", 9, 18),
    (MEDIA, b"fate a 5-9 lose\nfate a 9-12 lose", 6, 23),
    (
        MEDIA,
        b"fate a 5-9 lose\nfate a 20 lose\nfate a 1-5 lose",
        7,
        23,
    ),
    (
        MEDIA,
        b"fate a 5-9 lose\nfate a 1-18446744073709551615 lose",
        6,
        23,
    ),
];

#[test]
fn media_are_judged(rt: HostRuntime) {
    none_wrong(&rt, first_wrong(rt.alloc(), OF_MEDIA));
}

const OF_HOSTS: &[Row] = &[
    (MEDIA, b"host h tcp", 5, 13),
    (HOSTS, b"host h udp", 9, 14),
    (EIGHT, b"host i udp", 13, 17),
    (SCRIPT, b"host g udp", 9, 18),
    (START, b"end 1\nseed 1\nhost h udp", 4, 19),
    (HOSTS, b"if a 10.0.0.3 255.0.1.0", 9, 14),
    (HOST, b"if b 1.2.3.4 255.0.1.0", 6, 15),
    (HOSTS, b"host f udp\nif a 10.0.0.1 0.0.1.0", 10, 16),
    (MEDIA, b"if a 1.2.3.4 255.0.1.0", 5, 18),
    (SCRIPT, b"if a 10.0.0.9 255.0.0.0", 9, 18),
    (HOST, b"if a 1.2.3.4 255.0.1.0", 6, 20),
    (SCRIPT, b"start 1", 9, 18),
];

#[test]
fn hosts_are_judged(rt: HostRuntime) {
    none_wrong(&rt, first_wrong(rt.alloc(), OF_HOSTS));
}

const ROUTES: &[Row] = &[
    (SCRIPT, b"route 1.0.0.1 255.0.0.0 11.0.0.9", 9, 18),
    (HOSTS, b"route 1.0.0.0 255.0.1.0 10.0.0.9", 9, 20),
    (HOSTS, b"route 1.0.0.1 255.0.0.0 10.0.0.9", 9, 20),
    (HOSTS, b"route 10.0.0.0 255.0.0.0 11.0.0.9", 9, 21),
    (
        HOSTS,
        b"route 1.0.0.0 255.0.0.0 10.0.0.9\nroute 1.0.0.0 255.0.0.0 10.0.0.8",
        10,
        21,
    ),
    (HOSTS, b"route 1.0.0.0 255.0.0.0 11.0.0.9", 9, 22),
    (
        HOST,
        b"route 1.0.0.0 255.0.0.0 10.0.0.9\nif a 10.0.0.1 255.0.0.0",
        6,
        22,
    ),
    (
        MEDIA,
        b"medium b 576\nhost h il\nif a 10.0.0.1 255.0.0.0\nroute 11.0.0.0 255.0.0.0 10.0.0.9\nif b 11.0.0.1 255.0.0.0",
        9,
        21,
    ),
];

#[test]
fn routes_are_judged(rt: HostRuntime) {
    none_wrong(&rt, first_wrong(rt.alloc(), ROUTES));
}

const SCRIPTS: &[Row] = &[
    (HOSTS, b"script H", 9, 13),
    (MEDIA, b"script h", 5, 15),
    (HOSTS, b"script f", 9, 15),
    (HOSTS, b"until 1", 9, 18),
    (HOSTS, b"until 0", 9, 13),
    (SCRIPT, b"read d 65537", 9, 13),
    (HOSTS, b"ndb x", 9, 13),
    (MEDIA, b"ndb", 5, 19),
    (HOSTS, b"ndb\n\ta=b\n", 10, 1),
    (HOSTS, b"ndb\na=\"b\n", 10, 2),
    (SCRIPT, b"ndb\na=b\n\n\n=c", 13, 3),
    (HOSTS, b"ndb\na=b\n%file x\n\tc=d\n", 12, 1),
];

const VERSIONS: &[Row] = &[
    // a version begins at its own moment, above the one before
    (HOSTS, b"ndb\n%at 20\n%at 20\n", 11, 24),
    (HOSTS, b"ndb\n%at 20\n%at 19\n", 11, 24),
    (HOSTS, b"ndb\n%at 0\n", 10, 13),
    (HOSTS, b"ndb\n%at 1000000001\n", 10, 13),
    (HOSTS, b"ndb\n%at", 10, 13),
    (HOSTS, b"ndb\n%at ", 10, 13),
    (HOSTS, b"ndb\n%at 20 ", 10, 13),
    (HOSTS, b"ndb\n%at 20\r\n", 10, 13),
    (HOSTS, b"ndb\n%at 2\x000\n", 10, 13),
    (HOSTS, b"ndb\n%at 020\n", 10, 13),
    // any other byte behind `%at` makes it a line of the bundle
    (HOSTS, b"ndb\n%atx\n", 10, 6),
    (HOSTS, b"ndb\n%at\t20\n", 10, 6),
    (HOSTS, b"ndb\n%at\x00\n", 10, 5),
    // each bundle is by itself
    (HOSTS, b"ndb\na=b\n%at 20\n\tc=d\n", 12, 1),
    (HOSTS, b"ndb\na=b\n%at 20\na=b\n\n=c\n", 14, 3),
    // the first bad line is told
    (HOSTS, b"ndb\n%at 20\n=c\n%at 20\n", 11, 3),
    // the first line names the timers, and none goes back
    (HOSTS, b"networld 2", 9, 18),
    (HOSTS, b"networld 3", 9, 13),
    (SCRIPT, b"refresh x", 9, 13),
];

#[test]
fn versions_are_judged(rt: HostRuntime) {
    none_wrong(&rt, first_wrong(rt.alloc(), VERSIONS));
}

#[test]
fn scripts_are_judged(rt: HostRuntime) {
    none_wrong(&rt, first_wrong(rt.alloc(), SCRIPTS));
}

/// What is told of this many scripts more than none.
fn told_of_scripts(alloc: Global, many: u32) -> Result<Option<(u64, u32)>, AllocError> {
    let mut lines = Vec::new(alloc);
    for _ in 0..many {
        lines.extend_from_slice(b"script g\n")?;
    }
    told_behind(alloc, HOSTS, lines.as_slice())
}

#[test]
fn a_script_too_many_is_told(rt: HostRuntime) {
    assert!(rt; told_of_scripts(rt.alloc(), 33) == Ok(Some((41, 17))));
}

/// The first line of these behind which the worked world can be cut, with its newline or without, and isn't told to lack
/// a part.
fn first_whole(alloc: Global, lines: u64) -> Option<u64> {
    let mut number = 1;
    for (i, byte) in WORLD.iter().enumerate() {
        if *byte != b'\n' {
            continue;
        }
        if lines <= number {
            break;
        }
        number += 1;
        let lacks = Some((number, 19));
        if told(alloc, &WORLD[..i + 1]) != lacks || told(alloc, &WORLD[..i]) != lacks {
            return Some(number);
        }
    }
    None
}

#[test]
fn a_text_that_is_cut_lacks_a_part(rt: HostRuntime) {
    let first = first_whole(rt.alloc(), 19);
    assert!(rt; first == None);
}
