//! Rows of the table, at the directories of 135.104.9.6/24 on a medium with an mtu of 1,500 bytes.
ghost use Rattle.std.specs.Prelude.{◌<◌, length, IfOk};

use host_dir::Dir;
use net_base::{
    Addr, Body, Event, HostSpec, Iface, IlKind, IlMsg, MediumSpec, Octets, Outcome, Packet, Proto,
    Reply, RouteLine, Sequence, StateName, Timers, With, Work, World,
};
use std::alloc::{AllocError, Global};
use std::process::Abort;
use std::test::*;

const ANNA: u32 = 0x8768_0906;

const HELIX: u32 = 0x8768_091f;

/// By a gateway alone.
const FAR: u32 = 0x0a00_0001;

/// By no way.
const NOWHERE: u32 = 0x0b00_0001;

/// Beside Anna's own.
const BESIDE: u32 = 0x8768_0907;

const MASK_24: u32 = 0xffff_ff00;

/// An address with its port.
type Place = (u32, u16);

/// A call of the directory.
#[derive(Clone, Copy)]
enum Ask {
    Reserve,
    Grant(u32, u64, Place, Option<u16>),
    /// By the first generation of a slot.
    Announce(u32, Option<u32>, Option<u16>),
    /// By the first generation of a slot.
    Bind(u32, u16),
    Listen(u32),
    Release(u32, u64),
    Withdraw(u32, u64),
    Ls,
    /// A datagram comes from one address to another.
    Datagram(Place, Place),
    /// A message of this kind and ack comes.
    Message(IlKind, u32, Place, Place),
}

/// What is read of a reply, and None of any other.
#[derive(Clone, Copy)]
enum Told {
    Slot(u32, u64),
    NoSlot,
    /// Its local and its remote address, its start and its limit.
    Granted(Place, Place, u32, u32),
    Wrong(StateName),
    NoRoute,
    NoPort,
    SelfPair,
    PairUsed(u64),
    Ok,
    Taken(u32),
    Call(u32, u64),
    NoFile,
    Calls(usize),
    To(u32, u64),
    Born(u32, u64, u32, u32),
    Refused,
    Dropped,
    Stale,
    Names(usize),
    NotReady,
    Other,
}

fn place(addr: Addr) -> Place {
    (addr.ip, addr.port)
}

fn read_reply(reply: &Reply) -> Told {
    match reply {
        Reply::Slot { slot, generation } => Told::Slot(*slot, *generation),
        Reply::NoSlot => Told::NoSlot,
        Reply::Granted { pair, start, limit } => {
            Told::Granted(place(pair.local), place(pair.remote), *start, *limit)
        },
        Reply::WrongState { state } => Told::Wrong(*state),
        Reply::NoRoute => Told::NoRoute,
        Reply::NoPort => Told::NoPort,
        Reply::SelfPair => Told::SelfPair,
        Reply::PairUsed { k } => Told::PairUsed(*k),
        Reply::Ok => Told::Ok,
        Reply::PortTaken { slot } => Told::Taken(*slot),
        Reply::Call { slot, generation } => Told::Call(*slot, *generation),
        Reply::NoFile => Told::NoFile,
        Reply::Calls { calls } => Told::Calls(calls.len()),
        Reply::To { slot, generation } => Told::To(*slot, *generation),
        Reply::Born {
            slot,
            generation,
            start,
            limit,
        } => Told::Born(*slot, *generation, *start, *limit),
        Reply::Refused => Told::Refused,
        Reply::Dropped => Told::Dropped,
        Reply::Stale => Told::Stale,
        Reply::Names { names } => Told::Names(names.len()),
        _ => Told::Other,
    }
}

/// By what one is told from another: a number for each kind, and what it holds but for a state and for addresses.
fn key(told: Told) -> (u8, u64, u32, u32, u32) {
    match told {
        Told::Slot(slot, generation) => (1, generation, slot, 0, 0),
        Told::NoSlot => (2, 0, 0, 0, 0),
        Told::Granted(_, _, start, limit) => (3, 0, 0, start, limit),
        Told::Wrong(_) => (4, 0, 0, 0, 0),
        Told::NoRoute => (5, 0, 0, 0, 0),
        Told::NoPort => (6, 0, 0, 0, 0),
        Told::SelfPair => (7, 0, 0, 0, 0),
        Told::PairUsed(k) => (8, k, 0, 0, 0),
        Told::Ok => (9, 0, 0, 0, 0),
        Told::Taken(slot) => (10, 0, slot, 0, 0),
        Told::Call(slot, generation) => (11, generation, slot, 0, 0),
        Told::NoFile => (12, 0, 0, 0, 0),
        Told::Calls(count) => (13, count as u64, 0, 0, 0),
        Told::To(slot, generation) => (14, generation, slot, 0, 0),
        Told::Born(slot, generation, start, limit) => (15, generation, slot, start, limit),
        Told::Refused => (16, 0, 0, 0, 0),
        Told::Dropped => (17, 0, 0, 0, 0),
        Told::Stale => (18, 0, 0, 0, 0),
        Told::Names(count) => (19, count as u64, 0, 0, 0),
        Told::NotReady => (20, 0, 0, 0, 0),
        Told::Other => (21, 0, 0, 0, 0),
    }
}

fn pair(told: Told) -> Option<(Place, Place)> {
    match told {
        Told::Granted(local, remote, _, _) => Some((local, remote)),
        _ => None,
    }
}

fn wrong_state(told: Told) -> Option<StateName> {
    match told {
        Told::Wrong(state) => Some(state),
        _ => None,
    }
}

fn is_same(told: Told, want: Told) -> bool {
    key(told) == key(want) && pair(told) == pair(want) && wrong_state(told) == wrong_state(want)
}

fn addr(place: Place) -> Addr {
    let (ip, port) = place;
    Addr { ip, port }
}

/// A host with one interface, a gateway, and two start lines.
fn host(alloc: Global) -> Result<HostSpec, AllocError> {
    Ok(HostSpec {
        name: Octets::from_slice(alloc, b"anna")?,
        nets: Sequence::new(alloc),
        ifaces: Sequence::from_vec(vec![in alloc;
            Iface {
                medium: 0,
                ip: ANNA,
                mask: MASK_24,
            },
        ]?),
        routes: Sequence::from_vec(vec![in alloc;
            RouteLine {
                net: 0x0a00_0000,
                mask: 0xff00_0000,
                gateway: HELIX,
            },
        ]?),
        starts: Sequence::from_vec(vec![in alloc; 100u32, 200u32]?),
    })
}

fn world(alloc: Global) -> Result<World, AllocError>
    ensures { IfOk result (λ w. 0 < length w.hosts) }
{
    let ether = MediumSpec {
        number: 0,
        name: Octets::from_slice(alloc, b"ether0")?,
        mtu: 1500,
        loss: 0,
        twice: 0,
        later: 0,
        fates: Sequence::new(alloc),
    };
    let host = host(alloc)?;
    Ok(World {
        end: 60_000,
        seed: 1,
        timers: Timers::Fixed,
        media: Sequence::from_vec(vec![in alloc; ether]?),
        hosts: Sequence::from_vec(vec![in alloc; host]?),
        scripts: Sequence::new(alloc),
        dbs: Sequence::new(alloc),
    })
}

fn anna(alloc: Global, proto: Proto) -> Result<Dir, AllocError> {
    let world = world(alloc)?;
    let dir = Dir::new(alloc, &world, 0, proto);
    drop(world);
    dir
}

/// Whether the outcome emits just what its reply says: a packet where it refuses, and nothing else.
fn is_plain(outcome: &Outcome) -> bool {
    let first = read_reply(&outcome.reply);
    match &outcome.copy {
        Some(copy) => {
            is_same(read_reply(copy), first)
                && !outcome.ended
                && outcome.emit.is_some() == is_same(first, Told::Refused)
        }
        None => false,
    }
}

fn told_by(outcome: &Outcome) -> Told {
    if is_plain(outcome) {
        read_reply(&outcome.reply)
    } else {
        Told::Other
    }
}

/// What a work of the directory tells, where it is ready.
fn answered(dir: &mut Dir, work: &Work) -> Result<Told, AllocError> {
    if !dir.ready(work) {
        return Ok(Told::NotReady);
    }
    let outcome = dir.step(work)?;
    let told = told_by(&outcome);
    drop(outcome);
    Ok(told)
}

fn alone(event: Event) -> Work {
    Work {
        event,
        with: With::Nothing,
    }
}

fn arrival(src: Place, dst: Place, body: Body) -> Work {
    let packet = Packet {
        src: addr(src),
        dst: addr(dst),
        ttl: 255,
        tos: 0,
        body,
    };
    Work {
        event: Event::Arrive,
        with: With::Packet(packet),
    }
}

fn message(alloc: Global, kind: IlKind, ack: u32) -> Body {
    Body::Il(IlMsg {
        kind,
        spec: 0,
        id: 77,
        ack,
        text: Octets::new(alloc),
    })
}

fn work_of(alloc: Global, ask: Ask) -> Work {
    match ask {
        Ask::Reserve => alone(Event::Reserve),
        Ask::Grant(slot, generation, remote, lport) => alone(Event::Grant {
            slot,
            generation,
            remote: addr(remote),
            lport,
        }),
        Ask::Announce(slot, ip, port) => alone(Event::Announce {
            slot,
            generation: 1,
            ip,
            port,
        }),
        Ask::Bind(slot, port) => alone(Event::Bind {
            slot,
            generation: 1,
            port,
        }),
        Ask::Listen(slot) => alone(Event::Listen { slot }),
        Ask::Release(slot, generation) => alone(Event::Release { slot, generation }),
        Ask::Withdraw(slot, generation) => alone(Event::Withdraw { slot, generation }),
        Ask::Ls => alone(Event::Ls),
        Ask::Datagram(src, dst) => arrival(src, dst, Body::Udp(Octets::new(alloc))),
        Ask::Message(kind, ack, src, dst) => arrival(src, dst, message(alloc, kind, ack)),
    }
}

/// Whether a call tells this.
fn tells(alloc: Global, dir: &mut Dir, ask: Ask, want: Told) -> Result<bool, AllocError> {
    let work = work_of(alloc, ask);
    let told = answered(dir, &work);
    drop(work);
    Ok(is_same(told?, want))
}

/// Makes the calls of a table, and compares what they tell.
fn play(
    rt: &impl Abort,
    alloc: Global,
    dir: &mut Dir,
    rows: &[(Ask, Told)],
) -> Result<(), AllocError> {
    for (i, (ask, want)) in rows.iter().enumerate() {
        let met = tells(alloc, dir, *ask, *want)?;
        assert!(rt; met, "row {i}");
    }
    Ok(())
}

/// Plays rows at a fresh directory.
fn plays(
    rt: &impl Abort,
    alloc: Global,
    proto: Proto,
    rows: &[(Ask, Told)],
) -> Result<(), AllocError> {
    let mut dir = anna(alloc, proto)?;
    let played = play(rt, alloc, &mut dir, rows);
    drop(dir);
    played
}

// Arrive, in each of its ways.

const ECHO: Place = (HELIX, 7);

/// The port that is granted for it.
const OWN: Place = (ANNA, 5000);

const ONE_DATAGRAM: &[(Ask, Told)] = &[
    (Ask::Reserve, Told::Slot(0, 1)),
    (
        Ask::Grant(0, 1, ECHO, Some(5000)),
        Told::Granted(OWN, ECHO, 0, 1472),
    ),
    (Ask::Datagram(ECHO, OWN), Told::To(0, 1)),
    // the pair the other way round, and a message of the other protocol
    (Ask::Datagram(OWN, ECHO), Told::Dropped),
    (Ask::Message(IlKind::Sync, 0, ECHO, OWN), Told::NotReady),
];

#[test]
fn a_datagram_finds_its_slot(rt: HostRuntime) -> Result<(), AllocError> {
    plays(&rt, rt.alloc(), Proto::Udp, ONE_DATAGRAM)
}

const ONE_BIRTH: &[(Ask, Told)] = &[
    (Ask::Reserve, Told::Slot(0, 1)),
    (Ask::Announce(0, None, Some(7)), Told::Ok),
    (
        Ask::Datagram((HELIX, 9), (ANNA, 7)),
        Told::Born(1, 1, 0, 1472),
    ),
    // the slot has its pair
    (Ask::Datagram((HELIX, 9), (ANNA, 7)), Told::To(1, 1)),
    (Ask::Release(1, 1), Told::Calls(0)),
    // a pair is born once
    (Ask::Datagram((HELIX, 9), (ANNA, 7)), Told::Dropped),
    // the call still waits, and is taken
    (Ask::Listen(0), Told::Call(1, 1)),
    (Ask::Listen(0), Told::NotReady),
];

#[test]
fn a_datagram_is_born(rt: HostRuntime) -> Result<(), AllocError> {
    plays(&rt, rt.alloc(), Proto::Udp, ONE_BIRTH)
}

const FILES: Place = (ANNA, 17008);

const SYNCS: &[(Ask, Told)] = &[
    (Ask::Reserve, Told::Slot(0, 1)),
    (Ask::Announce(0, None, Some(17008)), Told::Ok),
    // the first start line
    (
        Ask::Message(IlKind::Sync, 0, (HELIX, 1), FILES),
        Told::Born(1, 1, 100, 1462),
    ),
    (
        Ask::Message(IlKind::Sync, 0, (HELIX, 1), FILES),
        Told::To(1, 1),
    ),
    // it answers another sync
    (
        Ask::Message(IlKind::Sync, 5, (HELIX, 2), FILES),
        Told::Refused,
    ),
    (
        Ask::Message(IlKind::Data, 0, (HELIX, 2), FILES),
        Told::Dropped,
    ),
    // nobody announces it
    (
        Ask::Message(IlKind::Sync, 0, (HELIX, 2), (ANNA, 17009)),
        Told::Refused,
    ),
    // a pair with itself
    (Ask::Message(IlKind::Sync, 0, FILES, FILES), Told::Refused),
];

#[test]
fn a_sync_is_born_or_refused(rt: HostRuntime) -> Result<(), AllocError> {
    plays(&rt, rt.alloc(), Proto::Il, SYNCS)
}

const LISTENS: &[(Ask, Told)] = &[
    (Ask::Reserve, Told::Slot(0, 1)),
    (Ask::Announce(0, None, Some(17008)), Told::Ok),
];

/// Whether a sync from this port becomes a call.
fn is_let_in(alloc: Global, dir: &mut Dir, port: u16) -> Result<bool, AllocError> {
    let sync = Ask::Message(IlKind::Sync, 0, (HELIX, port), FILES);
    Ok(!tells(alloc, dir, sync, Told::Refused)?)
}

/// The first of ten syncs that becomes no call.
fn first_refused(alloc: Global, dir: &mut Dir) -> Result<Option<u16>, AllocError> {
    for n in 1..11u16 {
        if !is_let_in(alloc, dir, n)? {
            return Ok(Some(n));
        }
    }
    Ok(None)
}

const ELEVENTH: &[(Ask, Told)] = &[
    (
        Ask::Message(IlKind::Sync, 0, (HELIX, 11), FILES),
        Told::Refused,
    ),
    // the oldest
    (Ask::Listen(0), Told::Call(1, 1)),
];

const LEFT: &[(Ask, Told)] = &[
    (Ask::Withdraw(0, 1), Told::Calls(10)),
    (
        Ask::Message(IlKind::Sync, 0, (HELIX, 12), FILES),
        Told::Refused,
    ),
    (Ask::Listen(0), Told::Wrong(StateName::Withdrawn)),
];

fn fill(rt: &impl Abort, alloc: Global, dir: &mut Dir) -> Result<(), AllocError> {
    play(rt, alloc, dir, LISTENS)?;
    let refused = first_refused(alloc, dir)?;
    assert!(rt; refused == None);
    play(rt, alloc, dir, ELEVENTH)?;
    let let_in = is_let_in(alloc, dir, 11)?;
    assert!(rt; let_in, "there is room again");
    play(rt, alloc, dir, LEFT)
}

#[test]
fn ten_calls_wait_and_the_eleventh_is_refused(rt: HostRuntime) -> Result<(), AllocError> {
    let mut dir = anna(rt.alloc(), Proto::Il)?;
    let filled = fill(&rt, rt.alloc(), &mut dir);
    drop(dir);
    filled
}

const MATCHES: &[(Ask, Told)] = &[
    (Ask::Reserve, Told::Slot(0, 1)),
    (Ask::Reserve, Told::Slot(1, 1)),
    (Ask::Reserve, Told::Slot(2, 1)),
    (Ask::Announce(0, None, None), Told::Ok),
    (Ask::Announce(1, None, Some(7)), Told::Ok),
    (Ask::Announce(2, Some(ANNA), Some(7)), Told::Ok),
    // by address and port
    (
        Ask::Datagram((HELIX, 1), (ANNA, 7)),
        Told::Born(3, 1, 0, 1472),
    ),
    (Ask::Listen(2), Told::Call(3, 1)),
    // by the port
    (
        Ask::Datagram((HELIX, 1), (BESIDE, 7)),
        Told::Born(4, 1, 0, 1472),
    ),
    (Ask::Listen(1), Told::Call(4, 1)),
    // by any port
    (
        Ask::Datagram((HELIX, 1), (ANNA, 8)),
        Told::Born(5, 1, 0, 1472),
    ),
    (Ask::Listen(0), Told::Call(5, 1)),
];

#[test]
fn a_match_of_more_comes_first(rt: HostRuntime) -> Result<(), AllocError> {
    plays(&rt, rt.alloc(), Proto::Udp, MATCHES)
}

// Slots, pairs and ports.

const FULL: &[(Ask, Told)] = &[
    (Ask::Reserve, Told::NoSlot),
    (Ask::Ls, Told::Names(33)),
    (Ask::Release(9, 1), Told::Calls(0)),
    // the lowest that is free
    (Ask::Reserve, Told::Slot(9, 2)),
    (Ask::Grant(32, 1, ECHO, None), Told::NotReady),
];

fn reserve_all(rt: &impl Abort, alloc: Global, dir: &mut Dir) -> Result<(), AllocError> {
    for n in 0..32 {
        play(rt, alloc, dir, &[(Ask::Reserve, Told::Slot(n, 1))])?;
    }
    play(rt, alloc, dir, FULL)
}

#[test]
fn there_are_32_slots(rt: HostRuntime) -> Result<(), AllocError> {
    let mut dir = anna(rt.alloc(), Proto::Udp)?;
    let reserved = reserve_all(&rt, rt.alloc(), &mut dir);
    drop(dir);
    reserved
}

const ANNOUNCED: &[(Ask, Told)] = &[
    (Ask::Reserve, Told::Slot(0, 1)),
    (Ask::Reserve, Told::Slot(1, 1)),
    (Ask::Reserve, Told::Slot(2, 1)),
    (Ask::Reserve, Told::Slot(3, 1)),
    (Ask::Reserve, Told::Slot(4, 1)),
    (Ask::Announce(3, None, Some(17008)), Told::Ok),
    (Ask::Announce(4, None, Some(17008)), Told::Taken(3)),
    (Ask::Announce(4, Some(ANNA), Some(17008)), Told::Ok),
    (
        Ask::Announce(4, None, None),
        Told::Wrong(StateName::Announced),
    ),
];

const BOUND: &[(Ask, Told)] = &[
    (Ask::Bind(0, 5000), Told::Ok),
    // by itself
    (Ask::Bind(0, 5000), Told::Taken(0)),
    (Ask::Bind(1, 5000), Told::Taken(0)),
    // before it is wrong
    (Ask::Bind(5, 5001), Told::Stale),
    (Ask::Listen(5), Told::NoFile),
    (Ask::Listen(0), Told::Wrong(StateName::Reserved)),
];

fn announces(rt: &impl Abort, alloc: Global, dir: &mut Dir) -> Result<(), AllocError> {
    play(rt, alloc, dir, ANNOUNCED)?;
    play(rt, alloc, dir, BOUND)
}

#[test]
fn an_announcement_is_taken(rt: HostRuntime) -> Result<(), AllocError> {
    let mut dir = anna(rt.alloc(), Proto::Il)?;
    let played = announces(&rt, rt.alloc(), &mut dir);
    drop(dir);
    played
}

/// The files of another host.
const AFAR: Place = (HELIX, 17008);

const ONE_PAIR: &[(Ask, Told)] = &[
    (Ask::Reserve, Told::Slot(0, 1)),
    (
        Ask::Grant(0, 1, AFAR, Some(5000)),
        Told::Granted(OWN, AFAR, 100, 1462),
    ),
    (Ask::Release(0, 1), Told::Calls(0)),
    (Ask::Reserve, Told::Slot(0, 2)),
    (Ask::Grant(0, 2, AFAR, Some(5000)), Told::PairUsed(1)),
    // before the pair is looked up
    (Ask::Grant(0, 2, OWN, Some(5000)), Told::SelfPair),
    (Ask::Grant(0, 2, (NOWHERE, 7), None), Told::NoRoute),
    // 5000 was named
    (
        Ask::Grant(0, 2, (FAR, 7), None),
        Told::Granted((ANNA, 5001), (FAR, 7), 200, 1462),
    ),
    (
        Ask::Grant(0, 2, AFAR, None),
        Told::Wrong(StateName::Granted),
    ),
];

#[test]
fn a_pair_is_granted_once(rt: HostRuntime) -> Result<(), AllocError> {
    plays(&rt, rt.alloc(), Proto::Il, ONE_PAIR)
}

const DRAWN: &[(Ask, Told)] = &[
    (Ask::Reserve, Told::Slot(0, 1)),
    (Ask::Reserve, Told::Slot(1, 1)),
    (Ask::Reserve, Told::Slot(2, 1)),
    (Ask::Reserve, Told::Slot(3, 1)),
    (Ask::Bind(0, 5000), Told::Ok),
    (Ask::Announce(1, None, Some(5001)), Told::Ok),
    (
        Ask::Grant(2, 1, ECHO, None),
        Told::Granted((ANNA, 5002), ECHO, 0, 1472),
    ),
    (Ask::Release(2, 1), Told::Calls(0)),
    // 5002 was drawn
    (
        Ask::Grant(3, 1, ECHO, None),
        Told::Granted((ANNA, 5003), ECHO, 0, 1472),
    ),
    // the bound one
    (
        Ask::Grant(0, 1, ECHO, None),
        Told::Granted(OWN, ECHO, 0, 1472),
    ),
];

#[test]
fn drawn_ports_were_never_used(rt: HostRuntime) -> Result<(), AllocError> {
    plays(&rt, rt.alloc(), Proto::Udp, DRAWN)
}
