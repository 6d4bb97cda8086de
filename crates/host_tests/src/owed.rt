//! What the entries of a small world owe.
use duties::{Due, Duties, Duty, WorldWays, most_owed};
use net_base::{
    ActorName, Addr, Body, Call, Event, HostSpec, Hosts, Iface, Media, MediumSpec, Octets, Outcome,
    Packet, Pair, Proto, Reply, RouteLine, Sequence, Taken, Timers, With, Work, World,
};
use std::alloc::{AllocError, Global};
use std::process::Abort;
use std::test::*;

/// 10.0.0.1 and 10.0.1.1, on both media
const GATE: u32 = 0x0a00_0001;

const GATE_BEYOND: u32 = 0x0a00_0101;

/// 10.0.0.2, on medium 0
const NEAR: u32 = 0x0a00_0002;

/// 10.0.1.2, on medium 1
const FAR: u32 = 0x0a00_0102;

/// An address to which no host has a way.
const NOWHERE: u32 = 0x0b00_0001;

/// The stamp of the entries that owe.
const STAMP: u64 = 7;

// The world: a host near, a gateway and a host far.

fn medium(alloc: Global, number: u32) -> Result<MediumSpec, AllocError> {
    Ok(MediumSpec {
        number,
        name: Octets::from_slice(alloc, b"ether")?,
        mtu: 1500,
        loss: 0,
        twice: 0,
        later: 0,
        fates: Sequence::new(alloc),
    })
}

fn host(alloc: Global, ifaces: &[Iface], routes: &[RouteLine]) -> Result<HostSpec, AllocError> {
    Ok(HostSpec {
        name: Octets::from_slice(alloc, b"host")?,
        nets: Sequence::new(alloc),
        ifaces: Sequence::from_vec(Vec::from_slice(alloc, ifaces)?),
        routes: Sequence::from_vec(Vec::from_slice(alloc, routes)?),
        starts: Sequence::new(alloc),
    })
}

fn iface(medium: u32, ip: u32) -> Iface {
    Iface {
        medium,
        ip,
        mask: 0xffff_ff00,
    }
}

/// A route to 10.0.0.0/16.
fn route(gateway: u32) -> RouteLine {
    RouteLine {
        net: 0x0a00_0000,
        mask: 0xffff_0000,
        gateway,
    }
}

fn put_hosts(alloc: Global, hosts: &mut Hosts) -> Result<(), AllocError> {
    hosts.push(host(alloc, &[iface(0, NEAR)], &[route(GATE)])?)?;
    hosts.push(host(alloc, &[iface(0, GATE), iface(1, GATE_BEYOND)], &[])?)?;
    hosts.push(host(alloc, &[iface(1, FAR)], &[route(GATE_BEYOND)])?)
}

fn put_media(alloc: Global, media: &mut Media) -> Result<(), AllocError> {
    media.push(medium(alloc, 0)?)?;
    media.push(medium(alloc, 1)?)
}

fn put_parts(alloc: Global, world: &mut World) -> Result<(), AllocError> {
    put_media(alloc, &mut world.media)?;
    put_hosts(alloc, &mut world.hosts)
}

fn ways(alloc: Global) -> Result<WorldWays, AllocError> {
    let mut world = World {
        end: 60_000,
        seed: 1,
        timers: Timers::Fixed,
        media: Sequence::new(alloc),
        hosts: Sequence::new(alloc),
        scripts: Sequence::new(alloc),
        dbs: Sequence::new(alloc),
    };
    let made = put_parts(alloc, &mut world);
    let ways = WorldWays::new(alloc, &world);
    drop(world);
    if made.is_err() {
        drop(ways);
        return Err(AllocError);
    }
    ways
}

// What is owed, as values that can be compared.

#[derive(Clone, Copy)]
enum Asked {
    Begin(u64),
    Connect(u64),
    Announced(u64),
    Bound(u64),
    Claim(u64),
    Close(u64),
    ArriveAt(u64),
    Born(u64),
    Tick(u64),
    Withdraw(u32, u64),
    Release(u32, u64),
    Put(Option<u32>),
    Arrive,
    Other,
}

#[derive(Clone, Copy)]
enum Given {
    Nothing,
    /// The ttl and the destination of a packet.
    Packet(u8, u32),
    /// Its start and limit.
    Grant(u32, u32),
    Key(u32, u16),
    /// Of a birth its packet's destination, then its start and limit.
    Birth(u32, u32, u32),
}

fn read_event(event: &Event) -> Asked {
    match event {
        Event::Begin { generation } => Asked::Begin(*generation),
        Event::Connect { generation } => Asked::Connect(*generation),
        Event::Announced { generation } => Asked::Announced(*generation),
        Event::Bound { generation } => Asked::Bound(*generation),
        Event::Claim { generation } => Asked::Claim(*generation),
        Event::Close { generation } => Asked::Close(*generation),
        Event::ArriveAt { generation } => Asked::ArriveAt(*generation),
        Event::Born { generation } => Asked::Born(*generation),
        Event::Tick { generation } => Asked::Tick(*generation),
        Event::Withdraw { slot, generation } => Asked::Withdraw(*slot, *generation),
        Event::Release { slot, generation } => Asked::Release(*slot, *generation),
        Event::Put { to } => Asked::Put(*to),
        Event::Arrive => Asked::Arrive,
        _ => Asked::Other,
    }
}

fn read_with(with: &With) -> Given {
    match with {
        With::Nothing => Given::Nothing,
        With::Packet(packet) => Given::Packet(packet.ttl, packet.dst.ip),
        With::Grant { start, limit, .. } => Given::Grant(*start, *limit),
        With::Key { ip, port } => Given::Key(*ip, *port),
        With::Birth {
            packet,
            start,
            limit,
        } => Given::Birth(packet.dst.ip, *start, *limit),
    }
}

/// By what one event is told from another: a number for each kind, and what it holds.
fn asked_key(asked: Asked) -> (u8, u32, u64) {
    match asked {
        Asked::Begin(generation) => (0, 0, generation),
        Asked::Connect(generation) => (1, 0, generation),
        Asked::Announced(generation) => (2, 0, generation),
        Asked::Bound(generation) => (3, 0, generation),
        Asked::Claim(generation) => (4, 0, generation),
        Asked::Close(generation) => (5, 0, generation),
        Asked::ArriveAt(generation) => (6, 0, generation),
        Asked::Born(generation) => (7, 0, generation),
        Asked::Tick(generation) => (8, 0, generation),
        Asked::Withdraw(slot, generation) => (9, slot, generation),
        Asked::Release(slot, generation) => (10, slot, generation),
        Asked::Put(Some(to)) => (11, to, 0),
        Asked::Put(None) => (12, 0, 0),
        Asked::Arrive => (13, 0, 0),
        Asked::Other => (14, 0, 0),
    }
}

/// What is given, in numbers.
fn given_key(given: Given) -> (u8, u32, u32, u32) {
    match given {
        Given::Nothing => (0, 0, 0, 0),
        Given::Packet(ttl, ip) => (1, u32::from(ttl), ip, 0),
        Given::Grant(start, limit) => (2, start, limit, 0),
        Given::Key(ip, port) => (3, ip, u32::from(port), 0),
        Given::Birth(ip, start, limit) => (4, ip, start, limit),
    }
}

/// What is asked of an actor.
type Owed = (ActorName, Asked, Given);

fn is_same(owed: Owed, want: Owed) -> bool {
    owed.0 == want.0
        && asked_key(owed.1) == asked_key(want.1)
        && given_key(owed.2) == given_key(want.2)
}

fn read_duty(duty: &Duty) -> Owed {
    let work = duty.work();
    (duty.actor, read_event(&work.event), read_with(&work.with))
}

/// Takes the first duty.
fn next(owed: &mut Duties) -> Option<Owed> {
    let duty = owed.pop()?;
    let read = read_duty(&duty);
    drop(duty);
    Some(read)
}

/// Takes the first duty, which is this one, or none is left.
fn is_next(owed: &mut Duties, want: Option<Owed>) -> bool {
    match (next(owed), want) {
        (Some(owed), Some(want)) => is_same(owed, want),
        (None, None) => true,
        _ => false,
    }
}

/// What is owed is this, in this order, and nothing else.
fn is_owed(rt: &impl Abort, owed: &mut Duties, all: &[Owed]) {
    for (i, want) in all.iter().enumerate() {
        assert!(rt; is_next(owed, Some(*want)), "duty {i}");
    }
    assert!(rt; owed.is_empty());
}

// Works and outcomes.

fn alone(event: Event) -> Work {
    Work {
        event,
        with: With::Nothing,
    }
}

fn arrival(packet: Packet) -> Work {
    Work {
        event: Event::Arrive,
        with: With::Packet(packet),
    }
}

fn outcome(reply: Reply) -> Outcome {
    Outcome {
        reply,
        copy: None,
        emit: None,
        taken: None,
        ended: false,
    }
}

fn packet(alloc: Global, to: u32, ttl: u8) -> Result<Packet, AllocError> {
    Ok(Packet {
        src: Addr { ip: NEAR, port: 5 },
        dst: Addr { ip: to, port: 7 },
        ttl,
        tos: 0,
        body: Body::Udp(Octets::from_slice(alloc, b"hi")?),
    })
}

/// The ways of the world, and what a caller owes.
#[derive(Drop)]
struct Bench {
    ways: WorldWays,
    owed: Duties,
}

fn set_up(alloc: Global) -> Result<Bench, AllocError> {
    let ways = ways(alloc)?;
    let owed = Duties::new(alloc);
    Ok(Bench { ways, owed })
}

/// What the entry of a step owes is owed too.
fn owes(bench: &mut Bench, actor: ActorName, work: Work, outcome: Outcome) {
    if bench.owed.reserve(most_owed(&outcome)).is_err() {
        drop(work);
        drop(outcome);
        return;
    }
    let _ = bench.ways.owe(actor, STAMP, work, outcome, &mut bench.owed);
}

/// The directory of the near host.
const DIRECTORY: ActorName = ActorName::Dir(0, Proto::Udp);

// Its conversations.

const SECOND: ActorName = ActorName::Conv(0, Proto::Udp, 2);

const FOURTH: ActorName = ActorName::Conv(0, Proto::Udp, 4);

const FIFTH: ActorName = ActorName::Conv(0, Proto::Udp, 5);

/// A reply of the directory owes this, and nothing else.
fn follow(rt: &impl Abort, bench: &mut Bench, work: Work, reply: Reply, all: &[Owed]) {
    owes(bench, DIRECTORY, work, outcome(reply));
    is_owed(rt, &mut bench.owed, all);
}

/// A grant to slot 2.
fn grant() -> Event {
    Event::Grant {
        slot: 2,
        generation: 3,
        remote: Addr { ip: FAR, port: 7 },
        lport: None,
    }
}

fn granted() -> Reply {
    Reply::Granted {
        pair: Pair {
            local: Addr { ip: NEAR, port: 5 },
            remote: Addr { ip: FAR, port: 7 },
        },
        start: 100,
        limit: 1462,
    }
}

fn begin_and_connect(rt: &impl Abort, bench: &mut Bench) {
    let slot = Reply::Slot {
        slot: 2,
        generation: 3,
    };
    let begin = [(SECOND, Asked::Begin(3), Given::Nothing)];
    follow(rt, bench, alone(Event::Reserve), slot, &begin);
    let connect = [(SECOND, Asked::Connect(3), Given::Grant(100, 1462))];
    follow(rt, bench, alone(grant()), granted(), &connect);
}

#[test]
fn a_slot_begins_and_connects(rt: HostRuntime) -> Result<(), AllocError> {
    let mut bench = set_up(rt.alloc())?;
    begin_and_connect(&rt, &mut bench);
    drop(bench);
    Ok(())
}

fn announce() -> Event {
    Event::Announce {
        slot: 2,
        generation: 3,
        ip: None,
        port: Some(7),
    }
}

fn bind() -> Event {
    Event::Bind {
        slot: 2,
        generation: 3,
        port: 9,
    }
}

fn name_ports(rt: &impl Abort, bench: &mut Bench) {
    let announced = [(SECOND, Asked::Announced(3), Given::Key(0, 7))];
    follow(rt, bench, alone(announce()), Reply::Ok, &announced);
    let bound = [(SECOND, Asked::Bound(3), Given::Key(0, 9))];
    follow(rt, bench, alone(bind()), Reply::Ok, &bound);
    // refused
    follow(rt, bench, alone(bind()), Reply::Stale, &[]);
}

#[test]
fn ports_are_named(rt: HostRuntime) -> Result<(), AllocError> {
    let mut bench = set_up(rt.alloc())?;
    name_ports(&rt, &mut bench);
    drop(bench);
    Ok(())
}

fn born() -> Reply {
    Reply::Born {
        slot: 4,
        generation: 1,
        start: 100,
        limit: 1462,
    }
}

fn arrive(rt: &impl Abort, alloc: Global, bench: &mut Bench) -> Result<(), AllocError> {
    let to = Reply::To {
        slot: 2,
        generation: 3,
    };
    let arrive = [(SECOND, Asked::ArriveAt(3), Given::Packet(9, NEAR))];
    let first = packet(alloc, NEAR, 9)?;
    follow(rt, bench, arrival(first), to, &arrive);
    let birth = [(FOURTH, Asked::Born(1), Given::Birth(NEAR, 100, 1462))];
    let second = packet(alloc, NEAR, 9)?;
    follow(rt, bench, arrival(second), born(), &birth);
    Ok(())
}

#[test]
fn packets_arrive(rt: HostRuntime) -> Result<(), AllocError> {
    let mut bench = set_up(rt.alloc())?;
    let arrived = arrive(&rt, rt.alloc(), &mut bench);
    drop(bench);
    arrived
}

/// The calls of two listeners' clients.
fn two_calls(alloc: Global) -> Result<Reply, AllocError> {
    let first = Call {
        slot: 4,
        generation: 1,
    };
    let second = Call {
        slot: 5,
        generation: 6,
    };
    Ok(Reply::Calls {
        calls: Sequence::from_vec(vec![in alloc; first, second]?),
    })
}

fn claim_and_close(rt: &impl Abort, alloc: Global, bench: &mut Bench) -> Result<(), AllocError> {
    let calls = two_calls(alloc)?;
    let withdraw = Event::Withdraw {
        slot: 2,
        generation: 3,
    };
    let closes = [
        (FOURTH, Asked::Close(1), Given::Nothing),
        (FIFTH, Asked::Close(6), Given::Nothing),
    ];
    follow(rt, bench, alone(withdraw), calls, &closes);
    let call = Reply::Call {
        slot: 4,
        generation: 1,
    };
    let claim = [(FOURTH, Asked::Claim(1), Given::Nothing)];
    follow(rt, bench, alone(Event::Listen { slot: 2 }), call, &claim);
    Ok(())
}

#[test]
fn calls_are_claimed_or_closed(rt: HostRuntime) -> Result<(), AllocError> {
    let mut bench = set_up(rt.alloc())?;
    let done = claim_and_close(&rt, rt.alloc(), &mut bench);
    drop(bench);
    done
}

#[test]
fn a_listener_that_is_left_withdraws(rt: HostRuntime) -> Result<(), AllocError> {
    let mut bench = set_up(rt.alloc())?;
    let hangup = Event::Hangup { generation: 3 };
    owes(&mut bench, SECOND, alone(hangup), outcome(Reply::Left));
    let withdraw = [(DIRECTORY, Asked::Withdraw(2, 3), Given::Nothing)];
    is_owed(&rt, &mut bench.owed, &withdraw);
    drop(bench);
    Ok(())
}

/// A last close, which says so to the peer.
fn last(packet: Packet) -> Outcome {
    Outcome {
        reply: Reply::Ok,
        copy: None,
        emit: Some(packet),
        taken: None,
        ended: true,
    }
}

fn close_last(rt: &impl Abort, alloc: Global, bench: &mut Bench) -> Result<(), AllocError> {
    let packet = packet(alloc, FAR, 255)?;
    let close = Event::Close { generation: 3 };
    owes(bench, SECOND, alone(close), last(packet));
    // the far host goes by the gateway
    let all = [
        (
            ActorName::Medium(0),
            Asked::Put(Some(1)),
            Given::Packet(255, FAR),
        ),
        (DIRECTORY, Asked::Release(2, 3), Given::Nothing),
    ];
    is_owed(rt, &mut bench.owed, &all);
    Ok(())
}

#[test]
fn a_last_close_is_put_and_releases(rt: HostRuntime) -> Result<(), AllocError> {
    let mut bench = set_up(rt.alloc())?;
    let closed = close_last(&rt, rt.alloc(), &mut bench);
    drop(bench);
    closed
}

/// A copy that a courier took for a host.
fn copy(to: u32, packet: Packet) -> Outcome {
    Outcome {
        reply: Reply::Copy { frame: 1 },
        copy: None,
        emit: None,
        taken: Some(Taken {
            frame: 1,
            to,
            packet,
        }),
        ended: false,
    }
}

/// Whether the courier of medium 0 owes this once it took a packet to this address, with this ttl, for a host.
fn carries(
    alloc: Global,
    bench: &mut Bench,
    to: u32,
    ip: u32,
    ttl: u8,
    owed: Option<Owed>,
) -> Result<bool, AllocError> {
    let copy = copy(to, packet(alloc, ip, ttl)?);
    owes(bench, ActorName::Medium(0), alone(Event::Take), copy);
    Ok(is_next(&mut bench.owed, owed))
}

fn go_on(rt: &impl Abort, alloc: Global, bench: &mut Bench) -> Result<(), AllocError> {
    let arrive = (DIRECTORY, Asked::Arrive, Given::Packet(9, NEAR));
    let put = (
        ActorName::Medium(1),
        Asked::Put(Some(2)),
        Given::Packet(8, FAR),
    );
    let rows = [
        (0, NEAR, 9, Some(arrive)),
        // at the gateway, at its last hop, and without a way
        (1, FAR, 9, Some(put)),
        (1, FAR, 1, None),
        (1, NOWHERE, 9, None),
    ];
    for (to, ip, ttl, owed) in rows {
        let carried = carries(alloc, bench, to, ip, ttl, owed)?;
        assert!(rt; carried, "{ip}, {ttl}");
    }
    Ok(())
}

#[test]
fn copies_arrive_or_go_on(rt: HostRuntime) -> Result<(), AllocError> {
    let mut bench = set_up(rt.alloc())?;
    let carried = go_on(&rt, rt.alloc(), &mut bench);
    drop(bench);
    carried
}

fn due(slot: u32, due: u64) -> Due {
    Due {
        host: 0,
        proto: Proto::Udp,
        slot,
        generation: 3,
        due,
    }
}

fn is_first(owed: &Duties, stamp: u64) -> bool {
    match owed.first() {
        Some(duty) => duty.cites == stamp,
        None => false,
    }
}

fn tick(rt: &impl Abort, owed: &mut Duties) -> Result<(), AllocError> {
    let dues = [due(2, 100), due(4, 101), due(5, 90)];
    owed.reserve(dues.len())?;
    owed.owe_ticks(STAMP, 100, &dues);
    assert!(rt; is_first(owed, STAMP));
    let ticks = [
        (SECOND, Asked::Tick(3), Given::Nothing),
        (FIFTH, Asked::Tick(3), Given::Nothing),
    ];
    is_owed(rt, owed, &ticks);
    Ok(())
}

#[test]
fn conversations_tick_when_they_are_due(rt: HostRuntime) -> Result<(), AllocError> {
    let mut owed = Duties::new(rt.alloc());
    let ticked = tick(&rt, &mut owed);
    drop(owed);
    ticked
}
