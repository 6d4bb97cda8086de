//! A worked history with its summary, and a line for each word.
use crate::worlds::WORLD;
use net_base::{
    ActorName, Addr, BodyHeader, Call, CallList, Cause, Entry, Event, FileName, Header, History,
    IlKind, Lines, Mode, Octets, Pair, Proto, Reply, StateName, World,
};
use std::alloc::{AllocError, Global};
use transcript::{RunEnd, RunStatus, summary_by, text_of};
use world_file::read_world;

/// What a history is made of.
#[derive(Clone, Copy)]
enum Part {
    Datagram,
    LastTick,
    Lists,
    Announcements,
    Names,
    Directory,
    Calls,
    Beginning,
    Refusals,
    Numbers,
}

/// Each part with its text.
const PARTS: &[(Part, &str)] = &[
    (Part::Datagram, DATAGRAM),
    (Part::LastTick, LAST_TICK),
    (Part::Lists, LISTS),
    (Part::Announcements, ANNOUNCEMENTS),
    (Part::Names, NAMES),
    (Part::Directory, DIRECTORY),
    (Part::Calls, CALLS),
    (Part::Beginning, BEGINNING),
    (Part::Refusals, REFUSALS),
    (Part::Numbers, NUMBERS),
];

fn put_part(alloc: Global, part: Part, history: &mut History) -> Result<(), AllocError> {
    match part {
        Part::Datagram => put_datagram(alloc, history),
        Part::LastTick => history.push(last_tick()),
        Part::Lists => put_lists(alloc, history),
        Part::Announcements => put_announcements(history),
        Part::Names => put_names(alloc, history),
        Part::Directory => put_directory(history),
        Part::Calls => put_calls(alloc, history),
        Part::Beginning => put_beginning(history),
        Part::Refusals => put_refusals(alloc, history),
        Part::Numbers => put_numbers(alloc, history),
    }
}

fn has_text(alloc: Global, history: &History, lines: &str) -> Result<bool, AllocError> {
    let text = text_of(alloc, history)?;
    let same = text.as_slice() == lines.as_bytes();
    drop(text);
    Ok(same)
}

/// Whether the history of a part has this text.
fn is_told(alloc: Global, part: Part, lines: &str) -> Result<bool, AllocError> {
    let mut history = History::new(alloc);
    let put = put_part(alloc, part, &mut history);
    let told = has_text(alloc, &history, lines);
    drop(history);
    put?;
    told
}

#[test]
fn each_entry_has_its_line(rt: HostRuntime) -> Result<(), AllocError> {
    for (i, (part, lines)) in PARTS.iter().enumerate() {
        let told = is_told(rt.alloc(), *part, lines)?;
        assert!(rt; told, "part {i}");
    }
    Ok(())
}

const ANNA: u32 = 0x87680906;

const HELIX: u32 = 0x8768091f;

fn text(alloc: Global, bytes: &[u8]) -> Result<Octets, AllocError> {
    Octets::from_slice(alloc, bytes)
}

fn entry(actor: ActorName, caller: u32, cites: Option<u64>, event: Event, reply: Reply) -> Entry {
    Entry {
        actor,
        caller,
        moment: 0,
        event,
        cites,
        reply,
        emits: None,
        ended: false,
    }
}

fn dir(host: u32) -> ActorName {
    ActorName::Dir(host, Proto::Udp)
}

fn conv(host: u32) -> ActorName {
    ActorName::Conv(host, Proto::Udp, 0)
}

fn addr(host: u32) -> Addr {
    if host == 0 {
        Addr {
            ip: ANNA,
            port: 5000,
        }
    } else {
        Addr { ip: HELIX, port: 7 }
    }
}

fn other(host: u32) -> u32 {
    1 - host.min(1)
}

fn reserve(h: u32) -> Entry {
    let reply = Reply::Slot {
        slot: 0,
        generation: 1,
    };
    entry(dir(h), h, None, Event::Reserve, reply)
}

fn begin(h: u32) -> Entry {
    let event = Event::Begin { generation: 1 };
    entry(conv(h), h, Some(h as u64), event, Reply::Ok)
}

fn grant(h: u32) -> Entry {
    let event = Event::Grant {
        slot: 0,
        generation: 1,
        remote: addr(other(h)),
        lport: Some(addr(h).port),
    };
    let reply = Reply::Granted {
        pair: Pair {
            local: addr(h),
            remote: addr(other(h)),
        },
        start: 0,
        limit: 1472,
    };
    entry(dir(h), h, None, event, reply)
}

fn connect(h: u32) -> Entry {
    let event = Event::Connect { generation: 1 };
    entry(conv(h), h, Some(4 + h as u64), event, Reply::Ok)
}

fn wait(h: u32) -> Entry {
    let event = Event::Await { generation: 1 };
    entry(conv(h), h, None, event, Reply::Ok)
}

fn open(h: u32) -> Entry {
    let event = Event::Open {
        file: FileName::Data,
        mode: Mode::Both,
    };
    entry(conv(h), h, None, event, Reply::Opened { generation: 1 })
}

fn write(text: Octets) -> Entry {
    let event = Event::Write {
        generation: 1,
        text,
    };
    let mut write = entry(conv(0), 0, None, event, Reply::Count { count: 2 });
    write.emits = Some(Header {
        src: addr(0),
        dst: addr(1),
        ttl: 255,
        tos: 0,
        body: BodyHeader::Udp { length: 2 },
    });
    write
}

fn read(bytes: Octets) -> Entry {
    let event = Event::Read {
        generation: 1,
        count: 8192,
    };
    entry(conv(1), 1, None, event, Reply::Bytes { bytes })
}

fn put_talk(alloc: Global, history: &mut History) -> Result<(), AllocError> {
    history.push(write(text(alloc, b"hi")?))?;
    let put = Event::Put { to: Some(1) };
    history.push(entry(
        ActorName::Medium(0),
        0,
        Some(12),
        put,
        Reply::Laid { frame: 1 },
    ))?;
    let copy = Reply::Copy { frame: 1 };
    history.push(entry(ActorName::Medium(0), 2, None, Event::Take, copy))?;
    let to = Reply::To {
        slot: 0,
        generation: 1,
    };
    history.push(entry(dir(1), 2, Some(14), Event::Arrive, to))?;
    let arrive = Event::ArriveAt { generation: 1 };
    history.push(entry(conv(1), 2, Some(15), arrive, Reply::Took))?;
    history.push(read(text(alloc, b"hi")?))
}

fn put_connections(history: &mut History) -> Result<(), AllocError> {
    for h in 0..2 {
        history.push(reserve(h))?;
    }
    for h in 0..2 {
        history.push(begin(h))?;
    }
    for h in 0..2 {
        history.push(grant(h))?;
    }
    for h in 0..2 {
        history.push(connect(h))?;
    }
    for h in 0..2 {
        history.push(wait(h))?;
    }
    for h in 0..2 {
        history.push(open(h))?;
    }
    Ok(())
}

fn put_datagram(alloc: Global, history: &mut History) -> Result<(), AllocError> {
    put_connections(history)?;
    put_talk(alloc, history)
}

const DATAGRAM: &str = "0 0 0 dir.0.udp - reserve = slot 0 1\n\
1 0 1 dir.1.udp - reserve = slot 0 1\n\
2 0 0 conv.0.udp.0 0 begin 1 = ok\n\
3 0 1 conv.1.udp.0 1 begin 1 = ok\n\
4 0 0 dir.0.udp - grant 0 1 135.104.9.31!7 5000 = granted 135.104.9.6!5000 135.104.9.31!7 0 1472\n\
5 0 1 dir.1.udp - grant 0 1 135.104.9.6!5000 7 = granted 135.104.9.31!7 135.104.9.6!5000 0 1472\n\
6 0 0 conv.0.udp.0 4 connect 1 = ok\n\
7 0 1 conv.1.udp.0 5 connect 1 = ok\n\
8 0 0 conv.0.udp.0 - await 1 = ok\n\
9 0 1 conv.1.udp.0 - await 1 = ok\n\
10 0 0 conv.0.udp.0 - open data rw = opened 1\n\
11 0 1 conv.1.udp.0 - open data rw = opened 1\n\
12 0 0 conv.0.udp.0 - write 1 6869 = count 2 + udp 135.104.9.6!5000 135.104.9.31!7 255 0 2\n\
13 0 0 medium.0 12 put 1 = laid 1\n\
14 0 2 medium.0 - take = copy 1\n\
15 0 2 dir.1.udp 14 arrive = to 0 1\n\
16 0 2 conv.1.udp.0 15 arrive 1 = took\n\
17 0 1 conv.1.udp.0 - read 1 8192 = bytes 6869\n";

fn last_tick() -> Entry {
    let actor = ActorName::Conv(0, Proto::Il, 31);
    let event = Event::Tick { generation: 3 };
    let mut last = entry(actor, 9, Some(7), event, Reply::Ticked);
    last.moment = 30010;
    last.ended = true;
    last.emits = Some(Header {
        src: addr(1),
        dst: addr(0),
        ttl: 255,
        tos: 16,
        body: BodyHeader::Il {
            kind: IlKind::Close,
            spec: 1,
            id: 4294967295,
            ack: 101,
            length: 0,
        },
    });
    last
}

const LAST_TICK: &str =
    "0 30010 9 conv.0.il.31 7 tick 3 = ticked + il 135.104.9.31!7 135.104.9.6!5000 255 16 close 1 4294967295 101 0 ended\n";

/// Adds an event and a reply at the clock.
fn put(history: &mut History, event: Event, reply: Reply) -> Result<(), AllocError> {
    history.push(entry(ActorName::Clock, 0, None, event, reply))
}

fn put_three_names(alloc: Global, names: &mut Lines) -> Result<(), AllocError> {
    names.push(text(alloc, b"cs")?)?;
    names.push(text(alloc, b"")?)?;
    names.push(text(alloc, b"udp")?)
}

/// Lists the root with these names.
fn put_named(alloc: Global, history: &mut History, names: Lines) -> Result<(), AllocError> {
    let path = text(alloc, b"/net")?;
    put(history, Event::LsPath { path }, Reply::Names { names })
}

fn put_listed(alloc: Global, history: &mut History) -> Result<(), AllocError> {
    let mut names = Lines::new(alloc);
    put_three_names(alloc, &mut names)?;
    put_named(alloc, history, names)
}

fn put_slots(calls: &mut CallList, slots: &[u32], generation: u64) -> Result<(), AllocError> {
    for slot in slots {
        calls.push(Call {
            slot: *slot,
            generation,
        })?;
    }
    Ok(())
}

fn called(alloc: Global, slots: &[u32], generation: u64) -> Result<CallList, AllocError> {
    let mut calls = CallList::new(alloc);
    put_slots(&mut calls, slots, generation)?;
    Ok(calls)
}

const LISTS: &str = "0 0 0 clock - cs - = lines -\n\
1 0 0 clock - ls 2f6e6574 = names 63730a0a7564700a\n\
2 0 0 clock - take = calls -\n\
3 0 0 clock - ls = calls 3 2 31 2\n";

fn put_lists(alloc: Global, history: &mut History) -> Result<(), AllocError> {
    let lines = Lines::new(alloc);
    let query = Octets::new(alloc);
    put(history, Event::Cs { query }, Reply::Lines { lines })?;
    put_listed(alloc, history)?;
    let calls = CallList::new(alloc);
    put(history, Event::Take, Reply::Calls { calls })?;
    let calls = called(alloc, &[3, 31], 2)?;
    put(history, Event::Ls, Reply::Calls { calls })
}

const ANNOUNCEMENTS: &str = "0 0 0 clock - announce 2 5 * * = taken 3\n\
1 0 0 clock - announce 2 5 135.104.9.6 17008 = wrong Announced\n\
2 0 0 clock - put - = nostation\n\
3 0 0 clock - await 1 = hungup 2\n";

fn announces(ip: Option<u32>, port: Option<u16>) -> Event {
    Event::Announce {
        slot: 2,
        generation: 5,
        ip,
        port,
    }
}

fn put_announcements(history: &mut History) -> Result<(), AllocError> {
    put(history, announces(None, None), Reply::PortTaken { slot: 3 })?;
    let state = StateName::Announced;
    put(
        history,
        announces(Some(ANNA), Some(17008)),
        Reply::WrongState { state },
    )?;
    put(history, Event::Put { to: None }, Reply::NoStation)?;
    let cause = Cause::TimedOut;
    put(
        history,
        Event::Await { generation: 1 },
        Reply::Hungup { cause },
    )
}

const NAMES: &str = "0 0 0 clock - use d-1 = badfid\n\
1 0 0 clock - misuse = = badmode\n\
2 0 0 clock - open 2f6e65742f746370 w = nofile\n\
3 0 0 clock - file 1 status 65536 = bytes 4f70656e0a\n";

fn put_names(alloc: Global, history: &mut History) -> Result<(), AllocError> {
    let name = text(alloc, b"d-1")?;
    put(history, Event::Use { name }, Reply::BadFid)?;
    let name = text(alloc, b"=")?;
    put(history, Event::Misuse { name }, Reply::BadMode)?;
    let path = text(alloc, b"/net/tcp")?;
    let mode = Mode::Write;
    put(history, Event::OpenPath { path, mode }, Reply::NoFile)?;
    let bytes = text(alloc, b"Open\n")?;
    put(history, reads_status(1, 65536), Reply::Bytes { bytes })
}

fn reads_status(generation: u64, count: u32) -> Event {
    Event::File {
        generation,
        file: FileName::Status,
        count,
    }
}

const DIRECTORY: &str = "0 0 0 clock - reserve = noslot\n\
1 0 0 clock - grant 4 2 135.104.9.6!5000 - = noroute\n\
2 0 0 clock - grant 4 2 135.104.9.6!5000 - = noport\n\
3 0 0 clock - grant 4 2 135.104.9.6!5000 5000 = selfpair\n\
4 0 0 clock - grant 4 2 135.104.9.6!5000 7 = pairused 12\n\
5 0 0 clock - bind 4 2 53 = ok\n";

fn put_directory(history: &mut History) -> Result<(), AllocError> {
    put(history, Event::Reserve, Reply::NoSlot)?;
    put(history, asks(None), Reply::NoRoute)?;
    put(history, asks(None), Reply::NoPort)?;
    put(history, asks(Some(5000)), Reply::SelfPair)?;
    put(history, asks(Some(7)), Reply::PairUsed { k: 12 })?;
    let bind = Event::Bind {
        slot: 4,
        generation: 2,
        port: 53,
    };
    put(history, bind, Reply::Ok)
}

fn asks(lport: Option<u16>) -> Event {
    Event::Grant {
        slot: 4,
        generation: 2,
        remote: addr(0),
        lport,
    }
}

const CALLS: &str = "0 0 0 clock - listen 4 = call 5 1\n\
1 0 0 clock - withdraw 4 2 = calls 5 1\n\
2 0 0 clock - release 4 2 = calls -\n\
3 0 0 clock - arrive = born 5 1 4294967295 8192\n\
4 0 0 clock - arrive = refused\n\
5 0 0 clock - arrive = dropped\n";

fn put_calls(alloc: Global, history: &mut History) -> Result<(), AllocError> {
    let call = Reply::Call {
        slot: 5,
        generation: 1,
    };
    put(history, Event::Listen { slot: 4 }, call)?;
    put_left_calls(alloc, history)?;
    put(history, Event::Arrive, born())?;
    put(history, Event::Arrive, Reply::Refused)?;
    put(history, Event::Arrive, Reply::Dropped)
}

fn put_left_calls(alloc: Global, history: &mut History) -> Result<(), AllocError> {
    let calls = called(alloc, &[5], 1)?;
    let withdraw = Event::Withdraw {
        slot: 4,
        generation: 2,
    };
    put(history, withdraw, Reply::Calls { calls })?;
    let calls = CallList::new(alloc);
    let release = Event::Release {
        slot: 4,
        generation: 2,
    };
    put(history, release, Reply::Calls { calls })
}

fn born() -> Reply {
    Reply::Born {
        slot: 5,
        generation: 1,
        start: 4294967295,
        limit: 8192,
    }
}

const BEGINNING: &str = "0 0 0 clock - born 18446744073709551615 = ok\n\
1 0 0 clock - claim 2 = stale\n\
2 0 0 clock - announced 2 = ok\n\
3 0 0 clock - bound 2 = ok\n\
4 0 0 clock - open err r = notopen\n\
5 0 0 clock - arrive 2 = full\n\
6 0 0 clock - tick 2 = notdue\n";

fn put_beginning(history: &mut History) -> Result<(), AllocError> {
    let generation = 18446744073709551615;
    put(history, Event::Born { generation }, Reply::Ok)?;
    let generation = 2;
    put(history, Event::Claim { generation }, Reply::Stale)?;
    put(history, Event::Announced { generation }, Reply::Ok)?;
    put(history, Event::Bound { generation }, Reply::Ok)?;
    let open = Event::Open {
        file: FileName::Err,
        mode: Mode::Read,
    };
    put(history, open, Reply::NotOpen)?;
    put(history, Event::ArriveAt { generation }, Reply::Full)?;
    put(history, Event::Tick { generation }, Reply::NotDue)
}

const REFUSALS: &str = "0 0 0 clock - write 2 - = zerowrite\n\
1 0 0 clock - write 2 00ff = toolong 2 1\n\
2 0 0 clock - ctl 2 676f0a = badctl 1\n\
3 0 0 clock - hangup 2 = left\n\
4 0 0 clock - close 2 = ok\n";

fn put_refusals(alloc: Global, history: &mut History) -> Result<(), AllocError> {
    let generation = 2;
    put(history, writes(2, Octets::new(alloc)), Reply::ZeroWrite)?;
    put(history, writes(2, text(alloc, b"\x00\xff")?), too_long())?;
    let text = text(alloc, b"go\n")?;
    put(
        history,
        Event::Ctl { generation, text },
        Reply::BadCtl { number: 1 },
    )?;
    put(history, Event::Hangup { generation }, Reply::Left)?;
    put(history, Event::Close { generation }, Reply::Ok)
}

fn writes(generation: u64, text: Octets) -> Event {
    Event::Write { generation, text }
}

fn too_long() -> Reply {
    Reply::TooLong {
        length: 2,
        limit: 1,
    }
}

const NUMBERS: &str = "0 0 0 clock - cs 696c21 = csrefused 3\n\
1 0 0 clock - ttl 2 64 = ok\n\
2 0 0 clock - tos 2 16 = ok\n\
3 0 0 clock - put 7 = toobig\n\
4 0 0 clock - until 10 = ok\n\
5 0 0 clock - refresh = version 3\n\
6 0 0 clock - move 60000 = ok\n";

fn put_numbers(alloc: Global, history: &mut History) -> Result<(), AllocError> {
    let query = text(alloc, b"il!")?;
    put(history, Event::Cs { query }, Reply::CsRefused { number: 3 })?;
    let ttl = Event::Ttl {
        generation: 2,
        n: 64,
    };
    put(history, ttl, Reply::Ok)?;
    let tos = Event::Tos {
        generation: 2,
        n: 16,
    };
    put(history, tos, Reply::Ok)?;
    put(history, Event::Put { to: Some(7) }, Reply::TooBig)?;
    put(history, Event::Until { moment: 10 }, Reply::Ok)?;
    put(history, Event::Refresh, Reply::Version { version: 3 })?;
    put(history, Event::Move { moment: 60000 }, Reply::Ok)
}

fn has_summary(
    alloc: Global,
    world: &World,
    history: &History,
    status: RunStatus,
    lines: &str,
) -> Result<bool, AllocError> {
    let summary = summary_by(alloc, world, history, status)?;
    let same = summary.as_slice() == lines.as_bytes();
    drop(summary);
    Ok(same)
}

/// Whether a history behind the scripts of the worked world has this summary.
fn is_summed(
    alloc: Global,
    history: &History,
    status: RunStatus,
    lines: &str,
) -> Result<bool, AllocError> {
    let Ok(world) = read_world(alloc, WORLD) else {
        return Ok(false);
    };
    let summed = has_summary(alloc, &world, history, status, lines);
    drop(world);
    summed
}

const DONE: &str = "steps 8 of 8\nmessages 1 1\nbytes 2 2\nend done 0\n";

fn datagram_is_summed(alloc: Global) -> Result<bool, AllocError> {
    let status = RunStatus {
        answered: 8,
        end: Some(RunEnd::Done),
    };
    let mut history = History::new(alloc);
    let put = put_datagram(alloc, &mut history);
    let summed = is_summed(alloc, &history, status, DONE);
    drop(history);
    put?;
    summed
}

#[test]
fn a_datagram_is_summed(rt: HostRuntime) {
    assert!(rt; datagram_is_summed(rt.alloc()) == Ok(true));
}

/// Adds what counts as no message: a write that is refused, a read of nothing, a read of another file.
fn put_no_messages(alloc: Global, history: &mut History) -> Result<(), AllocError> {
    let hi = text(alloc, b"hi")?;
    history.push(entry(conv(0), 0, None, writes(1, hi), too_long()))?;
    history.push(read(Octets::new(alloc)))?;
    let bytes = text(alloc, b"Open\n")?;
    let status = reads_status(1, 8192);
    history.push(entry(conv(1), 1, None, status, Reply::Bytes { bytes }))
}

fn put_moves(history: &mut History) -> Result<(), AllocError> {
    for moment in [10, 60000] {
        let event = Event::Move { moment };
        history.push(entry(ActorName::Clock, 3, None, event, Reply::Ok))?;
    }
    Ok(())
}

fn put_stops(alloc: Global, history: &mut History) -> Result<(), AllocError> {
    put_no_messages(alloc, history)?;
    put_moves(history)
}

const STOPPED: &str = "steps 3 of 8\nmessages 0 0\nbytes 0 0\nend stopped 60000\n";

fn refusals_are_summed(alloc: Global) -> Result<bool, AllocError> {
    let status = RunStatus {
        answered: 3,
        end: Some(RunEnd::Stopped),
    };
    let mut history = History::new(alloc);
    let put = put_stops(alloc, &mut history);
    let summed = is_summed(alloc, &history, status, STOPPED);
    drop(history);
    put?;
    summed
}

#[test]
fn refusals_are_no_messages(rt: HostRuntime) {
    assert!(rt; refusals_are_summed(rt.alloc()) == Ok(true));
}
