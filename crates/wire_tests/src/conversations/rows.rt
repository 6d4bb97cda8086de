//! Tables of calls: what happens at a conversation, what it replies and emits.
ghost use Rattle.std.specs.Prelude.{IsTrue, ◌<◌};
ghost use Rattle.conversation.specs.Stands.{IsSeatReady};

use conversation::Conv;
use net_base::{
    Addr, Body, Cause, Event, FileName, IlKind, IlMsg, Mode, Octets, Outcome, Packet, Pair, Proto,
    Reply, StateName, Timers, With, Work,
};
use std::alloc::{AllocError, Global};
use std::process::Abort;
use std::test::*;

const ANNA: Addr = Addr {
    ip: 0x8768_0906,
    port: 5000,
};

const HELIX: Addr = Addr {
    ip: 0x8768_091f,
    port: 17008,
};

/// An event at a conversation, by its generation.
#[derive(Clone, Copy)]
pub enum Deed {
    Begin(u64),
    Born(u64, Came, u32),
    Claim(u64),
    Connect(u64, u32, u32),
    Announced(u64),
    Bound(u64, u16),
    Await(u64),
    Open,
    Ls,
    File(u64, FileName, u32),
    Read(u64, u32),
    Write(u64, usize),
    Hangup(u64),
    Ttl(u64, u8),
    Tos(u64, u8),
    Ctl(u64, &'static [u8]),
    Close(u64),
    Arrive(u64, Came),
    Tick(u64),
    Reserve,
    /// What is due is asked for.
    Due,
    Generation,
}

/// A packet that comes.
#[derive(Clone, Copy)]
pub enum Came {
    Il(IlKind, u32, u32, &'static [u8]),
    Udp(&'static [u8]),
}

/// What is replied.
#[derive(Clone, Copy)]
pub enum Told {
    Waits,
    Ok,
    Stale,
    Hungup(Cause),
    Opened(u64),
    NotOpen,
    Names(usize),
    Bytes(&'static [u8]),
    Wrong(StateName),
    Count(u32),
    ZeroWrite,
    TooLong(u64, u32),
    Left,
    BadCtl(u32),
    Took,
    Full,
    Ticked,
    NotDue,
    Due(Option<u64>),
    Generation(u64),
}

/// What is emitted: the kind, id and ack of an IL message, or the length of a datagram, and the ttl.
#[derive(Clone, Copy, PartialEq, Eq)]
pub enum Sent {
    Nothing,
    Il(IlKind, u32, u32, u8),
    Udp(usize, u8),
}

/// A moment, an event, its reply, what is emitted, and whether the conversation ended.
pub type Row = (u64, Deed, Told, Sent, bool);

fn packet_of(alloc: Global, came: Came) -> Result<Packet, AllocError> {
    let body = match came {
        Came::Il(kind, id, ack, text) => Body::Il(IlMsg {
            kind,
            spec: 0,
            id,
            ack,
            text: Octets::from_slice(alloc, text)?,
        }),
        Came::Udp(text) => Body::Udp(Octets::from_slice(alloc, text)?),
    };
    Ok(Packet {
        src: HELIX,
        dst: ANNA,
        ttl: 255,
        tos: 0,
        body,
    })
}

fn with_of(alloc: Global, deed: Deed) -> Result<With, AllocError> {
    match deed {
        Deed::Born(_, came, limit) => Ok(With::Birth {
            packet: packet_of(alloc, came)?,
            start: 100,
            limit,
        }),
        Deed::Connect(_, start, limit) => Ok(With::Grant {
            pair: Pair {
                local: ANNA,
                remote: HELIX,
            },
            start,
            limit,
        }),
        Deed::Announced(_) => Ok(With::Key { ip: 0, port: 7 }),
        Deed::Bound(_, port) => Ok(With::Key { ip: 0, port }),
        Deed::Arrive(_, came) => Ok(With::Packet(packet_of(alloc, came)?)),
        _ => Ok(With::Nothing),
    }
}

fn zeros(alloc: Global, length: usize) -> Result<Octets, AllocError> {
    let mut text = Octets::new(alloc);
    for _ in 0..length {
        text.push(0)?;
    }
    Ok(text)
}

fn event_of(alloc: Global, deed: Deed) -> Result<Event, AllocError> {
    Ok(match deed {
        Deed::Begin(generation) => Event::Begin { generation },
        Deed::Born(generation, _, _) => Event::Born { generation },
        Deed::Claim(generation) => Event::Claim { generation },
        Deed::Connect(generation, _, _) => Event::Connect { generation },
        Deed::Announced(generation) => Event::Announced { generation },
        Deed::Bound(generation, _) => Event::Bound { generation },
        Deed::Await(generation) => Event::Await { generation },
        Deed::Open => Event::Open {
            file: FileName::Data,
            mode: Mode::Both,
        },
        Deed::Ls => Event::Ls,
        Deed::File(generation, file, count) => Event::File {
            generation,
            file,
            count,
        },
        Deed::Read(generation, count) => Event::Read { generation, count },
        Deed::Write(generation, length) => Event::Write {
            generation,
            text: zeros(alloc, length)?,
        },
        Deed::Hangup(generation) => Event::Hangup { generation },
        Deed::Ttl(generation, n) => Event::Ttl { generation, n },
        Deed::Tos(generation, n) => Event::Tos { generation, n },
        Deed::Ctl(generation, text) => Event::Ctl {
            generation,
            text: Octets::from_slice(alloc, text)?,
        },
        Deed::Close(generation) => Event::Close { generation },
        Deed::Arrive(generation, _) => Event::ArriveAt { generation },
        Deed::Tick(generation) => Event::Tick { generation },
        Deed::Reserve | Deed::Due | Deed::Generation => Event::Reserve,
    })
}

// Whether a reply is what the table says.
fn is_told(reply: &Reply, told: Told) -> bool {
    match (reply, told) {
        (Reply::Ok, Told::Ok)
        | (Reply::Stale, Told::Stale)
        | (Reply::NotOpen, Told::NotOpen)
        | (Reply::ZeroWrite, Told::ZeroWrite)
        | (Reply::Left, Told::Left)
        | (Reply::Took, Told::Took)
        | (Reply::Full, Told::Full)
        | (Reply::Ticked, Told::Ticked)
        | (Reply::NotDue, Told::NotDue) => true,
        (Reply::Hungup { cause }, Told::Hungup(other)) => *cause == other,
        (Reply::Opened { generation }, Told::Opened(other)) => *generation == other,
        (Reply::Names { names }, Told::Names(count)) => names.len() == count,
        (Reply::Bytes { bytes }, Told::Bytes(other)) => bytes.as_slice() == other,
        (Reply::WrongState { state }, Told::Wrong(other)) => *state == other,
        (Reply::Count { count }, Told::Count(other)) => *count == other,
        (Reply::TooLong { length, limit }, Told::TooLong(other, most)) => {
            *length == other && *limit == most
        }
        (Reply::BadCtl { number }, Told::BadCtl(other)) => *number == other,
        _ => false,
    }
}

fn sent_in(emit: &Option<Packet>) -> Sent {
    match emit {
        None => Sent::Nothing,
        Some(packet) => match &packet.body {
            Body::Il(message) => Sent::Il(message.kind, message.id, message.ack, packet.ttl),
            Body::Udp(text) => Sent::Udp(text.len(), packet.ttl),
        },
    }
}

// Whether a work is ready, as `ready` tells it.
#[tactic(auto, unfolding(conversation::specs::Stands::StandsFor))]
fn is_ready(conv: &Conv, now: u64, work: &Work) -> bool
    ensures { IsTrue result → IsSeatReady conv.now now work.now }
{
    let _ = now;
    conv.ready(work)
}

// Whether an outcome is what the row says.
fn is_so(outcome: &Outcome, row: &Row) -> bool {
    let (_, _, told, sends, ends) = *row;
    (sent_in(&outcome.emit), outcome.ended) == (sends, ends) && is_told(&outcome.reply, told)
}

// Whether a work waits, or comes to an outcome, as the row says.
fn comes_so(conv: &mut Conv, work: &Work, row: &Row) -> Result<bool, AllocError> {
    let (now, _, told, _, _) = *row;
    if now >= 1 << 62 || !conv.is_short() {
        return Ok(false);
    }
    if !is_ready(conv, now, work) {
        return Ok(matches!(told, Told::Waits));
    }
    let outcome = conv.step(now, work)?;
    let so = is_so(&outcome, row);
    drop(outcome);
    Ok(so)
}

fn work_of(alloc: Global, deed: Deed) -> Result<Work, AllocError> {
    let with = with_of(alloc, deed)?;
    match event_of(alloc, deed) {
        Ok(event) => Ok(Work { event, with }),
        Err(error) => {
            drop(with);
            Err(error)
        }
    }
}

// Makes the call of a row. The answer is whether it comes to what the row says.
fn is_met(alloc: Global, conv: &mut Conv, row: &Row) -> Result<bool, AllocError> {
    let work = work_of(alloc, row.1)?;
    let met = comes_so(conv, &work, row);
    drop(work);
    met
}

fn is_due(conv: &Conv, told: Told) -> bool {
    match told {
        Told::Due(due) => conv.due() == due,
        _ => false,
    }
}

fn is_of_generation(conv: &Conv, told: Told) -> bool {
    match told {
        Told::Generation(generation) => conv.generation() == generation,
        _ => false,
    }
}

/// Makes the calls of a table, and compares what they come to.
pub fn run(
    rt: &impl Abort,
    alloc: Global,
    conv: &mut Conv,
    rows: &[Row],
) -> Result<(), AllocError> {
    for (i, row) in rows.iter().enumerate() {
        let met = match row.1 {
            Deed::Due => is_due(conv, row.2),
            Deed::Generation => is_of_generation(conv, row.2),
            _ => is_met(alloc, conv, row)?,
        };
        assert!(rt; met, "row {i}");
    }
    Ok(())
}

fn run_all(
    rt: &impl Abort,
    alloc: Global,
    conv: &mut Conv,
    tables: &[&[Row]],
) -> Result<(), AllocError> {
    for rows in tables {
        run(rt, alloc, conv, rows)?;
    }
    Ok(())
}

/// Plays tables, one after another, at a fresh conversation.
pub fn plays(
    rt: &impl Abort,
    alloc: Global,
    proto: Proto,
    slot: u32,
    tables: &[&[Row]],
) -> Result<(), AllocError> {
    let mut conv = Conv::new(alloc, 0, proto, slot, Timers::Fixed)?;
    let played = run_all(rt, alloc, &mut conv, tables);
    drop(conv);
    played
}

pub const SYNC: Came = Came::Il(IlKind::Sync, 500, 100, b"");

pub const NOTHING: Sent = Sent::Nothing;

/// A conversation of IL in slot 3 that is connected with a limit of 8,192 bytes.
pub const CONNECTING: &[Row] = &[
    (0, Deed::Begin(1), Told::Ok, NOTHING, false),
    (
        0,
        Deed::Connect(1, 100, 8192),
        Told::Ok,
        Sent::Il(IlKind::Sync, 100, 0, 255),
        false,
    ),
    (
        0,
        Deed::Arrive(1, SYNC),
        Told::Took,
        Sent::Il(IlKind::Ack, 100, 500, 255),
        false,
    ),
];

/// With one of 538.
pub const CONNECTING_538: &[Row] = &[
    (0, Deed::Begin(1), Told::Ok, NOTHING, false),
    (
        0,
        Deed::Connect(1, 100, 538),
        Told::Ok,
        Sent::Il(IlKind::Sync, 100, 0, 255),
        false,
    ),
    (
        0,
        Deed::Arrive(1, SYNC),
        Told::Took,
        Sent::Il(IlKind::Ack, 100, 500, 255),
        false,
    ),
];
