//! What is written, read and comes.
use super::rows::{Came, Deed, NOTHING, Row, SYNC, Sent, Told, plays, run};
use conversation::Conv;
use net_base::{Cause, FileName, IlKind, Proto, StateName, Timers};
use std::alloc::{AllocError, Global};
use std::process::Abort;
use std::test::*;

const IL_CONNECTS: &[Row] = &[
    (0, Deed::Begin(1), Told::Ok, NOTHING, false),
    (0, Deed::Connect(1, 0, 8192), Told::Waits, NOTHING, false),
    (0, Deed::Connect(1, 100, 8193), Told::Waits, NOTHING, false),
    (
        0,
        Deed::Connect(1, 100, 8192),
        Told::Ok,
        Sent::Il(IlKind::Sync, 100, 0, 255),
        false,
    ),
    (0, Deed::Connect(1, 200, 9), Told::Ok, NOTHING, false),
    (0, Deed::Announced(1), Told::Ok, NOTHING, false),
    (0, Deed::Bound(1, 1), Told::Ok, NOTHING, false),
    (0, Deed::Await(1), Told::Waits, NOTHING, false),
    (0, Deed::Read(1, 1), Told::Waits, NOTHING, false),
    (0, Deed::Write(1, 1), Told::Waits, NOTHING, false),
    (
        0,
        Deed::Arrive(1, Came::Udp(b"hi")),
        Told::Waits,
        NOTHING,
        false,
    ),
    (
        0,
        Deed::Arrive(1, SYNC),
        Told::Took,
        Sent::Il(IlKind::Ack, 100, 500, 255),
        false,
    ),
    (0, Deed::Await(1), Told::Ok, NOTHING, false),
    (0, Deed::Ttl(1, 9), Told::Ok, NOTHING, false),
    (
        0,
        Deed::Write(1, 1),
        Told::Count(1),
        Sent::Il(IlKind::Data, 101, 500, 9),
        false,
    ),
];

const HELLO: Came = Came::Il(IlKind::Data, 501, 101, b"hello");

const IL_TALKS: &[Row] = &[
    (0, Deed::Tos(1, 4), Told::Ok, NOTHING, false),
    (0, Deed::Ctl(1, b"hang up"), Told::BadCtl(1), NOTHING, false),
    (0, Deed::Ctl(1, b"ttl 256"), Told::BadCtl(2), NOTHING, false),
    (0, Deed::Ctl(1, b"ttl 255"), Told::Waits, NOTHING, false),
    (
        0,
        Deed::Arrive(1, HELLO),
        Told::Took,
        Sent::Il(IlKind::Ack, 101, 501, 9),
        false,
    ),
    (0, Deed::Read(1, 0), Told::Waits, NOTHING, false),
    (0, Deed::Read(1, 2), Told::Bytes(b"he"), NOTHING, false),
    (0, Deed::Read(1, 8192), Told::Bytes(b"llo"), NOTHING, false),
    (0, Deed::Read(1, 1), Told::Waits, NOTHING, false),
    (0, Deed::Tick(1), Told::NotDue, NOTHING, false),
    (0, Deed::Open, Told::Opened(1), NOTHING, false),
    (0, Deed::Ls, Told::Names(7), NOTHING, false),
    (
        0,
        Deed::File(1, FileName::Local, 99),
        Told::Bytes(b"135.104.9.6!5000\n"),
        NOTHING,
        false,
    ),
    (
        0,
        Deed::File(1, FileName::Remote, 99),
        Told::Bytes(b"135.104.9.31!17008\n"),
        NOTHING,
        false,
    ),
    (
        0,
        Deed::File(1, FileName::Status, 99),
        Told::Bytes(b"Established\n"),
        NOTHING,
        false,
    ),
];

const CLOSE: Came = Came::Il(IlKind::Close, 501, 101, b"");

const IL_CLOSES: &[Row] = &[
    (0, Deed::Close(1), Told::Ok, NOTHING, false),
    (
        0,
        Deed::Close(1),
        Told::Ok,
        Sent::Il(IlKind::Close, 101, 501, 9),
        false,
    ),
    (0, Deed::Close(1), Told::Ok, NOTHING, false),
    (0, Deed::Open, Told::NotOpen, NOTHING, false),
    (499, Deed::Tick(1), Told::NotDue, NOTHING, false),
    (
        500,
        Deed::Tick(1),
        Told::Ticked,
        Sent::Il(IlKind::Close, 101, 501, 9),
        false,
    ),
    (
        500,
        Deed::Write(1, 1),
        Told::Hungup(Cause::Hungup),
        NOTHING,
        false,
    ),
    (500, Deed::Await(1), Told::Ok, NOTHING, false),
    (500, Deed::Read(1, 1), Told::Waits, NOTHING, false),
    (500, Deed::Arrive(1, CLOSE), Told::Took, NOTHING, true),
    (500, Deed::Arrive(1, CLOSE), Told::Took, NOTHING, false),
    (
        500,
        Deed::Await(1),
        Told::Hungup(Cause::Hungup),
        NOTHING,
        false,
    ),
    (
        500,
        Deed::Read(1, 1),
        Told::Hungup(Cause::Hungup),
        NOTHING,
        false,
    ),
    (
        500,
        Deed::File(1, FileName::Err, 99),
        Told::Bytes(b"hungup\n"),
        NOTHING,
        false,
    ),
    (500, Deed::Hangup(1), Told::Ok, NOTHING, false),
];

#[test]
fn an_il_conversation_is_connected(rt: HostRuntime) -> Result<(), AllocError> {
    plays(
        &rt,
        rt.alloc(),
        Proto::Il,
        3,
        &[IL_CONNECTS, IL_TALKS, IL_CLOSES],
    )
}

const UDP_CONNECTS: &[Row] = &[
    (0, Deed::Begin(1), Told::Ok, NOTHING, false),
    (
        0,
        Deed::Arrive(1, Came::Udp(b"x")),
        Told::Took,
        NOTHING,
        false,
    ),
    (
        0,
        Deed::Read(1, 1),
        Told::Wrong(StateName::Closed),
        NOTHING,
        false,
    ),
    (0, Deed::Connect(1, 0, 8193), Told::Waits, NOTHING, false),
    (0, Deed::Connect(1, 0, 8192), Told::Ok, NOTHING, false),
    (
        0,
        Deed::File(1, FileName::Status, 99),
        Told::Bytes(b"Open\n"),
        NOTHING,
        false,
    ),
    (0, Deed::Await(1), Told::Ok, NOTHING, false),
    (0, Deed::Read(1, 9), Told::Bytes(b"x"), NOTHING, false),
    (0, Deed::Read(1, 9), Told::Waits, NOTHING, false),
    (0, Deed::Write(1, 0), Told::ZeroWrite, NOTHING, false),
    (
        0,
        Deed::Write(1, 8193),
        Told::TooLong(8193, 8192),
        NOTHING,
        false,
    ),
    (
        0,
        Deed::Write(1, 2),
        Told::Count(2),
        Sent::Udp(2, 255),
        false,
    ),
    (0, Deed::Ttl(1, 3), Told::Ok, NOTHING, false),
    (0, Deed::Write(1, 1), Told::Count(1), Sent::Udp(1, 3), false),
    (0, Deed::Due, Told::Due(None), NOTHING, false),
];

const UDP_TALKS: &[Row] = &[
    (
        0,
        Deed::Arrive(1, Came::Udp(b"hi")),
        Told::Took,
        NOTHING,
        false,
    ),
    (0, Deed::Arrive(1, SYNC), Told::Waits, NOTHING, false),
    (0, Deed::Tick(1), Told::NotDue, NOTHING, false),
    (0, Deed::Hangup(1), Told::Ok, NOTHING, false),
    (
        0,
        Deed::File(1, FileName::Err, 99),
        Told::Bytes(b"hungup\n"),
        NOTHING,
        false,
    ),
    (
        0,
        Deed::Arrive(1, Came::Udp(b"hi")),
        Told::Full,
        NOTHING,
        false,
    ),
    (0, Deed::Read(1, 1), Told::Bytes(b"h"), NOTHING, false),
    (
        0,
        Deed::Read(1, 1),
        Told::Hungup(Cause::Hungup),
        NOTHING,
        false,
    ),
    (
        0,
        Deed::Write(1, 1),
        Told::Hungup(Cause::Hungup),
        NOTHING,
        false,
    ),
    (
        0,
        Deed::Await(1),
        Told::Hungup(Cause::Hungup),
        NOTHING,
        false,
    ),
    (0, Deed::Close(1), Told::Ok, NOTHING, true),
];

#[test]
fn a_udp_conversation_is_connected(rt: HostRuntime) -> Result<(), AllocError> {
    plays(&rt, rt.alloc(), Proto::Udp, 0, &[UDP_CONNECTS, UDP_TALKS])
}

const UDP_OPEN: &[Row] = &[
    (0, Deed::Begin(1), Told::Ok, NOTHING, false),
    (0, Deed::Connect(1, 0, 8192), Told::Ok, NOTHING, false),
];

const HI: Deed = Deed::Arrive(1, Came::Udp(b"hi"));

const TAKEN: &[Row] = &[(0, HI, Told::Took, NOTHING, false)];

const ONE_TOO_MANY: &[Row] = &[(0, HI, Told::Full, NOTHING, false)];

fn fill(rt: &impl Abort, alloc: Global, conv: &mut Conv) -> Result<(), AllocError> {
    run(rt, alloc, conv, UDP_OPEN)?;
    for _ in 0..64 {
        run(rt, alloc, conv, TAKEN)?;
    }
    run(rt, alloc, conv, ONE_TOO_MANY)
}

fn fill_one(rt: &impl Abort, alloc: Global) -> Result<(), AllocError> {
    let mut conv = Conv::new(alloc, 0, Proto::Udp, 0, Timers::Fixed)?;
    let played = fill(rt, alloc, &mut conv);
    drop(conv);
    played
}

#[test]
fn sixty_four_datagrams_wait(rt: HostRuntime) -> Result<(), AllocError> {
    fill_one(&rt, rt.alloc())
}
