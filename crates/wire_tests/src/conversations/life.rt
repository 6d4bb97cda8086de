//! How conversations begin, listen, are born and end.
use super::rows::{CONNECTING, Came, Deed, NOTHING, Row, SYNC, Sent, Told, plays};
use net_base::{Cause, FileName, IlKind, Proto, StateName};
use std::alloc::AllocError;
use std::test::*;

const SECOND_LIFE: &[Row] = &[
    (0, Deed::Ttl(1, 9), Told::Ok, NOTHING, false),
    (
        0,
        Deed::Hangup(1),
        Told::Ok,
        Sent::Il(IlKind::Close, 100, 500, 9),
        false,
    ),
    (0, Deed::Begin(2), Told::Ok, NOTHING, false),
    (0, Deed::Begin(1), Told::Stale, NOTHING, false),
    (0, Deed::Born(1, SYNC, 8192), Told::Stale, NOTHING, false),
    (0, Deed::Claim(1), Told::Stale, NOTHING, false),
    (0, Deed::Connect(1, 100, 8192), Told::Stale, NOTHING, false),
    (0, Deed::Announced(1), Told::Stale, NOTHING, false),
    (0, Deed::Bound(1, 9), Told::Stale, NOTHING, false),
    (0, Deed::Await(1), Told::Stale, NOTHING, false),
    (
        0,
        Deed::File(1, FileName::Err, 9),
        Told::Stale,
        NOTHING,
        false,
    ),
    (0, Deed::Read(1, 1), Told::Stale, NOTHING, false),
    (0, Deed::Write(1, 1), Told::Stale, NOTHING, false),
    (0, Deed::Hangup(1), Told::Stale, NOTHING, false),
];

const STALE: &[Row] = &[
    (0, Deed::Ttl(1, 9), Told::Stale, NOTHING, false),
    (0, Deed::Tos(1, 9), Told::Stale, NOTHING, false),
    (0, Deed::Ctl(1, b"ttl 0"), Told::Stale, NOTHING, false),
    (0, Deed::Ctl(1, b"ttl 255"), Told::Stale, NOTHING, false),
    (0, Deed::Ctl(2, b"ttl 255"), Told::Waits, NOTHING, false),
    (0, Deed::Ctl(3, b"ttl 0"), Told::Waits, NOTHING, false),
    (0, Deed::Close(1), Told::Stale, NOTHING, false),
    (0, Deed::Arrive(1, SYNC), Told::Stale, NOTHING, false),
    (0, Deed::Tick(1), Told::Stale, NOTHING, false),
    (0, Deed::Read(1, 0), Told::Waits, NOTHING, false),
    (0, Deed::Claim(3), Told::Waits, NOTHING, false),
    (0, Deed::Read(3, 1), Told::Waits, NOTHING, false),
    (0, Deed::Close(3), Told::Waits, NOTHING, false),
    (
        0,
        Deed::File(2, FileName::Status, 99),
        Told::Bytes(b"Closed\n"),
        NOTHING,
        false,
    ),
    (
        0,
        Deed::File(2, FileName::Local, 99),
        Told::Bytes(b"0.0.0.0!0\n"),
        NOTHING,
        false,
    ),
    (
        0,
        Deed::File(2, FileName::Err, 99),
        Told::Bytes(b""),
        NOTHING,
        false,
    ),
    (
        0,
        Deed::Connect(2, 7, 8192),
        Told::Ok,
        Sent::Il(IlKind::Sync, 7, 0, 255),
        false,
    ),
    (0, Deed::Close(2), Told::Ok, NOTHING, true),
    (0, Deed::Generation, Told::Generation(2), NOTHING, false),
];

#[test]
fn a_second_life_knows_nothing_of_the_first(rt: HostRuntime) -> Result<(), AllocError> {
    plays(
        &rt,
        rt.alloc(),
        Proto::Il,
        3,
        &[CONNECTING, SECOND_LIFE, STALE],
    )
}

const LISTENS: &[Row] = &[
    (0, Deed::Begin(1), Told::Ok, NOTHING, false),
    (0, Deed::Announced(1), Told::Ok, NOTHING, false),
    (
        0,
        Deed::File(1, FileName::Local, 99),
        Told::Bytes(b"0.0.0.0!7\n"),
        NOTHING,
        false,
    ),
    (
        0,
        Deed::File(1, FileName::Status, 99),
        Told::Bytes(b"Listening\n"),
        NOTHING,
        false,
    ),
    (
        0,
        Deed::Read(1, 1),
        Told::Wrong(StateName::Listening),
        NOTHING,
        false,
    ),
    (
        0,
        Deed::Write(1, 1),
        Told::Wrong(StateName::Listening),
        NOTHING,
        false,
    ),
    (0, Deed::Arrive(1, SYNC), Told::Took, NOTHING, false),
    (0, Deed::Hangup(1), Told::Left, NOTHING, false),
    (0, Deed::Hangup(1), Told::Ok, NOTHING, false),
    (0, Deed::Close(1), Told::Ok, NOTHING, true),
    (
        0,
        Deed::Born(2, Came::Udp(b"hi"), 8192),
        Told::Waits,
        NOTHING,
        false,
    ),
    (
        0,
        Deed::Born(2, Came::Il(IlKind::Ack, 500, 0, b""), 8192),
        Told::Waits,
        NOTHING,
        false,
    ),
    (0, Deed::Born(2, SYNC, 8193), Told::Waits, NOTHING, false),
    (
        0,
        Deed::Born(2, SYNC, 8192),
        Told::Ok,
        Sent::Il(IlKind::Sync, 100, 500, 255),
        false,
    ),
    (0, Deed::Due, Told::Due(Some(500)), NOTHING, false),
];

const CLOSE: Came = Came::Il(IlKind::Close, 500, 100, b"");

const IL_BORN: &[Row] = &[
    (0, Deed::Claim(2), Told::Ok, NOTHING, false),
    (
        0,
        Deed::File(2, FileName::Remote, 99),
        Told::Bytes(b"135.104.9.31!17008\n"),
        NOTHING,
        false,
    ),
    (0, Deed::Await(2), Told::Ok, NOTHING, false),
    (0, Deed::Write(2, 1), Told::Waits, NOTHING, false),
    (
        500,
        Deed::Tick(2),
        Told::Ticked,
        Sent::Il(IlKind::Sync, 100, 500, 255),
        false,
    ),
    (
        500,
        Deed::Arrive(2, Came::Il(IlKind::Ack, 500, 100, b"")),
        Told::Took,
        NOTHING,
        false,
    ),
    (
        500,
        Deed::Arrive(2, CLOSE),
        Told::Took,
        Sent::Il(IlKind::Close, 100, 500, 255),
        false,
    ),
    (500, Deed::Read(2, 9), Told::Bytes(b""), NOTHING, false),
    (
        500,
        Deed::Write(2, 1),
        Told::Hungup(Cause::ByPeer),
        NOTHING,
        false,
    ),
    (
        500,
        Deed::Await(2),
        Told::Hungup(Cause::ByPeer),
        NOTHING,
        false,
    ),
    (
        500,
        Deed::File(2, FileName::Err, 99),
        Told::Bytes(b"hungup by peer\n"),
        NOTHING,
        false,
    ),
    (500, Deed::Close(2), Told::Ok, NOTHING, true),
    (500, Deed::Close(2), Told::Ok, NOTHING, false),
];

#[test]
fn an_il_conversation_listens_and_is_born(rt: HostRuntime) -> Result<(), AllocError> {
    plays(&rt, rt.alloc(), Proto::Il, 3, &[LISTENS, IL_BORN])
}

const UDP_BORN: &[Row] = &[
    (0, Deed::Born(1, SYNC, 500), Told::Waits, NOTHING, false),
    (
        0,
        Deed::Born(1, Came::Udp(b"call"), 500),
        Told::Ok,
        NOTHING,
        false,
    ),
    (
        0,
        Deed::File(1, FileName::Local, 99),
        Told::Bytes(b"135.104.9.6!5000\n"),
        NOTHING,
        false,
    ),
    (0, Deed::Claim(1), Told::Ok, NOTHING, false),
    (0, Deed::Read(1, 9), Told::Bytes(b"call"), NOTHING, false),
    (
        0,
        Deed::Write(1, 501),
        Told::TooLong(501, 500),
        NOTHING,
        false,
    ),
    (0, Deed::Close(1), Told::Ok, NOTHING, true),
    (0, Deed::Begin(2), Told::Ok, NOTHING, false),
    (0, Deed::Announced(2), Told::Ok, NOTHING, false),
    (
        0,
        Deed::File(2, FileName::Status, 99),
        Told::Bytes(b"Listening\n"),
        NOTHING,
        false,
    ),
    (
        0,
        Deed::Read(2, 1),
        Told::Wrong(StateName::Listening),
        NOTHING,
        false,
    ),
    (0, Deed::Hangup(2), Told::Left, NOTHING, false),
    (0, Deed::Close(2), Told::Ok, NOTHING, true),
];

#[test]
fn a_udp_conversation_listens_and_is_born(rt: HostRuntime) -> Result<(), AllocError> {
    plays(&rt, rt.alloc(), Proto::Udp, 0, &[UDP_BORN])
}
