//! What waits, and what is refused.
use super::rows::{CONNECTING, CONNECTING_538, Deed, NOTHING, Row, Sent, Told, plays};
use net_base::{IlKind, Proto, StateName};
use std::alloc::AllocError;
use std::test::*;

const UNUSED: &[Row] = &[
    (0, Deed::Generation, Told::Generation(0), NOTHING, false),
    (0, Deed::Due, Told::Due(None), NOTHING, false),
    (0, Deed::Open, Told::NotOpen, NOTHING, false),
    (0, Deed::Ls, Told::NotOpen, NOTHING, false),
    (0, Deed::Close(0), Told::Ok, NOTHING, false),
    (0, Deed::Begin(0), Told::Waits, NOTHING, false),
    (0, Deed::Begin(2), Told::Waits, NOTHING, false),
    (0, Deed::Begin(1), Told::Ok, NOTHING, false),
    (0, Deed::Begin(1), Told::Waits, NOTHING, false),
    (0, Deed::Hangup(1), Told::Ok, NOTHING, false),
    (
        0,
        Deed::Write(1, 0),
        Told::Wrong(StateName::Closed),
        NOTHING,
        false,
    ),
    (
        0,
        Deed::Write(1, 8193),
        Told::Wrong(StateName::Closed),
        NOTHING,
        false,
    ),
    (
        0,
        Deed::Read(1, 1),
        Told::Wrong(StateName::Closed),
        NOTHING,
        false,
    ),
    (0, Deed::Await(1), Told::Ok, NOTHING, false),
    (0, Deed::Tick(1), Told::NotDue, NOTHING, false),
    (0, Deed::Bound(1, 9), Told::Ok, NOTHING, false),
    (0, Deed::Reserve, Told::Waits, NOTHING, false),
];

#[test]
fn an_unused_conversation_waits_to_be_used(rt: HostRuntime) -> Result<(), AllocError> {
    plays(&rt, rt.alloc(), Proto::Il, 3, &[UNUSED])
}

const BEFORE: &[Row] = &[(
    0,
    Deed::Write(0, 1),
    Told::Wrong(StateName::Closed),
    NOTHING,
    false,
)];

const WRITES: &[Row] = &[
    (
        0,
        Deed::Write(1, 8193),
        Told::TooLong(8193, 8192),
        NOTHING,
        false,
    ),
    (0, Deed::Write(1, 0), Told::ZeroWrite, NOTHING, false),
    (
        0,
        Deed::Write(1, 8192),
        Told::Count(8192),
        Sent::Il(IlKind::Data, 101, 500, 255),
        false,
    ),
];

const SHORT_WRITES: &[Row] = &[
    (
        0,
        Deed::Write(1, 539),
        Told::TooLong(539, 538),
        NOTHING,
        false,
    ),
    (
        0,
        Deed::Write(1, 538),
        Told::Count(538),
        Sent::Il(IlKind::Data, 101, 500, 255),
        false,
    ),
];

#[test]
fn writes_are_refused_as_worked(rt: HostRuntime) -> Result<(), AllocError> {
    let alloc = rt.alloc();
    plays(&rt, alloc, Proto::Il, 3, &[BEFORE, CONNECTING, WRITES])?;
    // a medium whose mtu is 576 leaves 538 bytes
    plays(&rt, alloc, Proto::Il, 3, &[CONNECTING_538, SHORT_WRITES])
}
