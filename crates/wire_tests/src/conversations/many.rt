//! Many calls, and calls that come late.
use super::rows::{Deed, NOTHING, Row, Sent, Told, plays, run};
use conversation::Conv;
use net_base::{IlKind, Proto, Timers};
use std::alloc::{AllocError, Global};
use std::process::Abort;
use std::test::*;

const CONNECTED: &[Row] = &[
    (0, Deed::Begin(1), Told::Ok, NOTHING, false),
    (0, Deed::Connect(1, 0, 8192), Told::Ok, NOTHING, false),
];

const OPENED: &[Row] = &[(0, Deed::Open, Told::Opened(1), NOTHING, false)];

const CLOSED: &[Row] = &[(0, Deed::Close(1), Told::Ok, NOTHING, false)];

const LAST_CLOSED: &[Row] = &[(0, Deed::Close(1), Told::Ok, NOTHING, true)];

fn open_many(rt: &impl Abort, alloc: Global, conv: &mut Conv) -> Result<(), AllocError> {
    run(rt, alloc, conv, CONNECTED)?;
    for _ in 0..300 {
        run(rt, alloc, conv, OPENED)?;
    }
    for _ in 0..300 {
        run(rt, alloc, conv, CLOSED)?;
    }
    run(rt, alloc, conv, LAST_CLOSED)
}

fn open_many_of_one(rt: &impl Abort, alloc: Global) -> Result<(), AllocError> {
    let mut conv = Conv::new(alloc, 0, Proto::Udp, 0, Timers::Fixed)?;
    let played = open_many(rt, alloc, &mut conv);
    drop(conv);
    played
}

#[test]
fn three_hundred_files_are_opened(rt: HostRuntime) -> Result<(), AllocError> {
    open_many_of_one(&rt, rt.alloc())
}

const LATE: &[Row] = &[
    (700, Deed::Begin(2), Told::Waits, NOTHING, false),
    (700, Deed::Begin(1), Told::Ok, NOTHING, false),
    (
        700,
        Deed::Connect(1, 100, 8192),
        Told::Ok,
        Sent::Il(IlKind::Sync, 100, 0, 255),
        false,
    ),
    (700, Deed::Await(1), Told::Waits, NOTHING, false),
    (900, Deed::Await(1), Told::Waits, NOTHING, false),
    (900, Deed::Tick(1), Told::NotDue, NOTHING, false),
    (900, Deed::Tick(2), Told::Waits, NOTHING, false),
];

#[test]
fn what_waits_late_in_a_run(rt: HostRuntime) -> Result<(), AllocError> {
    plays(&rt, rt.alloc(), Proto::Il, 3, &[LATE])
}
