//! Worked calls of one end, with their moments.
use super::Deed::*;
use super::Said::*;
use super::Side::*;
use super::{Row, Said, plays, plays_with};
use net_base::IlKind::{Ack, DataQuery, Query, State, Sync};
use net_base::IlState::{Closed, Closing, Established, Listening, Syncee, Syncer};
use net_base::{Cause, Timers};
use std::alloc::AllocError;
use std::test::*;

const ALONE: &[Row] = &[
    (Near, 0, Connect(1), Bare(Sync, 1, 0)),
    (Near, 499, Tick, Quiet),
    (Near, 500, Tick, Bare(Sync, 1, 0)),
    (Near, 500, Look(Syncer, Some(1500)), Quiet),
    (Near, 600, Hear(Bare(Sync, 100, 1)), Bare(Ack, 1, 100)),
    (Near, 600, Look(Established, None), Quiet),
    (Near, 600, Write(b"hello"), Data(2, 100, b"hello")),
    (Near, 600, Look(Established, Some(1100)), Quiet),
    (Near, 640, Hear(Bare(Ack, 100, 2)), Quiet),
    (Near, 640, Look(Established, None), Quiet),
    (Near, 700, Write(b"x"), Data(3, 100, b"x")),
    (Near, 710, Hear(CloseOf(1, 100, 1)), Quiet),
    (Near, 710, Look(Established, Some(1200)), Quiet),
];

#[test]
fn one_end_connects_and_writes(rt: HostRuntime) -> Result<(), AllocError> {
    plays(&rt, rt.alloc(), &[ALONE])
}

const MEASURED: &[Row] = &[
    (Near, 0, Connect(1), Bare(Sync, 1, 0)),
    (Near, 499, Tick, Quiet),
    (Near, 500, Tick, Bare(Sync, 1, 0)),
    (Near, 500, Look(Syncer, Some(1500)), Quiet),
    (Near, 600, Hear(Bare(Sync, 100, 1)), Bare(Ack, 1, 100)),
    (Near, 600, Look(Established, None), Quiet),
    (Near, 600, Write(b"hello"), Data(2, 100, b"hello")),
    (Near, 600, Look(Established, Some(1100)), Quiet),
    (Near, 640, Hear(Bare(Ack, 100, 2)), Quiet),
    (Near, 640, Look(Established, None), Quiet),
    // a round trip of 40, which lies 20 around it: 40 and four times 20
    (Near, 700, Write(b"x"), Data(3, 100, b"x")),
    (Near, 700, Look(Established, Some(820)), Quiet),
];

#[test]
fn a_measured_end_waits_by_its_round_trips(rt: HostRuntime) -> Result<(), AllocError> {
    plays_with(&rt, rt.alloc(), Timers::Measured, &[MEASURED])
}

const SYNC: Said = Bare(Sync, 7, 0);

const SILENCE: &[Row] = &[
    (Near, 10, Connect(7), SYNC),
    (Near, 510, Tick, SYNC),
    (Near, 1510, Tick, SYNC),
    (Near, 3510, Tick, SYNC),
    (Near, 7510, Tick, SYNC),
    (Near, 15510, Tick, SYNC),
    (Near, 23510, Tick, SYNC),
    (Near, 30009, Tick, Quiet),
    (Near, 30009, Look(Syncer, Some(30010)), Quiet),
    (Near, 30010, Tick, Quiet),
    (Near, 30010, Look(Closed, None), Quiet),
    (Near, 30010, Ended(Cause::TimedOut), Quiet),
];

#[test]
fn an_end_that_hears_nothing_gives_up(rt: HostRuntime) -> Result<(), AllocError> {
    plays(&rt, rt.alloc(), &[SILENCE])
}
