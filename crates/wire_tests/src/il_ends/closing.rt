//! Closes, refusals and hangups.
use super::Deed::*;
use super::Said::*;
use super::Side::*;
use super::{Row, plays};
use il_machine::Ask::Wait;
use net_base::Cause;
use net_base::IlKind::{Ack, Close, Sync};
use net_base::IlState::{Closed, Closing, Established, Listening, Syncee, Syncer};
use std::alloc::AllocError;
use std::test::*;

const FAR_CLOSE: &[Row] = &[
    (Near, 0, Born(100, 1), Bare(Sync, 100, 1)),
    (Near, 0, Look(Syncee, Some(500)), Quiet),
    // a close with a spec of its own makes it Established, and nothing more
    (Near, 10, Hear(CloseOf(2, 1, 100)), Quiet),
    (Near, 10, Look(Established, None), Quiet),
    (Near, 20, Hear(Data(2, 100, b"one")), Bare(Ack, 100, 2)),
    (Near, 30, Hear(CloseOf(0, 2, 100)), Bare(Close, 100, 2)),
    (Near, 30, Look(Closed, None), Quiet),
    (Near, 40, Read(8192, b"one"), Quiet),
    (Near, 50, Read(8192, b""), Quiet),
    (Near, 60, Hangup, Quiet),
    (Near, 99, Ended(Cause::ByPeer), Quiet),
];

#[test]
fn the_far_end_closes_first(rt: HostRuntime) -> Result<(), AllocError> {
    plays(&rt, rt.alloc(), &[FAR_CLOSE])
}

const REFUSAL: &[Row] = &[
    (Near, 0, Connect(7), Bare(Sync, 7, 0)),
    (Near, 5, Hear(CloseOf(1, 0, 8)), Quiet),
    (Near, 5, Hear(CloseOf(0, 0, 7)), Quiet),
    (Near, 5, Look(Syncer, Some(500)), Quiet),
    (Near, 10, Hear(CloseOf(1, 0, 7)), Quiet),
    (Near, 10, Look(Closed, None), Quiet),
    (Near, 10, Ask(Wait, true), Quiet),
    (Near, 20, ReadHungup(Cause::Refused), Quiet),
    (Near, 20, WriteHungup(Cause::Refused), Quiet),
    (Near, 30, Hear(CloseOf(0, 0, 7)), Quiet),
    (Near, 99, Ended(Cause::Refused), Quiet),
];

#[test]
fn a_sync_is_refused(rt: HostRuntime) -> Result<(), AllocError> {
    plays(&rt, rt.alloc(), &[REFUSAL])
}

const HANGUPS: &[Row] = &[
    // never connected
    (Near, 0, Hangup, Quiet),
    (Near, 0, Look(Closed, None), Quiet),
    (Near, 5, Connect(7), Bare(Sync, 7, 0)),
    (Near, 10, Hangup, Quiet),
    (Near, 10, Look(Closed, None), Quiet),
    (Near, 20, Hangup, Quiet),
    (Far, 0, Born(7, 9), Bare(Sync, 7, 9)),
    (Far, 10, Hangup, Bare(Close, 7, 9)),
    (Far, 20, Hangup, Quiet),
    (Far, 20, Look(Closing, Some(510)), Quiet),
    (Near, 99, Ended(Cause::Hungup), Quiet),
];

#[test]
fn an_end_is_hung_up_in_every_state(rt: HostRuntime) -> Result<(), AllocError> {
    plays(&rt, rt.alloc(), &[HANGUPS])
}

const ANNOUNCED: &[Row] = &[
    (Near, 0, Announce, Quiet),
    (Near, 5, Hear(Bare(Sync, 9, 0)), Quiet),
    (Near, 5, Look(Listening, None), Quiet),
    (Near, 10, Hangup, Quiet),
    (Near, 10, Look(Closed, None), Quiet),
    (Near, 99, Ended(Cause::Hungup), Quiet),
];

#[test]
fn an_announced_end_is_hung_up(rt: HostRuntime) -> Result<(), AllocError> {
    plays(&rt, rt.alloc(), &[ANNOUNCED])
}
