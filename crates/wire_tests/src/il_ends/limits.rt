//! Full windows.
use super::Deed::*;
use super::Said::*;
use super::Side::*;
use super::{Ends, Row, play};
use il_machine::Ask::{Read as ToRead, Write as ToWrite};
use net_base::IlKind::{Ack, DataQuery, State, Sync};
use net_base::IlState::Established;
use net_base::Timers;
use std::alloc::{AllocError, Global};
use std::process::Abort;
use std::test::*;

/// What is full.
#[derive(Clone, Copy)]
enum Limit {
    Window,
    Room,
    Early,
}

fn fill<R: Abort>(rt: &R, alloc: Global, limit: Limit) -> Result<(), AllocError> {
    let mut ends = Ends::fresh(alloc, Timers::Fixed)?;
    let filled = fill_ends(rt, alloc, &mut ends, limit);
    drop(ends);
    filled
}

fn fill_ends<R: Abort>(
    rt: &R,
    alloc: Global,
    ends: &mut Ends,
    limit: Limit,
) -> Result<(), AllocError> {
    match limit {
        Limit::Window => fill_the_window(rt, alloc, ends),
        Limit::Room => fill_the_room(rt, alloc, ends),
        Limit::Early => come_early(rt, alloc, ends),
    }
}

const CONNECTED: &[Row] = &[
    (Near, 0, Connect(1), Bare(Sync, 1, 0)),
    (Near, 10, Hear(Bare(Sync, 100, 1)), Bare(Ack, 1, 100)),
];

const FULL_WINDOW: &[Row] = &[
    (Near, 20, Ask(ToWrite, false), Quiet),
    // an ack of what was never sent, and one of all
    (Near, 30, Hear(Bare(Ack, 100, 22)), Quiet),
    (Near, 30, Look(Established, Some(520)), Quiet),
    (Near, 40, Hear(Bare(Ack, 100, 21)), Quiet),
    (Near, 40, Look(Established, None), Quiet),
    (Near, 40, Ask(ToWrite, true), Quiet),
];

/// A message is written, with this id.
const fn wrote(id: u32) -> Row {
    (Near, 20, Write(b"x"), Data(id, 100, b"x"))
}

fn fill_the_window<R: Abort>(rt: &R, alloc: Global, ends: &mut Ends) -> Result<(), AllocError> {
    play(rt, alloc, ends, CONNECTED)?;
    for k in 2..22 {
        play(rt, alloc, ends, &[wrote(k)])?;
    }
    play(rt, alloc, ends, FULL_WINDOW)
}

#[test]
fn twenty_messages_may_be_unacknowledged(rt: HostRuntime) -> Result<(), AllocError> {
    fill(&rt, rt.alloc(), Limit::Window)
}

const BORN: &[Row] = &[(Near, 0, Born(100, 1), Bare(Sync, 100, 1))];

/// A message with this id comes, and is answered with this ack.
const fn came(id: u32, ack: u32) -> Row {
    (Near, 10, Hear(Data(id, 100, b"x")), Bare(Ack, 100, ack))
}

const FULL_ROOM: &[Row] = &[
    (Near, 20, Hear(Data(66, 100, b"y")), Bare(Ack, 100, 65)),
    // there is no room for it, so it is still missing
    (
        Near,
        20,
        Hear(Own(DataQuery, 66, 100, b"y")),
        Bare(Ack, 100, 65),
    ),
    (Near, 30, Read(8192, b"x"), Quiet),
    (
        Near,
        40,
        Hear(Own(DataQuery, 66, 100, b"y")),
        Bare(State, 100, 66),
    ),
];

fn fill_the_room<R: Abort>(rt: &R, alloc: Global, ends: &mut Ends) -> Result<(), AllocError> {
    play(rt, alloc, ends, BORN)?;
    for k in 2..66 {
        play(rt, alloc, ends, &[came(k, k)])?;
    }
    play(rt, alloc, ends, FULL_ROOM)
}

#[test]
fn sixty_four_messages_may_be_unread(rt: HostRuntime) -> Result<(), AllocError> {
    fill(&rt, rt.alloc(), Limit::Room)
}

const IN_TURN: &[Row] = &[
    (Near, 20, Hear(Data(5, 100, b"X")), Bare(Ack, 100, 1)),
    (Near, 20, Ask(ToRead, false), Quiet),
    (Near, 30, Hear(Data(2, 100, b"first")), Bare(Ack, 100, 21)),
    (Near, 40, Read(2, b"fi"), Quiet),
    (Near, 40, Read(8192, b"rst"), Quiet),
    (Near, 40, Read(8192, b"x"), Quiet),
];

/// Nineteen messages come before their turn, in any order, and are read in theirs.
fn come_early<R: Abort>(rt: &R, alloc: Global, ends: &mut Ends) -> Result<(), AllocError> {
    play(rt, alloc, ends, BORN)?;
    for k in 3..22 {
        play(rt, alloc, ends, &[came(24 - k, 1)])?;
    }
    play(rt, alloc, ends, IN_TURN)
}

#[test]
fn nineteen_messages_may_be_early(rt: HostRuntime) -> Result<(), AllocError> {
    fill(&rt, rt.alloc(), Limit::Early)
}
