//! Two ends with a network between them that loses, repeats and delays.
use super::Deed::*;
use super::Said::*;
use super::Side::*;
use super::{Row, Said, plays};
use il_machine::Ask::{Read as ToRead, Wait, Write as ToWrite};
use net_base::Cause;
use net_base::IlKind::{Ack, Close, DataQuery, Query, State, Sync};
use net_base::IlState::{Closed, Closing, Established, Syncee, Syncer};
use std::alloc::AllocError;
use std::test::*;

/// The start of the near end, whose ids soon wrap.
const START: u32 = 4294967294;

/// The id of its first message.
const FIRST: u32 = 4294967295;

// Messages that are said more than once.

const ANSWER: Said = Bare(Ack, START, 100);

const AGAIN: Said = Own(DataQuery, FIRST, 100, b"a");

const HELLO: Said = Data(101, 0, b"hello");

const LAST: Said = Own(DataQuery, 1, 101, b"c");

const OWN_CLOSE: Said = Bare(Close, 1, 101);

/// A handshake, with the first syncs lost.
const SYNCS_LOST: &[Row] = &[
    (Near, 10, Connect(START), Bare(Sync, START, 0)),
    (Near, 10, Ask(Wait, false), Quiet),
    (Near, 10, Ask(ToWrite, false), Quiet),
    (Near, 400, Hear(Bare(Ack, 100, START)), Quiet),
    (Near, 400, Hear(Bare(Sync, 100, 7)), Quiet),
    (Near, 400, Look(Syncer, Some(510)), Quiet),
    (Near, 510, Tick, Bare(Sync, START, 0)),
    (Far, 20, Born(100, START), Bare(Sync, 100, START)),
    (Far, 30, Hear(Bare(Sync, START, 0)), Bare(Sync, 100, START)),
    (Far, 40, Hear(Bare(Sync, 9, 0)), Quiet),
    (Far, 520, Tick, Bare(Sync, 100, START)),
    (Far, 525, Hear(CloseOf(1, START, 100)), Quiet),
    (Far, 525, Look(Syncee, Some(1520)), Quiet),
];

const SHAKEN: &[Row] = &[
    (Near, 530, Hear(Bare(Sync, 100, START)), ANSWER),
    (Near, 540, Hear(Bare(Sync, 100, START)), ANSWER),
    (Near, 540, Hear(Bare(Sync, 101, START)), Quiet),
    (Near, 540, Look(Established, None), Quiet),
];

/// Two messages, the first lost.
const MESSAGE_LOST: &[Row] = &[
    (Near, 600, Write(b"a"), Data(FIRST, 100, b"a")),
    (Near, 610, Write(b"b"), Data(0, 100, b"b")),
    (Near, 610, Look(Established, Some(1100)), Quiet),
    (Far, 615, Hear(Data(0, 100, b"")), Quiet),
    (Far, 615, Hear(Data(0, 99, b"b")), Quiet),
    (Far, 615, Look(Syncee, Some(1520)), Quiet),
    (Far, 620, Hear(Data(0, 100, b"b")), Bare(Ack, 100, START)),
    (Far, 620, Ask(ToRead, false), Quiet),
    (Far, 620, Look(Established, None), Quiet),
    (Near, 630, Hear(Bare(Ack, 100, START)), Quiet),
    (Near, 630, Look(Established, Some(1100)), Quiet),
];

const SENT_AGAIN: &[Row] = &[
    (Near, 1100, Tick, Bare(Query, 0, 100)),
    (Near, 1100, Look(Established, Some(2100)), Quiet),
    (
        Far,
        1110,
        Hear(Bare(Query, 0, 100)),
        Bare(State, 100, START),
    ),
    (Near, 1120, Hear(Bare(State, 100, START)), AGAIN),
    (Far, 1130, Hear(AGAIN), Bare(State, 100, 0)),
    (Near, 1140, Hear(Bare(State, 100, 0)), Quiet),
    (Near, 1140, Look(Established, None), Quiet),
    (Far, 1140, Read(8192, b"a"), Quiet),
    (Far, 1140, Read(8192, b"b"), Quiet),
];

/// The other way, a message that comes twice.
const REPEAT: &[Row] = &[
    (Far, 1200, Write(b"hello"), HELLO),
    (Near, 1210, Hear(HELLO), Bare(Ack, 0, 101)),
    (Near, 1220, Hear(HELLO), Bare(Ack, 0, 101)),
    (Near, 1220, Read(2, b"he"), Quiet),
    (Near, 1220, Read(8192, b"llo"), Quiet),
    (Near, 1220, Ask(ToRead, false), Quiet),
    (Far, 1230, Hear(Bare(Ack, 0, 101)), Quiet),
    (Far, 1230, Look(Established, None), Quiet),
];

/// A last message and a close that comes before it.
const EARLY_CLOSE: &[Row] = &[
    (Near, 1300, Write(b"c"), Data(1, 101, b"c")),
    (Near, 1310, Hangup, OWN_CLOSE),
    (Near, 1310, WriteHungup(Cause::Hungup), Quiet),
    (Near, 1310, Look(Closing, Some(1810)), Quiet),
    (Far, 1320, Hear(OWN_CLOSE), Bare(State, 101, 0)),
    (Near, 1330, Hear(Bare(State, 101, 0)), LAST),
    (Far, 1340, Hear(LAST), Bare(State, 101, 1)),
    (Near, 1350, Hear(Bare(State, 101, 1)), OWN_CLOSE),
    (Near, 1350, Look(Closing, Some(1850)), Quiet),
];

const LATE_CLOSE: &[Row] = &[
    (Near, 1360, Hear(Bare(Sync, 100, START)), OWN_CLOSE),
    (Near, 1360, Hear(Data(102, 1, b"late")), OWN_CLOSE),
    (Near, 1360, Hear(Own(DataQuery, 102, 1, b"late")), OWN_CLOSE),
    (Near, 1360, Hear(Bare(Query, 102, 1)), OWN_CLOSE),
    (Near, 1360, Hear(Bare(Ack, 102, 1)), Quiet),
    (Near, 1360, Hear(CloseOf(1, 102, 1)), Quiet),
    (Near, 1850, Tick, OWN_CLOSE),
    (Near, 1850, Look(Closing, Some(2850)), Quiet),
    (Far, 1860, Hear(OWN_CLOSE), Bare(Close, 101, 1)),
    (Far, 1860, Look(Closed, None), Quiet),
    (Near, 1870, Hear(Bare(Close, 101, 1)), Quiet),
    (Near, 1870, Look(Closed, None), Quiet),
];

/// What is left to be read, and closes that come again.
const LEFT: &[Row] = &[
    (Far, 1880, Read(8192, b"c"), Quiet),
    (Far, 1880, Read(8192, b""), Quiet),
    (Far, 1880, WriteHungup(Cause::ByPeer), Quiet),
    (Far, 1880, Hear(Bare(Close, 1, 101)), Bare(Close, 101, 1)),
    (Far, 1880, Hear(Bare(Ack, 1, 101)), Quiet),
    (Near, 1880, Hear(Bare(Close, 101, 1)), Quiet),
    (Near, 1880, ReadHungup(Cause::Hungup), Quiet),
    (Near, 1880, Hangup, Quiet),
    (Near, 1880, Ended(Cause::Hungup), Quiet),
    (Far, 1880, Ended(Cause::ByPeer), Quiet),
];

#[test]
fn two_ends_talk(rt: HostRuntime) -> Result<(), AllocError> {
    plays(
        &rt,
        rt.alloc(),
        &[
            SYNCS_LOST,
            SHAKEN,
            MESSAGE_LOST,
            SENT_AGAIN,
            REPEAT,
            EARLY_CLOSE,
            LATE_CLOSE,
            LEFT,
        ],
    )
}
