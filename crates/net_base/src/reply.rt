//! What actors reply.
use crate::actor::CallList;
use crate::address::Pair;
use crate::il::{Cause, StateName};
use crate::octets::{Lines, Octets};

/// A reply, in the order of the tables of the actors. Counts, lengths and limits are in bytes.
#[derive(Debug, Drop)]
pub enum Reply {
    Lines {
        lines: Lines,
    },
    CsRefused {
        number: u32,
    },
    Names {
        names: Lines,
    },
    NoFile,
    BadMode,
    BadFid,
    Ok,
    Version {
        version: u64,
    },
    Slot {
        slot: u32,
        generation: u64,
    },
    NoSlot,
    Granted {
        pair: Pair,
        start: u32,
        limit: u32,
    },
    WrongState {
        state: StateName,
    },
    NoRoute,
    NoPort,
    SelfPair,
    PairUsed {
        k: u64,
    },
    PortTaken {
        slot: u32,
    },
    Call {
        slot: u32,
        generation: u64,
    },
    Calls {
        calls: CallList,
    },
    To {
        slot: u32,
        generation: u64,
    },
    Born {
        slot: u32,
        generation: u64,
        start: u32,
        limit: u32,
    },
    Refused,
    Dropped,
    Stale,
    Hungup {
        cause: Cause,
    },
    Opened {
        generation: u64,
    },
    NotOpen,
    Bytes {
        bytes: Octets,
    },
    Count {
        count: u32,
    },
    ZeroWrite,
    TooLong {
        length: u64,
        limit: u32,
    },
    Left,
    BadCtl {
        number: u32,
    },
    Took,
    Full,
    Ticked,
    NotDue,
    Laid {
        frame: u64,
    },
    TooBig,
    NoStation,
    Copy {
        frame: u64,
    },
}
