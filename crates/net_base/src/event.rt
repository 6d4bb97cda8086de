//! What is recorded at actors.
use crate::address::Addr;
use crate::names::{FileName, Mode};
use crate::octets::Octets;
use std::alloc::AllocError;

/// An event, in the order of the tables of the desk, the directory, the conversation, the medium and the clock.
/// `LsPath` and `OpenPath` are the desk's `ls` and `open`; `Arrive` is a directory's and `ArriveAt` a conversation's `arrive`;
/// `Ls` is a directory's and a conversation's. Moments are in ms.
#[derive(Debug, Drop)]
pub enum Event {
    Cs {
        query: Octets,
    },
    LsPath {
        path: Octets,
    },
    OpenPath {
        path: Octets,
        mode: Mode,
    },
    Use {
        name: Octets,
    },
    Misuse {
        name: Octets,
    },
    Until {
        moment: u64,
    },
    Refresh,
    Reserve,
    Grant {
        slot: u32,
        generation: u64,
        remote: Addr,
        lport: Option<u16>,
    },
    Announce {
        slot: u32,
        generation: u64,
        ip: Option<u32>,
        port: Option<u16>,
    },
    Bind {
        slot: u32,
        generation: u64,
        port: u16,
    },
    Listen {
        slot: u32,
    },
    Withdraw {
        slot: u32,
        generation: u64,
    },
    Release {
        slot: u32,
        generation: u64,
    },
    Arrive,
    Ls,
    Begin {
        generation: u64,
    },
    Born {
        generation: u64,
    },
    Claim {
        generation: u64,
    },
    Connect {
        generation: u64,
    },
    Announced {
        generation: u64,
    },
    Bound {
        generation: u64,
    },
    Await {
        generation: u64,
    },
    Open {
        file: FileName,
        mode: Mode,
    },
    File {
        generation: u64,
        file: FileName,
        count: u32,
    },
    Read {
        generation: u64,
        count: u32,
    },
    Write {
        generation: u64,
        text: Octets,
    },
    Hangup {
        generation: u64,
    },
    Ttl {
        generation: u64,
        n: u8,
    },
    Tos {
        generation: u64,
        n: u8,
    },
    Ctl {
        generation: u64,
        text: Octets,
    },
    Close {
        generation: u64,
    },
    ArriveAt {
        generation: u64,
    },
    Tick {
        generation: u64,
    },
    Put {
        to: Option<u32>,
    },
    Take,
    Move {
        moment: u64,
    },
}

impl Clone for Event {
    ghost use Rattle.std.specs.Prelude.{◌≡◌};

    ghost is_clone = { λ x copy. copy ≡ x };

    fn clone(&self) -> Result<Event, AllocError> {
        Ok(match self {
            Event::Cs { query } => Event::Cs {
                query: query.clone()?,
            },
            Event::LsPath { path } => Event::LsPath {
                path: path.clone()?,
            },
            Event::OpenPath { path, mode } => Event::OpenPath {
                path: path.clone()?,
                mode: *mode,
            },
            Event::Use { name } => Event::Use {
                name: name.clone()?,
            },
            Event::Misuse { name } => Event::Misuse {
                name: name.clone()?,
            },
            Event::Until { moment } => Event::Until { moment: *moment },
            Event::Refresh => Event::Refresh,
            Event::Reserve => Event::Reserve,
            Event::Grant {
                slot,
                generation,
                remote,
                lport,
            } => Event::Grant {
                slot: *slot,
                generation: *generation,
                remote: *remote,
                lport: *lport,
            },
            Event::Announce {
                slot,
                generation,
                ip,
                port,
            } => Event::Announce {
                slot: *slot,
                generation: *generation,
                ip: *ip,
                port: *port,
            },
            Event::Bind {
                slot,
                generation,
                port,
            } => Event::Bind {
                slot: *slot,
                generation: *generation,
                port: *port,
            },
            Event::Listen { slot } => Event::Listen { slot: *slot },
            Event::Withdraw { slot, generation } => Event::Withdraw {
                slot: *slot,
                generation: *generation,
            },
            Event::Release { slot, generation } => Event::Release {
                slot: *slot,
                generation: *generation,
            },
            Event::Arrive => Event::Arrive,
            Event::Ls => Event::Ls,
            Event::Begin { generation } => Event::Begin {
                generation: *generation,
            },
            Event::Born { generation } => Event::Born {
                generation: *generation,
            },
            Event::Claim { generation } => Event::Claim {
                generation: *generation,
            },
            Event::Connect { generation } => Event::Connect {
                generation: *generation,
            },
            Event::Announced { generation } => Event::Announced {
                generation: *generation,
            },
            Event::Bound { generation } => Event::Bound {
                generation: *generation,
            },
            Event::Await { generation } => Event::Await {
                generation: *generation,
            },
            Event::Open { file, mode } => Event::Open {
                file: *file,
                mode: *mode,
            },
            Event::File {
                generation,
                file,
                count,
            } => Event::File {
                generation: *generation,
                file: *file,
                count: *count,
            },
            Event::Read { generation, count } => Event::Read {
                generation: *generation,
                count: *count,
            },
            Event::Write { generation, text } => Event::Write {
                generation: *generation,
                text: text.clone()?,
            },
            Event::Hangup { generation } => Event::Hangup {
                generation: *generation,
            },
            Event::Ttl { generation, n } => Event::Ttl {
                generation: *generation,
                n: *n,
            },
            Event::Tos { generation, n } => Event::Tos {
                generation: *generation,
                n: *n,
            },
            Event::Ctl { generation, text } => Event::Ctl {
                generation: *generation,
                text: text.clone()?,
            },
            Event::Close { generation } => Event::Close {
                generation: *generation,
            },
            Event::ArriveAt { generation } => Event::ArriveAt {
                generation: *generation,
            },
            Event::Tick { generation } => Event::Tick {
                generation: *generation,
            },
            Event::Put { to } => Event::Put { to: *to },
            Event::Take => Event::Take,
            Event::Move { moment } => Event::Move { moment: *moment },
        })
    }
}
