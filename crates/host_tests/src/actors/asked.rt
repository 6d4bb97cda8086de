//! What is asked of an actor, as it stands in a row.
use super::trial::{ANNA, HELIX};
use net_base::{
    Addr, Body, Event, FileName, IlKind, IlMsg, Mode, Octets, Packet, Pair, With, Work,
};
use std::alloc::{AllocError, Global};

/// Of a desk.
#[derive(Clone, Copy)]
pub enum AtDesk {
    Cs(&'static [u8]),
    Ls(&'static [u8]),
    Open(&'static [u8], Mode),
    Use(&'static [u8]),
    Misuse(&'static [u8]),
    Until(u64),
    Refresh,
}

/// Of a directory, at the first generation of slot 0.
#[derive(Clone, Copy)]
pub enum AtDir {
    Reserve,
    /// Of port 7, at any address.
    Announce,
    Bind(u16),
    /// To port 7 of helix.
    Grant,
    Listen,
    Release,
    /// At this generation.
    Withdraw(u64),
    Ls,
    /// A datagram from helix to anna.
    Arrive,
}

/// Of a conversation, at its first generation.
#[derive(Clone, Copy)]
pub enum AtConv {
    Begin,
    Connect {
        local: Addr,
        remote: Addr,
        start: u32,
    },
    /// A sync from anna.
    Born,
    Write(&'static [u8]),
    /// A datagram from helix to anna.
    ArriveAt,
    /// Of one byte.
    Read,
    OpenCtl,
    ReadCtl,
    Ls,
    Tick,
    Close,
    /// At this generation.
    Hangup(u64),
}

#[derive(Clone, Copy)]
pub enum Ask {
    Desk(AtDesk),
    Dir(AtDir),
    Conv(AtConv),
    Move(u64),
    Take,
    /// A datagram from helix to anna, for host 0.
    Put,
    /// A put for which no datagram is given.
    PutNothing,
}

fn text(alloc: Global, bytes: &[u8]) -> Result<Octets, AllocError> {
    Octets::from_slice(alloc, bytes)
}

fn alone(event: Event) -> Work {
    Work {
        event,
        with: With::Nothing,
    }
}

/// An event with a datagram of two bytes from helix to anna.
fn with_datagram(alloc: Global, event: Event) -> Result<Work, AllocError> {
    let packet = Packet {
        src: Addr {
            ip: HELIX,
            port: 5000,
        },
        dst: Addr { ip: ANNA, port: 7 },
        ttl: 255,
        tos: 0,
        body: Body::Udp(text(alloc, b"hi")?),
    };
    Ok(Work {
        event,
        with: With::Packet(packet),
    })
}

fn desk_event(alloc: Global, ask: AtDesk) -> Result<Event, AllocError> {
    match ask {
        AtDesk::Cs(query) => Ok(Event::Cs {
            query: text(alloc, query)?,
        }),
        AtDesk::Ls(path) => Ok(Event::LsPath {
            path: text(alloc, path)?,
        }),
        AtDesk::Open(path, mode) => Ok(Event::OpenPath {
            path: text(alloc, path)?,
            mode,
        }),
        AtDesk::Use(name) => Ok(Event::Use {
            name: text(alloc, name)?,
        }),
        AtDesk::Misuse(name) => Ok(Event::Misuse {
            name: text(alloc, name)?,
        }),
        AtDesk::Until(moment) => Ok(Event::Until { moment }),
        AtDesk::Refresh => Ok(Event::Refresh),
    }
}

fn dir_work(alloc: Global, ask: AtDir) -> Result<Work, AllocError> {
    let (slot, generation) = (0, 1);
    match ask {
        AtDir::Reserve => Ok(alone(Event::Reserve)),
        AtDir::Announce => Ok(alone(Event::Announce {
            slot,
            generation,
            ip: None,
            port: Some(7),
        })),
        AtDir::Bind(port) => Ok(alone(Event::Bind {
            slot,
            generation,
            port,
        })),
        AtDir::Grant => Ok(alone(Event::Grant {
            slot,
            generation,
            remote: Addr { ip: HELIX, port: 7 },
            lport: None,
        })),
        AtDir::Listen => Ok(alone(Event::Listen { slot })),
        AtDir::Release => Ok(alone(Event::Release { slot, generation })),
        AtDir::Withdraw(generation) => Ok(alone(Event::Withdraw { slot, generation })),
        AtDir::Ls => Ok(alone(Event::Ls)),
        AtDir::Arrive => with_datagram(alloc, Event::Arrive),
    }
}

fn granted(local: Addr, remote: Addr, start: u32) -> Work {
    Work {
        event: Event::Connect { generation: 1 },
        with: With::Grant {
            pair: Pair { local, remote },
            start,
            limit: 1472,
        },
    }
}

/// A sync from anna to helix.
fn born(alloc: Global) -> Work {
    let sync = IlMsg {
        kind: IlKind::Sync,
        spec: 0,
        id: 5,
        ack: 0,
        text: Octets::new(alloc),
    };
    let packet = Packet {
        src: Addr {
            ip: ANNA,
            port: 5000,
        },
        dst: Addr {
            ip: HELIX,
            port: 17008,
        },
        ttl: 255,
        tos: 0,
        body: Body::Il(sync),
    };
    Work {
        event: Event::Born { generation: 1 },
        with: With::Birth {
            packet,
            start: 1,
            limit: 1462,
        },
    }
}

fn written(alloc: Global, bytes: &[u8]) -> Result<Work, AllocError> {
    Ok(alone(Event::Write {
        generation: 1,
        text: text(alloc, bytes)?,
    }))
}

fn conv_work(alloc: Global, ask: AtConv) -> Result<Work, AllocError> {
    let generation = 1;
    match ask {
        AtConv::Begin => Ok(alone(Event::Begin { generation })),
        AtConv::Connect {
            local,
            remote,
            start,
        } => Ok(granted(local, remote, start)),
        AtConv::Born => Ok(born(alloc)),
        AtConv::Write(bytes) => written(alloc, bytes),
        AtConv::ArriveAt => with_datagram(alloc, Event::ArriveAt { generation }),
        AtConv::Read => Ok(alone(Event::Read {
            generation,
            count: 1,
        })),
        AtConv::OpenCtl => Ok(alone(Event::Open {
            file: FileName::Ctl,
            mode: Mode::Both,
        })),
        AtConv::ReadCtl => Ok(alone(Event::File {
            generation,
            file: FileName::Ctl,
            count: 8192,
        })),
        AtConv::Ls => Ok(alone(Event::Ls)),
        AtConv::Tick => Ok(alone(Event::Tick { generation })),
        AtConv::Close => Ok(alone(Event::Close { generation })),
        AtConv::Hangup(generation) => Ok(alone(Event::Hangup { generation })),
    }
}

pub fn work_of(alloc: Global, ask: Ask) -> Result<Work, AllocError> {
    match ask {
        Ask::Desk(ask) => Ok(alone(desk_event(alloc, ask)?)),
        Ask::Dir(ask) => dir_work(alloc, ask),
        Ask::Conv(ask) => conv_work(alloc, ask),
        Ask::Move(moment) => Ok(alone(Event::Move { moment })),
        Ask::Take => Ok(alone(Event::Take)),
        Ask::Put => with_datagram(alloc, Event::Put { to: Some(0) }),
        Ask::PutNothing => Ok(alone(Event::Put { to: Some(0) })),
    }
}
