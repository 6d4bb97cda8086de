//! Worlds: media, hosts and scripts, in the order of their file.
ghost use Rattle.std.specs.Prelude.{◌≡◌};

use crate::address::Proto;
use crate::names::Mode;
use crate::ndb::Db;
use crate::octets::Octets;
use crate::sequence::Sequence;
use crate::timer::Timers;
use std::alloc::AllocError;

/// What becomes of a frame.
#[derive(Clone, Copy, Debug, PartialEq, Eq)]
pub enum Fate {
    Deliver,
    Lose,
    Twice,
    Later,
}

/// The fate of the frames `first` to `last`, counted from 1.
#[derive(Clone, Copy, Debug, PartialEq, Eq)]
pub struct FateRange {
    pub first: u64,
    pub last: u64,
    pub fate: Fate,
}

pub type Fates = Sequence<FateRange>;

/// A medium, with its mtu in bytes and its rates in thousandths.
#[derive(Debug, Drop)]
pub struct MediumSpec {
    pub number: u32,
    pub name: Octets,
    pub mtu: u32,
    pub loss: u32,
    pub twice: u32,
    pub later: u32,
    pub fates: Fates,
}

impl Clone for MediumSpec {
    ghost is_clone = { λ spec copy. copy ≡ spec };

    fn clone(&self) -> Result<MediumSpec, AllocError> {
        Ok(MediumSpec {
            number: self.number,
            name: self.name.clone()?,
            mtu: self.mtu,
            loss: self.loss,
            twice: self.twice,
            later: self.later,
            fates: self.fates.clone()?,
        })
    }
}

pub type Media = Sequence<MediumSpec>;

/// An interface of a host on a medium.
#[derive(Clone, Copy, Debug, PartialEq, Eq)]
pub struct Iface {
    pub medium: u32,
    pub ip: u32,
    pub mask: u32,
}

pub type Ifaces = Sequence<Iface>;

/// A route to a network by a gateway.
#[derive(Clone, Copy, Debug, PartialEq, Eq)]
pub struct RouteLine {
    pub net: u32,
    pub mask: u32,
    pub gateway: u32,
}

pub type RouteLines = Sequence<RouteLine>;

/// The protocols of a host, in the order in which cs tries them.
pub type Nets = Sequence<Proto>;

/// Initial ids of IL conversations.
pub type Starts = Sequence<u32>;

/// A host.
#[derive(Debug, Drop)]
pub struct HostSpec {
    pub name: Octets,
    pub nets: Nets,
    pub ifaces: Ifaces,
    pub routes: RouteLines,
    pub starts: Starts,
}

pub type Hosts = Sequence<HostSpec>;

/// A step of a script, a variant a word, with its words in their order.
#[derive(Debug, Drop)]
pub enum Step {
    Open {
        name: Octets,
        path: Octets,
        mode: Option<Mode>,
    },
    Read {
        name: Octets,
        count: u32,
    },
    Write {
        name: Octets,
        text: Octets,
    },
    Writex {
        name: Octets,
        text: Octets,
    },
    Close {
        name: Octets,
    },
    Ls {
        path: Octets,
    },
    Cs {
        query: Octets,
    },
    Until {
        moment: u64,
    },
    Refresh,
    Dial {
        name: Octets,
        address: Octets,
    },
    Announce {
        name: Octets,
        address: Octets,
    },
    Listen {
        name: Octets,
        from: Octets,
    },
    Accept {
        name: Octets,
        from: Octets,
    },
    Reject {
        name: Octets,
    },
    Hangup {
        name: Octets,
    },
    /// Takes a call, and reads its first datagram and where that is from.
    Hread {
        name: Octets,
        count: u32,
    },
    /// Answers the datagram of the open `hread`: headers and a text.
    Hwrite {
        name: Octets,
        bytes: Octets,
    },
    /// Answers so many questions from the database.
    Dns {
        name: Octets,
        times: u32,
    },
    // imports
    Export {
        name: Octets,
    },
    Import {
        name: Octets,
    },
    Ropen {
        name: Octets,
        call: Octets,
        path: Octets,
        mode: Mode,
    },
    Rread {
        name: Octets,
        count: u32,
    },
    Rwrite {
        name: Octets,
        text: Octets,
    },
    Rclose {
        name: Octets,
    },
}

pub type StepList = Sequence<Step>;

/// A script of a host.
#[derive(Debug, Drop)]
pub struct Script {
    pub host: u32,
    pub steps: StepList,
}

pub type Scripts = Sequence<Script>;

/// A database, and the moment in ms from which on it is in force.
#[derive(Debug, Drop)]
pub struct Version {
    pub moment: u64,
    pub db: Db,
}

/// The databases of a world, in the order of their moments.
pub type Versions = Sequence<Version>;

/// All that a run starts from. `end` is the end moment in ms.
#[derive(Debug, Drop)]
pub struct World {
    pub end: u64,
    pub seed: u64,
    pub timers: Timers,
    pub media: Media,
    pub hosts: Hosts,
    pub scripts: Scripts,
    pub dbs: Versions,
}
