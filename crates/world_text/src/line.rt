//! The lines of a world, by their words, and why one is bad.
ghost use Rattle.std.specs.Prelude.{◌≡◌};
ghost use Rattle.world_text.specs.LineCauses.{cause_number_of};

use net_base::{Fate, Nets, Octets, RouteLine, Step, Timers};

/// Why a line is bad, in the order in which causes are told.
#[derive(Clone, Copy, Debug, PartialEq, Eq)]
pub enum LineCause {
    /// The first line is neither `networld 1` nor `networld 2`.
    FirstLine,
    UnknownWord,
    WrongArgument,
    /// A name stands twice, or a host has a second interface on one medium.
    NameTwice,
    UnknownName,
    AddressTwice,
    OverLimit,
    /// A line goes back to an earlier group, stands under nothing, or sets what was set before.
    OutOfOrder,
    /// The end, the seed, a medium, a host or `ndb` is missing.
    MissingPart,
    /// A mask with holes, or a net with bits outside its mask.
    BadMask,
    /// Two routes of a host lead to one network, the networks of its interfaces included.
    RouteTwice,
    /// A gateway is on none of the host's networks.
    FarGateway,
    /// Fates overlap, or the rates of a medium are over 1000.
    FateClash,
    /// The moment of a version of the database isn't above the one before.
    EarlyVersion,
}

impl LineCause {
    /// The cause's number, 11 to 24.
    pub fn number(self) -> u32
        ensures { result ≡ cause_number_of self }
    {
        match self {
            LineCause::FirstLine => 11,
            LineCause::UnknownWord => 12,
            LineCause::WrongArgument => 13,
            LineCause::NameTwice => 14,
            LineCause::UnknownName => 15,
            LineCause::AddressTwice => 16,
            LineCause::OverLimit => 17,
            LineCause::OutOfOrder => 18,
            LineCause::MissingPart => 19,
            LineCause::BadMask => 20,
            LineCause::RouteTwice => 21,
            LineCause::FarGateway => 22,
            LineCause::FateClash => 23,
            LineCause::EarlyVersion => 24,
        }
    }
}

/// Frames of a medium, by their numbers from 1.
#[derive(Clone, Copy, Debug, PartialEq, Eq)]
pub enum Frames {
    One(u64),
    Range(u64, u64),
}

/// A line of the media.
#[derive(Debug, Drop)]
pub enum MediumLine {
    Medium {
        name: Octets,
        mtu: u32,
    },
    /// Rates in thousandths.
    Rates {
        name: Octets,
        loss: u32,
        twice: u32,
        later: u32,
    },
    Fate {
        name: Octets,
        frames: Frames,
        fate: Fate,
    },
}

/// A line under a host.
#[derive(Debug, Drop)]
pub enum HostLine {
    If { medium: Octets, ip: u32, mask: u32 },
    Route(RouteLine),
    Start(u32),
}

/// A line of a world.
#[derive(Debug, Drop)]
pub enum WorldLine {
    /// The kind of timers: fixed for 1, measured for 2.
    Networld(Timers),
    End(u64),
    Seed(u64),
    OfMedium(MediumLine),
    Host { name: Octets, nets: Nets },
    /// A line under the last host.
    OfHost(HostLine),
    Script { host: Octets },
    /// A step of the last script.
    OfScript(Step),
    Ndb,
}
