//! Why a line is bad behind others.
ghost use Rattle.std.specs.Prelude.{◌≡◌, ◌+◌, ◌==◌, ◌&&◌};
ghost use Rattle.net_base.specs.World as world;
ghost use Rattle.world_text.specs.WorldLines as spec;
ghost use Rattle.world_file.specs.Told.{IsSmallDraft};

use crate::draft::Draft;
use net_base::{Fate, FateRange, RouteLine};
use words::mask_bits;
use world_text::{Frames, HostLine, LineCause, MediumLine, WorldLine};

/// The frames whose fate a line tells.
pub(crate) fn range_of(frames: Frames, fate: Fate) -> FateRange
    ensures { result ≡ spec.range_of frames fate }
{
    match frames {
        Frames::One(frame) => FateRange {
            first: frame,
            last: frame,
            fate,
        },
        Frames::Range(first, last) => FateRange { first, last, fate },
    }
}

/// Whether the ones of a mask are a prefix.
fn is_mask(mask: u32) -> bool
    ensures { result ≡ world.is_mask mask }
{
    mask_bits(mask).is_some()
}

/// Whether a net has such a mask, and no bits outside it.
fn is_net(net: u32, mask: u32) -> bool
    ensures { result ≡ spec.is_net net mask }
{
    is_mask(mask) && net & mask == net
}

impl Draft {
    /// The least cause for which a line is bad behind those so far, if there is one.
    pub(crate) fn line_cause(&self, line: &WorldLine) -> Option<LineCause>
        requires { IsSmallDraft self.now }
        ensures { result ≡ spec.line_cause self.now line.now }
    {
        match line {
            WorldLine::Networld(_) => Some(LineCause::OutOfOrder),
            WorldLine::End(_) => self.end_cause(),
            WorldLine::Seed(_) => self.seed_cause(),
            WorldLine::OfMedium(line) => self.medium_line_cause(line),
            WorldLine::Host { name, .. } => self.host_cause(name.as_slice()),
            WorldLine::OfHost(line) => self.host_line_cause(line),
            WorldLine::Script { host } => self.script_cause(host.as_slice()),
            WorldLine::OfScript(_) => self.step_cause(),
            WorldLine::Ndb => self.ndb_cause(),
        }
    }

    fn end_cause(&self) -> Option<LineCause>
        ensures { result ≡ spec.end_cause self.now }
    {
        if 1 < self.group {
            return Some(LineCause::OutOfOrder);
        }
        None
    }

    fn seed_cause(&self) -> Option<LineCause>
        ensures { result ≡ spec.seed_cause self.now }
    {
        if 2 < self.group {
            return Some(LineCause::OutOfOrder);
        }
        if self.group < 2 {
            return Some(LineCause::MissingPart);
        }
        None
    }

    fn medium_line_cause(&self, line: &MediumLine) -> Option<LineCause>
        ensures { result ≡ spec.medium_line_cause self.now line.now }
    {
        match line {
            MediumLine::Medium { name, .. } => self.medium_cause(name.as_slice()),
            MediumLine::Rates {
                name,
                loss,
                twice,
                later,
            } => {
                let total = u64::from(*loss) + u64::from(*twice) + u64::from(*later);
                self.rates_cause(name.as_slice(), total)
            }
            MediumLine::Fate { name, frames, fate } => {
                self.fate_cause(name.as_slice(), range_of(*frames, *fate))
            }
        }
    }

    fn medium_cause(&self, name: &[u8]) -> Option<LineCause>
        ensures { result ≡ spec.medium_cause self.now name.now }
    {
        if self.has_medium(name) {
            return Some(LineCause::NameTwice);
        }
        if 4 <= self.media.len() {
            return Some(LineCause::OverLimit);
        }
        if 4 < self.group {
            return Some(LineCause::OutOfOrder);
        }
        if self.group < 3 {
            return Some(LineCause::MissingPart);
        }
        None
    }

    fn rates_cause(&self, name: &[u8], total: u64) -> Option<LineCause>
        ensures { result ≡ spec.rates_cause self.now name.now total }
    {
        if !self.has_medium(name) {
            return Some(LineCause::UnknownName);
        }
        if 4 < self.group || self.is_rated(name) {
            return Some(LineCause::OutOfOrder);
        }
        if 1000 < total {
            return Some(LineCause::FateClash);
        }
        None
    }

    fn fate_cause(&self, name: &[u8], fate: FateRange) -> Option<LineCause>
        ensures { result ≡ spec.fate_cause self.now name.now fate }
    {
        if !self.has_medium(name) {
            return Some(LineCause::UnknownName);
        }
        if 4 < self.group {
            return Some(LineCause::OutOfOrder);
        }
        if self.has_fate(name, fate) {
            return Some(LineCause::FateClash);
        }
        None
    }

    fn has_fate(&self, name: &[u8], fate: FateRange) -> bool
        ensures { result ≡ spec.has_fate name.now fate self.now }
    {
        self.media.iter().any(|medium| medium.is_fated(name, fate))
    }

    fn host_cause(&self, name: &[u8]) -> Option<LineCause>
        ensures { result ≡ spec.host_cause self.now name.now }
    {
        if self.has_host(name) {
            return Some(LineCause::NameTwice);
        }
        if 8 <= self.hosts.len() {
            return Some(LineCause::OverLimit);
        }
        if 5 < self.group {
            return Some(LineCause::OutOfOrder);
        }
        if self.group < 4 {
            return Some(LineCause::MissingPart);
        }
        None
    }

    fn host_line_cause(&self, line: &HostLine) -> Option<LineCause>
        requires { IsSmallDraft self.now }
        ensures { result ≡ spec.host_line_cause self.now line.now }
    {
        match line {
            HostLine::If { medium, ip, mask } => self.if_cause(medium.as_slice(), *ip, *mask),
            HostLine::Route(route) => self.route_cause(*route),
            HostLine::Start(_) => self.start_cause(),
        }
    }

    fn if_cause(&self, medium: &[u8], ip: u32, mask: u32) -> Option<LineCause>
        requires { IsSmallDraft self.now }
        ensures { result ≡ spec.if_cause self.now medium.now ip mask }
    {
        if !self.has_medium(medium) {
            return Some(LineCause::UnknownName);
        }
        if self.is_under_on(self.medium_number(medium)) {
            return Some(LineCause::NameTwice);
        }
        if self.has_address(ip) {
            return Some(LineCause::AddressTwice);
        }
        if self.host_under().is_none() {
            return Some(LineCause::OutOfOrder);
        }
        if !is_mask(mask) {
            return Some(LineCause::BadMask);
        }
        if self.is_under_knowing(ip & mask, mask) {
            return Some(LineCause::RouteTwice);
        }
        None
    }

    fn route_cause(&self, route: RouteLine) -> Option<LineCause>
        ensures { result ≡ spec.route_cause self.now route }
    {
        if self.host_under().is_none() {
            return Some(LineCause::OutOfOrder);
        }
        if !is_net(route.net, route.mask) {
            return Some(LineCause::BadMask);
        }
        if self.is_under_knowing(route.net, route.mask) {
            return Some(LineCause::RouteTwice);
        }
        if !self.is_under_reaching(route.gateway) {
            return Some(LineCause::FarGateway);
        }
        None
    }

    fn start_cause(&self) -> Option<LineCause>
        ensures { result ≡ spec.start_cause self.now }
    {
        if self.host_under().is_none() {
            return Some(LineCause::OutOfOrder);
        }
        None
    }

    /// Whether lines stand under a host with an interface on this medium.
    fn is_under_on(&self, medium: u32) -> bool
        ensures { result ≡ spec.is_under (spec.has_iface_on medium) self.now }
    {
        match self.host_under() {
            Some(host) => host.has_iface_on(medium),
            None => false,
        }
    }

    /// Whether lines stand under a host that knows this network.
    fn is_under_knowing(&self, net: u32, mask: u32) -> bool
        ensures { result ≡ spec.is_under (spec.knows_network net mask) self.now }
    {
        match self.host_under() {
            Some(host) => host.knows_network(net, mask),
            None => false,
        }
    }

    /// Whether lines stand under a host one of whose networks has this address.
    fn is_under_reaching(&self, ip: u32) -> bool
        ensures { result ≡ spec.is_under (spec.reaches ip) self.now }
    {
        match self.host_under() {
            Some(host) => host.reaches(ip),
            None => false,
        }
    }

    fn script_cause(&self, host: &[u8]) -> Option<LineCause>
        ensures { result ≡ spec.script_cause self.now host.now }
    {
        if !self.has_host(host) {
            return Some(LineCause::UnknownName);
        }
        if 32 <= self.scripts.len() {
            return Some(LineCause::OverLimit);
        }
        None
    }

    fn step_cause(&self) -> Option<LineCause>
        ensures { result ≡ spec.step_cause self.now }
    {
        if self.group < 6 {
            return Some(LineCause::OutOfOrder);
        }
        None
    }

    fn ndb_cause(&self) -> Option<LineCause>
        ensures { result ≡ spec.ndb_cause self.now }
    {
        if self.group < 5 {
            return Some(LineCause::MissingPart);
        }
        None
    }
}
