//! A world so far.
ghost use Rattle.std.specs.Prelude.{◌≡◌, ◌≤◌, ◌<◌, ◌==◌, length, position, Some, None, MatchOption, IfOk};
ghost use Rattle.std.specs.List.{list_any, last_or, position_or_len};
ghost use Rattle.net_base.specs.Routes.{has_ip};
ghost use Rattle.world_text.specs.WorldLines as spec;
ghost use Rattle.world_text.specs.WorldText.{missing};
ghost use Rattle.world_file.specs.SessionText.{host_of_last};

use crate::host::HostDraft;
use crate::medium::MediumDraft;
use net_base::{HostSpec, MediumSpec, Octets, Script, Sequence, Timers, World};
use std::alloc::{AllocError, Global};
use std::marker::Model;
use world_text::LineCause;

/// A world so far.
#[derive(Drop)]
pub(crate) struct Draft {
    /// The group of the last line, 0 before the first.
    pub(crate) group: u32,
    pub(crate) end: u64,
    pub(crate) seed: u64,
    pub(crate) timers: Timers,
    pub(crate) media: Vec<MediumDraft>,
    /// The names of the media whose rates were set.
    pub(crate) rated: Vec<Octets>,
    pub(crate) hosts: Vec<HostDraft>,
    pub(crate) scripts: Vec<Script>,
}

impl Model for Draft {
    ghost use Rattle.world_text.specs.WorldLines.{Draft};

    ghost Value = { Draft };

    ghost view = { λ d. record {
      group = d.group;
      end = d.end;
      seed = d.seed;
      timers = d.timers;
      media = d.media.items;
      rated = d.rated.items;
      hosts = d.hosts.items;
      scripts = d.scripts.items;
    } };
}

impl Draft {
    /// Nothing, which takes no memory yet.
    pub(crate) fn new(alloc: Global) -> Draft
        ensures { result ≡ spec.opening_draft }
    {
        Draft {
            group: 0,
            end: 1,
            seed: 0,
            timers: Timers::Fixed,
            media: Vec::new(alloc),
            rated: Vec::new(alloc),
            hosts: Vec::new(alloc),
            scripts: Vec::new(alloc),
        }
    }

    pub(crate) fn has_medium(&self, name: &[u8]) -> bool
        ensures { result ≡ spec.has_medium name.now self.now }
    {
        has_medium_named(self.media.as_slice(), name)
    }

    /// The number of the medium with this name, or how many media there are.
    pub(crate) fn medium_number(&self, name: &[u8]) -> u32
        requires { length self.now.media ≤ 4 }
        ensures { result ≡ spec.medium_number name.now self.now }
    {
        medium_place(self.media.as_slice(), name) as u32
    }

    pub(crate) fn is_rated(&self, name: &[u8]) -> bool
        ensures { result ≡ spec.is_rated name.now self.now }
    {
        self.rated.iter().any(|rated| name == rated.as_slice())
    }

    pub(crate) fn has_host(&self, name: &[u8]) -> bool
        ensures { result ≡ spec.has_host name.now self.now }
    {
        has_host_named(self.hosts.as_slice(), name)
    }

    /// The number of the host with this name, or how many hosts there are.
    pub(crate) fn host_number(&self, name: &[u8]) -> u32
        requires { length self.now.hosts ≤ 8 }
        ensures { result ≡ spec.host_number name.now self.now }
    {
        host_place(self.hosts.as_slice(), name) as u32
    }

    pub(crate) fn has_address(&self, ip: u32) -> bool
        ensures { result ≡ list_any (has_ip ip) self.now.hosts }
    {
        self.hosts.iter().any(|host| host.has_ip(ip))
    }

    /// The host that lines stand under.
    pub(crate) fn host_under(&self) -> Option<&HostDraft>
        ensures { MatchOption result (spec.host_under self.now ≡ None)
            (λ host. spec.host_under self.now ≡ Some host.now) }
    {
        if self.group == 5 {
            last_host(self.hosts.as_slice())
        } else {
            None
        }
    }

    /// How many scripts there are.
    pub(crate) fn script_count(&self) -> u32
        requires { length self.now.scripts ≤ 32 }
        ensures { result ≡ length self.now.scripts }
    {
        self.scripts.len() as u32
    }

    /// The host of the last script, 0 without one.
    pub(crate) fn last_host(&self) -> u32
        ensures { result ≡ host_of_last self.now }
    {
        match last_script(self.scripts.as_slice()) {
            Some(script) => script.host,
            None => 0,
        }
    }

    /// The cause for which a text without `ndb` is bad.
    pub(crate) fn missing(&self) -> LineCause
        ensures { result ≡ missing self.now }
    {
        if self.group == 0 {
            LineCause::FirstLine
        } else {
            LineCause::MissingPart
        }
    }

    /// The world, without its databases.
    pub(crate) fn finish(self, alloc: Global) -> Result<World, AllocError>
        ensures { IfOk result (λ w. w ≡ spec.world_of self) }
    {
        let Draft {
            end,
            seed,
            timers,
            media,
            hosts,
            scripts,
            ..
        } = self;
        Ok(World {
            end,
            seed,
            timers,
            media: Sequence::from_vec(finish_media(alloc, media)?),
            hosts: Sequence::from_vec(finish_hosts(alloc, hosts)?),
            scripts: Sequence::from_vec(scripts),
            dbs: Sequence::new(alloc),
        })
    }
}

fn has_medium_named(media: &[MediumDraft], name: &[u8]) -> bool
    ensures { result ≡ list_any (spec.is_medium_named name.now) media.now }
{
    media.iter().any(|medium| medium.is_named(name))
}

/// The place of the first medium with this name, or how many there are.
#[tactic(auto, using(crate::proofs::Placed::place_some, crate::proofs::Placed::place_none))]
pub(crate) fn medium_place(media: &[MediumDraft], name: &[u8]) -> usize
    ensures { result ≡ position_or_len (spec.is_medium_named name.now) media.now }
{
    match find_medium(media, name) {
        Some(place) => place,
        None => media.len(),
    }
}

fn find_medium(media: &[MediumDraft], name: &[u8]) -> Option<usize>
    ensures { result ≡ position (spec.is_medium_named name.now) media.now }
{
    media.iter().position(|medium| medium.is_named(name))
}

fn has_host_named(hosts: &[HostDraft], name: &[u8]) -> bool
    ensures { result ≡ list_any (spec.is_host_named name.now) hosts.now }
{
    hosts.iter().any(|host| host.is_named(name))
}

/// The place of the first host with this name, or how many there are.
#[tactic(auto, using(crate::proofs::Placed::place_some, crate::proofs::Placed::place_none))]
fn host_place(hosts: &[HostDraft], name: &[u8]) -> usize
    ensures { result ≡ position_or_len (spec.is_host_named name.now) hosts.now }
{
    match find_host(hosts, name) {
        Some(place) => place,
        None => hosts.len(),
    }
}

fn find_host(hosts: &[HostDraft], name: &[u8]) -> Option<usize>
    ensures { result ≡ position (spec.is_host_named name.now) hosts.now }
{
    hosts.iter().position(|host| host.is_named(name))
}

/// The last host.
#[tactic(auto, using(crate::proofs::Placed::last_is, crate::proofs::Placed::none_last))]
fn last_host(hosts: &[HostDraft]) -> Option<&HostDraft>
    ensures { MatchOption result (last_or None hosts.now ≡ None) (λ host. last_or None hosts.now ≡ Some host.now) }
{
    let count = hosts.len();
    if 0 < count {
        Some(&hosts[count - 1])
    } else {
        None
    }
}

/// The last script.
#[tactic(auto, using(crate::proofs::Placed::last_is, crate::proofs::Placed::none_last))]
fn last_script(scripts: &[Script]) -> Option<&Script>
    ensures { MatchOption result (last_or None scripts.now ≡ None)
        (λ script. last_or None scripts.now ≡ Some script.now) }
{
    let count = scripts.len();
    if 0 < count {
        Some(&scripts[count - 1])
    } else {
        None
    }
}

fn finish_media(alloc: Global, media: Vec<MediumDraft>) -> Result<Vec<MediumSpec>, AllocError>
    ensures { IfOk result (λ specs. specs.items ≡ media.items) }
{
    let mut specs = Vec::with_capacity(alloc, media.len())?;
    for medium in media {
        specs.push(medium.finish())?;
    }
    Ok(specs)
}

fn finish_hosts(alloc: Global, hosts: Vec<HostDraft>) -> Result<Vec<HostSpec>, AllocError>
    ensures { IfOk result (λ specs. specs.items ≡ hosts.items) }
{
    let mut specs = Vec::with_capacity(alloc, hosts.len())?;
    for host in hosts {
        specs.push(host.finish())?;
    }
    Ok(specs)
}
