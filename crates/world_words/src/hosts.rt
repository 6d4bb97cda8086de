//! The lines of the hosts.
ghost use Rattle.std.specs.Prelude.{◌≡◌, ◌∷◌, map, IfOk};
ghost use Rattle.world_text.specs.LineReading as spec;

use crate::arguments::Arguments;
use crate::names::{is_name, is_nets, nets_named};
use net_base::{Octets, RouteLine};
use std::alloc::{AllocError, Global};
use words::{address_in, number_in};
use world_text::{HostLine, WorldLine};

/// `host NAME NETS`
#[tactic(auto, using(crate::proofs::Parts::one_net, crate::proofs::Parts::two_nets, crate::proofs::Parts::no_nets))]
pub(crate) fn read_host(
    alloc: Global,
    args: &Arguments<'_>,
) -> Result<Option<WorldLine>, AllocError>
    ensures { IfOk result (λ read. read ≡ spec.host_line_of args.now) }
{
    if let Some((name, net)) = args.two() {
        return host_of(alloc, name, &[net]);
    }
    if let Some((name, first, second)) = args.three() {
        return host_of(alloc, name, &[first, second]);
    }
    Ok(None)
}

/// A host by its name and the words of its nets.
fn host_of(alloc: Global, name: &[u8], nets: &[&[u8]]) -> Result<Option<WorldLine>, AllocError>
    ensures { IfOk result (λ read. read ≡ spec.host_line_of (name.now ∷ map (λ w. w.now) nets.now)) }
{
    let nets = nets_named(alloc, nets)?;
    if !(is_name(name) && is_nets(nets.as_slice())) {
        return Ok(None);
    }
    Ok(Some(WorldLine::Host {
        name: Octets::from_slice(alloc, name)?,
        nets,
    }))
}

/// `if MEDIUM ADDRESS MASK`
pub(crate) fn read_if(alloc: Global, args: &Arguments<'_>) -> Result<Option<WorldLine>, AllocError>
    ensures { IfOk result (λ read. read ≡ spec.if_of args.now) }
{
    let Some((medium, ip, mask)) = args.three() else {
        return Ok(None);
    };
    if !is_name(medium) {
        return Ok(None);
    }
    let (Some(ip), Some(mask)) = (address_in(ip), address_in(mask)) else {
        return Ok(None);
    };
    Ok(Some(WorldLine::OfHost(HostLine::If {
        medium: Octets::from_slice(alloc, medium)?,
        ip,
        mask,
    })))
}

/// `route NET MASK GATEWAY`
pub(crate) fn read_route(args: &Arguments<'_>) -> Option<WorldLine>
    ensures { result ≡ spec.route_of args.now }
{
    let (net, mask, gateway) = args.three()?;
    let (Some(net), Some(mask), Some(gateway)) = (
        address_in(net),
        address_in(mask),
        address_in(gateway),
    ) else {
        return None;
    };
    Some(WorldLine::OfHost(HostLine::Route(RouteLine { net, mask, gateway })))
}

/// `start N`
pub(crate) fn read_start(args: &Arguments<'_>) -> Option<WorldLine>
    ensures { result ≡ spec.start_line args.now }
{
    let start = number_in(1, 4_294_967_295, args.one()?)?;
    Some(WorldLine::OfHost(HostLine::Start(start as u32)))
}

/// `script HOST`
pub(crate) fn read_script(
    alloc: Global,
    args: &Arguments<'_>,
) -> Result<Option<WorldLine>, AllocError>
    ensures { IfOk result (λ read. read ≡ spec.script_of args.now) }
{
    let Some(host) = args.one() else {
        return Ok(None);
    };
    if !is_name(host) {
        return Ok(None);
    }
    Ok(Some(WorldLine::Script {
        host: Octets::from_slice(alloc, host)?,
    }))
}
