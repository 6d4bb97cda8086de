//! The lines of hosts.
ghost use Rattle.std.specs.Prelude.{◌≡◌, ◌∷◌, ◌++◌, [], map, flat_map, OnOk};
ghost use Rattle.net_base.specs.Paths.{proto_name};
ghost use Rattle.world_text.specs.WorldSpelling as spec;
ghost use Rattle.world_text.specs.WorldSpelling.{laid, medium_names, spaced_line};
ghost use Rattle.world_writer.specs.Written.{written_behind, lines_under};

use crate::line::{put_ips, put_number, put_three_ips, put_two, put_word};
use crate::media::medium_name;
use net_base::{HostSpec, Iface, MediumSpec, Octets, Proto, RouteLine};
use std::alloc::AllocError;
use words::proto_name;

/// Adds the names of protocols behind words.
fn put_nets(out: &mut Octets, nets: &[Proto]) -> Result<(), AllocError>
    ensures { OnOk result (out.new ≡ out.old ++ written_behind (map proto_name nets.now)) }
{
    for proto in nets {
        put_word(out, proto_name(*proto))?;
    }
    Ok(())
}

/// Adds a name and, behind it, the names of protocols.
fn put_named(out: &mut Octets, name: &[u8], nets: &[Proto]) -> Result<(), AllocError>
    ensures { OnOk result (out.new ≡ out.old ++ spaced_line (name.now ∷ map proto_name nets.now)) }
{
    out.append(name)?;
    put_nets(out, nets)
}

/// Adds the `host` line of a host.
fn put_host_line(out: &mut Octets, host: &HostSpec) -> Result<(), AllocError>
    ensures { OnOk result (out.new ≡ out.old ++ laid (spec.line_of_host host.now ∷ [])) }
{
    out.append(b"host ")?;
    put_named(out, host.name.as_slice(), host.nets.as_slice())?;
    out.push(b'\n')
}

/// Adds an `if` line.
fn put_iface(out: &mut Octets, media: &[MediumSpec], iface: &Iface) -> Result<(), AllocError>
    ensures { OnOk result (out.new ≡ out.old ++ laid (spec.line_of_iface (medium_names media.now) iface.now ∷ [])) }
{
    put_two(out, b"if", medium_name(media, iface.medium))?;
    put_ips(out, iface.ip, iface.mask)?;
    out.push(b'\n')
}

/// Adds `if` lines.
fn put_ifaces(out: &mut Octets, media: &[MediumSpec], ifaces: &[Iface]) -> Result<(), AllocError>
    ensures { OnOk result (out.new ≡ out.old ++ laid (map (spec.line_of_iface (medium_names media.now)) ifaces.now)) }
{
    for iface in ifaces {
        put_iface(out, media, iface)?;
    }
    Ok(())
}

/// Adds a `route` line.
fn put_route(out: &mut Octets, route: &RouteLine) -> Result<(), AllocError>
    ensures { OnOk result (out.new ≡ out.old ++ laid (spec.line_of_route route.now ∷ [])) }
{
    out.append(b"route")?;
    put_three_ips(out, route.net, route.mask, route.gateway)?;
    out.push(b'\n')
}

/// Adds `route` lines.
fn put_routes(out: &mut Octets, routes: &[RouteLine]) -> Result<(), AllocError>
    ensures { OnOk result (out.new ≡ out.old ++ laid (map spec.line_of_route routes.now)) }
{
    for route in routes {
        put_route(out, route)?;
    }
    Ok(())
}

/// Adds a `start` line.
fn put_start(out: &mut Octets, start: u32) -> Result<(), AllocError>
    ensures { OnOk result (out.new ≡ out.old ++ laid (spec.line_of_start start ∷ [])) }
{
    out.append(b"start")?;
    put_number(out, u64::from(start))?;
    out.push(b'\n')
}

/// Adds `start` lines.
fn put_starts(out: &mut Octets, starts: &[u32]) -> Result<(), AllocError>
    ensures { OnOk result (out.new ≡ out.old ++ laid (map spec.line_of_start starts.now)) }
{
    for start in starts {
        put_start(out, *start)?;
    }
    Ok(())
}

/// Adds the lines under a host, where these media are.
fn put_under(
    out: &mut Octets,
    media: &[MediumSpec],
    ifaces: &[Iface],
    routes: &[RouteLine],
    starts: &[u32],
) -> Result<(), AllocError>
    ensures { OnOk result (out.new ≡ out.old ++ laid
        (lines_under (medium_names media.now) ifaces.now routes.now starts.now)) }
{
    put_ifaces(out, media, ifaces)?;
    put_routes(out, routes)?;
    put_starts(out, starts)
}

/// Adds the lines of a host, where these media are.
fn put_host(out: &mut Octets, media: &[MediumSpec], host: &HostSpec) -> Result<(), AllocError>
    ensures { OnOk result (out.new ≡ out.old ++ laid (spec.lines_of_host (medium_names media.now) host.now)) }
{
    put_host_line(out, host)?;
    let ifaces = host.ifaces.as_slice();
    let routes = host.routes.as_slice();
    put_under(out, media, ifaces, routes, host.starts.as_slice())
}

/// Adds the lines of hosts, where these media are.
pub fn put_hosts(
    out: &mut Octets,
    media: &[MediumSpec],
    hosts: &[HostSpec],
) -> Result<(), AllocError>
    ensures { OnOk result (out.new ≡ out.old ++ laid
        (flat_map (spec.lines_of_host (medium_names media.now)) hosts.now)) }
{
    for host in hosts {
        put_host(out, media, host)?;
    }
    Ok(())
}

/// The name of a host by its place, and none where no host has it.
pub fn host_name(hosts: &[HostSpec], place: u32) -> &[u8]
    ensures { result.now ≡ spec.nth_name (spec.host_names hosts.now) place }
{
    match hosts.get(place as usize) {
        Some(host) => host.name.as_slice(),
        None => b"",
    }
}
